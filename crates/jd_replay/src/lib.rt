//! Replay of proof scripts over any set of rules.
#![tactic(auto)]

mod laws;
mod verdict;
mod walk;

pub use laws::{bad_derives_nothing, one_is_first_bad};
pub use verdict::{Cause, Verdict};
pub use walk::replay;
