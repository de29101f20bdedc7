//! How many classes and members files have: no more than they have bytes.
#![tactic(auto)]

mod laws;

pub use laws::files_are_small;
