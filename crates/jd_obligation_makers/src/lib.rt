//! Makers of the sequents of obligations: of the row of a case and the body that runs (The KeY Book, 8.3).
#![tactic(auto)]

mod conjunctions;
mod entry;
mod exit;
mod frames;
mod runs;
mod sequents;

pub use conjunctions::conjoined;
pub use sequents::{Run, sequent};
