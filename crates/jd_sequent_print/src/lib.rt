//! The text of sequents: a line for each formula.
#![tactic(auto)]

mod sequents;

pub use sequents::print_sequent;
