//! What makes the sequent of an obligation too large. Laws alone.
#![tactic(auto)]

mod laws;

pub use laws::large_clauses_make_large_sequents;
