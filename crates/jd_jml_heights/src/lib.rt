//! What the attributes of a derivation of JML tell of heights is how high the expressions of its clauses are. Laws alone.
#![tactic(auto)]

mod laws;

pub use laws::{heights_are_told, read_heights};
