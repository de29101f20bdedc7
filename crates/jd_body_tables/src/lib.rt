//! The rows of a program's tables that are not those of its cases: its bodies, and the invariants of its classes.
#![tactic(auto)]

mod bodies;
mod invariants;

pub use bodies::body_rows;
pub use invariants::invariant_rows;
