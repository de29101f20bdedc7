//! The call graph of the families of a program's methods: which family reaches which.
#![tactic(auto)]

mod adding;
mod callees;
mod closed;
mod named;

pub use closed::{Numbering, family_graph};
