//! The text of clauses of JML.
#![tactic(auto)]

mod clauses;
mod expressions;
mod locations;
mod printing;
mod words;

pub use clauses::print_clauses;
