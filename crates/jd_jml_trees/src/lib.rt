//! The clauses that derivations of JML stand for.
#![tactic(auto)]

mod actions;
mod nodes;
mod short;

pub use actions::Action;
pub use nodes::{TreeNodes, clauses_of};
