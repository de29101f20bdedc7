//! What the nodes of JML's clauses and locations stand for (JML Reference Manual, 8, 9, 12.7, 13.2).
#![tactic(auto)]

mod action;
mod acts;
mod clauses;
mod locations;

pub use action::{Action, Assertion, Word};
pub use acts::act;
