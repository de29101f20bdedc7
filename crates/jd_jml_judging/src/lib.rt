//! Which token of a clause of JML is refused first.
#![tactic(auto)]

mod context;
mod expressions;
mod locations;
mod method_names;
mod names;
mod operators;
mod places;
mod rules;

pub use context::{Around, Sofar, Word, at_first};
pub use method_names::{Known, MethodNames};
pub use places::clauses;
