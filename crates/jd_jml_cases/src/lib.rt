//! The cases of a method's contract: those of the methods that it overrides, and its own.
#![tactic(auto)]

mod inherited;
mod laws;
mod trees;

pub use inherited::{Source, method_cases, tree_at};
pub use laws::{cases_are_contracts, lineages_are_classes_up};
pub use trees::method_trees;
