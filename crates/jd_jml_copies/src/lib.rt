//! Copies of the trees of JML, and the tree that says of a field that it is not null.
#![tactic(auto)]

mod clauses;
mod copies;
mod fields;
mod makers;
mod names;

pub use clauses::{copy_clause, copy_clauses};
pub use copies::{copy_expression, copy_locations};
pub use fields::not_null;
