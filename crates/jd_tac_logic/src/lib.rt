//! The rows of logic: sequents taken apart, equations, and connectives with `true` and `false`.
#![tactic(auto)]

mod data;
mod laws;

pub use data::table;
pub use laws::{logic_rows_are_found, logic_rows_mean};
