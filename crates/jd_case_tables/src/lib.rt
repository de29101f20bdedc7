//! The rows of a program's cases.
#![tactic(auto)]

mod adding;
mod fields;
mod listed;
mod row;
mod runs;
mod tables;

pub use row::{Rows, Written, case_row};
pub use tables::case_rows;
