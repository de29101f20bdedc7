//! The rows of integers: numbers folded, sums and products, order, induction, the 32 bits of an int, division, and sums over ranges.
#![tactic(auto)]

mod data;
mod laws;

pub use data::table;
pub use laws::{integer_rows_are_found, integer_rows_mean};
