//! Taclets: the rows of rules as plain data, with what it is that a row is sound. Definitions and worked rows, without code.
#![tactic(auto)]

mod laws;

pub use laws::{worked_rows_are_found, worked_rows_mean};
