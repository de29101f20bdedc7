//! The rules that `replay` has by now, found by their names: the rows of the table, and beside them the first rules that are no rows.
#![tactic(auto)]

mod set;

pub use set::Base;
