//! Laws, without code: the obligations of a program's cases are made of the rows of its tables.
#![tactic(auto)]

mod laws;

pub use laws::obligations_are_made_of_rows;
