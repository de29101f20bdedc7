//! Laws, without code: tables of rows that are made of a program's cases stand for the program, and the listed tables are such.
#![tactic(auto)]

mod laws;

pub use laws::{listed_fields_are_those, listed_tables_are_made, tables_of_programs_stand};
