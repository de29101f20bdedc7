//! The names in the text of terms and code: what they stand for, and what classes, fields and methods are called there, by the
//! tables of a program's classes.
#![tactic(auto)]

mod classes;
mod fields;
mod meanings;
mod names;
mod new;
mod parse;
mod parts;
mod routines;
mod sorts;
mod texts;
mod variables;

pub use jd_bracketed::{SxRefusal, read_sx};
pub use jd_print::print_formula;
pub use jd_sequent_print::print_sequent;
pub use jd_tread::TermRefusal;
pub use names::Names;
pub use parse::{parse_formula, parse_term};
