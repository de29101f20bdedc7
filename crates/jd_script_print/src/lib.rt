//! The text of files of proof scripts: one space between two tokens, none at the inner edges of brackets.
#![tactic(auto)]

mod laws;
mod places;
mod steps;
mod trees;
mod whole;

pub use laws::printed_is_read;
pub use whole::print_script;
