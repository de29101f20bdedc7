//! The clauses that tokens of JML spell at the places where it stands, and why tokens spell none.
#![tactic(auto)]

mod fill;
mod laws;
mod parse;
mod print;

pub use fill::fill_specs;
pub use laws::{one_answer, one_filling};
pub use parse::parse_spec;
pub use print::print_spec;
