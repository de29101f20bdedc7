//! The text of terms, formulas and code (rules of printing: one space between two tokens, none inside a bracket's edge).
#![tactic(auto)]

mod code;
mod formulas;
mod names;
mod printing;
mod terms;
mod words;

pub use formulas::print_formula;
pub use names::NameTexts;
pub use terms::print_term;
