//! Matching of patterns of formulas.
#![tactic(auto)]

mod formulas;

pub use formulas::match_formula;
