//! Terms, location sets and formulas, read from bracketed expressions, over whatever names stand for.
#![tactic(auto)]

mod answer;
mod formulas;
mod made_formulas;
mod made_terms;
mod refusal;
mod terms;
mod updates;

pub use answer::{answer_formula, answer_term};
pub use formulas::read_formula;
pub use refusal::TermRefusal;
