//! The files that tokens of Java spell, as trees, and why tokens are no file's.
#![tactic(auto)]

mod laws;
mod parse;
mod refusal;

pub use laws::one_answer;
pub use parse::parse_unit;
pub use refusal::ParseRefusal;
