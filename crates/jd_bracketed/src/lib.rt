//! Texts in brackets: the tokens of all text forms, and bracketed expressions.
#![tactic(auto)]

mod class;
mod laws;
mod reading;
mod refusal;
mod token;
mod tokens;
mod whole;

pub use laws::{one_answer, one_lexing};
pub use reading::{Reading, Stop, stepped};
pub use refusal::SxRefusal;
pub use token::{Kind, Token};
pub use tokens::Tokens;
pub use whole::read_sx;
