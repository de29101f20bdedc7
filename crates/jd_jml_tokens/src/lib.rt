//! What the grammar of JML sees of tokens: kinds of words, numbers and signs (JML Reference Manual, 4.6).
#![tactic(auto)]

mod heads;
mod lexeme;
mod words;

pub use heads::{number_of, place_of, text_of};
pub use lexeme::{Lexeme, kinds_of, lexemes};
pub use words::kind_of;
