//! What the grammar of Java's files sees of their tokens: kinds of words, numbers and signs (JLS 3.8 to 3.12), and runs of JML.
#![tactic(auto)]

mod heads;
mod lexeme;
mod runs;
mod unsupported;
mod words;

pub use heads::{begins_with_run, number_of, place_of, run_of, text_of};
pub use lexeme::{Content, Lexeme};
pub use runs::{kinds_of, lexemes};
pub use unsupported::{first_unsupported, is_unsupported};
pub use words::{Row, find_by_length, kind_of};
