//! The tokens of Java source texts and of the JML in their comments, exactly, with their places; or the
//! first fault of the text.
#![tactic(auto)]

mod java;
mod jml;
mod laws;
mod parts;
mod runs;
mod signs;
mod starts;
mod token;

pub use java::tokens;
pub use laws::{one_answer, tokens_are_slices};
pub use token::{LexRefusal, Token, TokenKind};
