//! The texts of the tokens of a file's tree are those of the tokens that it was read from. Laws alone.
#![tactic(auto)]

mod laws;

pub use laws::{texts_are_kept, texts_are_spelled, tokens_are_kept};
