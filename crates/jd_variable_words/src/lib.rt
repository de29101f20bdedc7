//! A law, without code: trees of files that are read call parameters and locals by words.
#![tactic(auto)]

mod laws;

pub use laws::variables_are_called_by_words;
