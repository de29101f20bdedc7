//! The text of tokens: how they are written, and that reading the text gives them back. All printers of text forms stand on it.
#![tactic(auto)]

mod laws;
mod written;

pub use laws::{integers_are_words, read_back, written_in_parts};
pub use written::{Written, add_number};
