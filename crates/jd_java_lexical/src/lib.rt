//! A law, without code: trees of files that are read have names and literals such as tokens give.
#![tactic(auto)]

mod laws;

pub use laws::trees_are_lexical;
