//! Laws, without code: a program has one answer to what the names in its bodies stand for.
#![tactic(auto)]

mod laws;

pub use laws::declarations_are_one;
