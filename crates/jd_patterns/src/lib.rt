//! Patterns of rules, what they mean, and matching as a function on lists of bindings: definitions, without code.
#![tactic(auto)]

mod laws;

pub use laws::focus_is_one;
