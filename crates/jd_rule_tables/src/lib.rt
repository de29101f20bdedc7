//! The tables whose rows are used as rules: laws, without code.
#![tactic(auto)]

mod laws;

pub use laws::rows_are_rules;
