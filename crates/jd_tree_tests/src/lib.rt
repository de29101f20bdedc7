//! Exact tests of equality of plain trees: laws, without code.
#![tactic(auto)]

mod laws;

pub use laws::trees_are_compared;
