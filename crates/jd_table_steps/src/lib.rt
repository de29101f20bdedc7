//! Laws, without code, of steps by the rows of a table at sequents that the grammar spells: what a set of rules promises of them.
#![tactic(auto)]

mod laws;

pub use laws::{rows_are_spelled_rules, table_steps_are_rule_steps};
