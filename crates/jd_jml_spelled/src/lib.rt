//! Which tokens a comment of JML spells that is written token by token, and which the text of clauses. Laws alone.
#![tactic(auto)]

mod laws;

pub use laws::{clauses_are_spelled, comments_are_spelled};
