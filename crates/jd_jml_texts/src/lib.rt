//! The text of clauses is that of the tokens that they were read from. Laws alone.
#![tactic(auto)]

mod laws;

pub use laws::texts_are_kept;
