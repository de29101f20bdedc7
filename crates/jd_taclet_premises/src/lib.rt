//! The premises of a step by a row: what its goals say under what was found, put into the sequent.
#![tactic(auto)]

mod laws;
mod making;
mod parts;

pub use laws::premises_are_made_of_goals;
pub use making::premises;
pub use parts::{GoalParts, Replacement, goals};
