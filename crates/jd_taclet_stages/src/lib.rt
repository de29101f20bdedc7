//! Steps of rows worked out by stages: definitions and laws, without code.
#![tactic(auto)]

mod laws;

pub use laws::{stages_decide, steps_are_one_way};
