//! Nodes that stand each below one other, or below none, what they have of their own in some columns,
//! and what each takes from the nearest above it that has something there.
#![tactic(auto)]

mod laws;
mod order;
mod rows;

pub use laws::nearest_is_one;
pub use rows::nearest_values;
