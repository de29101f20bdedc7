//! What a row's conditions tell of what its variables stand for, worked out on the tables of the task.
#![tactic(auto)]

mod computing;
mod lent;
mod numbers;
mod parts;
mod rows;
mod testing;
mod told;

pub use rows::conditions;
