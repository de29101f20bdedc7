//! The task that is made of a program that has an obligation by now.
#![tactic(auto)]

mod contracts;
mod first;
mod tasks;

pub use tasks::{FirstTask, Made, first_task};
