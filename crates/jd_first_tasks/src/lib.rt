//! The task of a program that has an obligation by now, and what holds of it. Laws alone.
#![tactic(auto)]

mod laws;

pub use laws::{closed_first_tasks_are_kept, one_first_task};
