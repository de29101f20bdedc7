//! A law, without code: the sequent of the task that is made of files is spelled by the grammar, with the task's names.
#![tactic(auto)]

mod laws;

pub use laws::first_tasks_are_spelled;
