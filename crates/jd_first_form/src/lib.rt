//! Which programs have an obligation by now.
#![tactic(auto)]

mod conditions;
mod forms;
mod steps;

pub use forms::is_first_form;
