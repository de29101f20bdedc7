//! A table of rows as rules: a step by the row that it names, in stages, and what it leads to.
#![tactic(auto)]

mod machine;
mod rules;
mod stages;
mod table;

pub use machine::machine_classes;
pub use rules::{TacletRule, apply_row};
pub use stages::goals_of_step;
pub use table::row_named;
