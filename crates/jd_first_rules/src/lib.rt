//! The twelve rules of the first replay.
#![tactic(auto)]

mod focus;
mod made;
mod names;
mod parts;
mod rewrite;
mod rows;
mod rules;
mod set;
mod step;

pub use jd_first_steps::FirstRule;
pub use rules::Kind;
pub use set::FirstRules;
