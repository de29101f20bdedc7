//! What the nodes of JML's expressions stand for (JML Reference Manual, 12).
#![tactic(auto)]

mod action;
mod acts;
mod applying;
mod lists;
mod operands;
mod starts;

pub use action::Action;
pub use acts::act;
pub use applying::{all_applied, named};
pub use operands::begun_at;
