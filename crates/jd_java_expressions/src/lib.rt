//! What the nodes of expressions stand for.
#![tactic(auto)]

mod action;
mod applying;
mod behind;
mod calls;
mod chains;
mod dispatch;
mod forms;
mod operands;
mod pieces;
mod starts;
mod words;

pub use action::Action;
pub use applying::applied_name;
pub use dispatch::act;
