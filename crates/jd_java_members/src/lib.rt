//! What the nodes of members stand for.
#![tactic(auto)]

mod action;
mod acts;
mod blocks;
mod classes;
mod declarations;
mod members;
mod parameters;

pub use action::Action;
pub use acts::act;
