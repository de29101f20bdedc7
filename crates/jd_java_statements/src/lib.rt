//! What the nodes of statements stand for.
#![tactic(auto)]

mod action;
mod branches;
mod dispatch;
mod forms;
mod loops;
mod named;
mod ordered;
mod simple;
mod variables;

pub use action::Action;
pub use dispatch::act;
