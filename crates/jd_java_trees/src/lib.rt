//! The trees that Java's derivations stand for.
#![tactic(auto)]

mod actions;
mod nodes;
mod short;

pub use actions::Action;
pub use nodes::{TreeNodes, tree_of};
