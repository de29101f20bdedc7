//! The resolved code that statements and bodies of Java stand for.
#![tactic(auto)]

mod bodies;
mod statements;

pub use bodies::{Made, body_of};
