//! Directed graphs as rows of bits, and which of their nodes reach which.
#![tactic(auto)]

mod edges;
mod graph;
mod group;
mod rows;
mod search;
mod stack;

pub use graph::Graph;
