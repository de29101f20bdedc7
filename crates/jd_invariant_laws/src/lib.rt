//! Laws, without code: the invariants that are listed of a class stand for those that it has.
#![tactic(auto)]

mod laws;

pub use laws::invariants_are_resolved;
