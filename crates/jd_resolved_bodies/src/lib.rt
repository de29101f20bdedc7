//! A law, without code: what is made of a body that is not refused is resolved.
#![tactic(auto)]

mod laws;

pub use laws::bodies_are_resolved;
