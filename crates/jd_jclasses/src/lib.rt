//! What the classes of Java's files declare and which files no program has: definitions and their laws.
#![tactic(auto)]

mod examples;
mod laws;

pub use examples::class_examples;
pub use laws::{one_class_refusal, one_method};
