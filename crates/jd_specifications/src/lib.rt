//! The specifications of Java's methods and classes: which JML no program has, and what it stands for. Laws alone.
#![tactic(auto)]

mod examples;
mod fault;
mod laws;

pub use examples::{meaning_examples, spec_fault_examples};
pub use fault::{SpecCause, SpecFault};
pub use laws::resolved_is_scoped;
