//! The bodies of Java's methods: the types of expressions, which bodies no program has, and the code that a body stands for. Laws
//! alone.
#![tactic(auto)]

mod examples;
mod fault;
mod given;
mod place;
mod value;

pub use examples::{code_examples, fault_examples};
pub use fault::{Cause, Fault};
pub use given::{Arguments, Given};
pub use place::{Meaning, Place, Returns};
pub use value::{Callee, ValueType, Variable};
