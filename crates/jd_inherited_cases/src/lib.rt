//! The cases of an inherited method are those of the class that declares it. Laws alone.
#![tactic(auto)]

mod laws;

pub use laws::{inherited_cases_are_those, seen_methods_are_methods};
