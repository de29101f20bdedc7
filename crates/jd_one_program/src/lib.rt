//! That what files mean is one. Laws alone.
#![tactic(auto)]

mod laws;

pub use laws::programs_are_one;
