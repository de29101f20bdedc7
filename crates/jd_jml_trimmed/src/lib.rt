//! A derivation of JML without what is read and left out. Laws alone.
#![tactic(auto)]

mod laws;

pub use laws::derivations_are_trimmed;
