//! Where a derivation of JML is without fault, casts stand behind names and the ranges of sums are ones. Laws alone.
#![tactic(auto)]

mod laws;

pub use laws::faultless_is_proper;
