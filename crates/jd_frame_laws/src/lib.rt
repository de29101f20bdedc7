//! What holds of the location sets of cases. Laws alone.
#![tactic(auto)]

mod laws;

pub use laws::frames_fit;
