//! What is read of JML does not hang on where its tokens stand. Laws alone.
#![tactic(auto)]

mod laws;

pub use laws::places_are_apart;
