//! What the attributes of a derivation of a file tell of heights is how high its expressions and statements are. Laws alone.
#![tactic(auto)]

mod laws;

pub use laws::{heights_are_told, read_heights};
