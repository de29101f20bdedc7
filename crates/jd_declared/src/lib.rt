//! What a program declares, as the bodies of its methods ask for it.
#![tactic(auto)]

mod building;
mod declared;
mod named;
mod walks;

pub use declared::{Declared, Routine};
