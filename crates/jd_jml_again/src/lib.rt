//! What the laws of printed JML say of what is read. Laws alone.
#![tactic(auto)]

mod laws;

pub use laws::read_again;
