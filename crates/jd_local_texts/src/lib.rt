//! A law, without code: the texts of parameters and locals are words, and tell the name and its number.
#![tactic(auto)]

mod laws;

pub use laws::texts_of_locals_are_apart;
