//! Files that are read call their classes and members by identifiers. Laws alone.
#![tactic(auto)]

mod laws;

pub use laws::names_are_identifiers;
