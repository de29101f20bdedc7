//! The tables of a program as lists of rows. Laws alone.
#![tactic(auto)]

mod laws;

pub use laws::families_play_no_part;
