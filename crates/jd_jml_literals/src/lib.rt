//! A law, without code: literals in the JML of files that are read fit 128 signed bits.
#![tactic(auto)]

mod laws;

pub use laws::literals_of_jml_fit;
