//! A law, without code: what is made of an expression adds temporaries behind the variables that are there.
#![tactic(auto)]

mod laws;

pub use laws::expressions_add_temporaries;
