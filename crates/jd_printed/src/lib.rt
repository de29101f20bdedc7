//! What is printed of terms, formulas and sequents is read as what was printed. Laws alone.
#![tactic(auto)]

mod laws;

pub use laws::printed_is_read;
