//! The JML of a program: which token of it is refused first.
#![tactic(auto)]

mod refused;

pub use refused::{Refused, first_refused};
