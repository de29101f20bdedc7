//! The obligation of a case: its name, its variables and constants, and its sequent (The KeY Book, 8.3).
#![tactic(auto)]

mod constants;
mod names;
mod obligations;

pub use names::obligation_name;
pub use obligations::{Running, Untold, obligation, untold_of};
