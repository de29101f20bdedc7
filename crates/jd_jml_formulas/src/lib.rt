//! The terms, formulas and location sets that stand for JML, made of its trees.
#![tactic(auto)]

mod formulas;
mod making;
mod operators;
mod places;
mod terms;
mod whole;

pub use making::{Making, Spelled, When};
pub use whole::{Unmade, formula, locations, term};
