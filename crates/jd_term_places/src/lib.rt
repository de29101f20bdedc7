//! Sequents with another term at a place.
#![tactic(auto)]

mod formulas;
mod sequents;
mod terms;

pub use sequents::put_term_at_place;
