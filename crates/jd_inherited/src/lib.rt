//! Members of classes, and which of them disagree with one that their class inherits.
#![tactic(auto)]

mod counts;
mod find;
mod items;
mod order;
mod places;
mod walk;

pub use find::first_disagreeing;
pub use items::Item;
