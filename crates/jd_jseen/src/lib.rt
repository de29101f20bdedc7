//! Which method of each name, and which constructor, each class of a program sees.
#![tactic(auto)]

mod laws;
mod own;
mod seen;

pub use laws::{numbers_of_classes, numbers_of_routines};
pub use seen::{Seen, seen_of};
