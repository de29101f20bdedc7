//! The families of a program's methods: methods tied by overriding have one number.
#![tactic(auto)]

mod families;
mod overridden;

pub use families::{Families, families_of};
