//! The bodies of a program's methods: which token of them is refused first, and their resolved code.
#![tactic(auto)]

mod bodies;
mod refused;

pub use bodies::{Bodies, Body, CheckRefusal, check_bodies};
pub use refused::{Refused, first_refused};
