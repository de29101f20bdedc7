//! Laws, without code: of a static method whose body is straight, parameters and code are known by the words of its variables.
#![tactic(auto)]

mod laws;

pub use laws::{literals_of_code_are_known, straight_bodies_are_known};
