//! What a task tells of its program's classes, and when that stands for a program. Laws, without code.
#![tactic(auto)]

mod laws;

pub use laws::one_class_has_a_program;
