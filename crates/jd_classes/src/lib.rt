//! The tables of a program's classes: which files are no program's, and what each class declares and sees.
#![tactic(auto)]

mod build;
mod calls;
mod classes;
mod fields;
mod gather;
mod limits;
mod refusal;
mod standing;

pub use classes::Classes;
pub use jd_jinfos::{ClassInfo, FieldInfo, MethodInfo};
pub use refusal::ClassRefusal;
