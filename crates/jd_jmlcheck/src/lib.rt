//! The specifications of a program: its JML by methods and classes, or which token of it is refused first.
#![tactic(auto)]

mod check;
mod made;
mod refusal;

pub use check::check_specs;
pub use jd_jml_written::LoopAnn;
pub use made::{MethodSpec, Specs};
pub use refusal::SpecRefusal;
