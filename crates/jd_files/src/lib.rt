//! The files of a program: their trees and the tables of their classes, or which file is refused and why.
#![tactic(auto)]

mod laws;
mod program;
mod reading;
mod refusal;

pub use laws::one_refusal;
pub use program::classes_of;
pub use refusal::FilesRefusal;
