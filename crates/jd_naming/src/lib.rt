//! What names in bodies of Java stand for: what a program declares, and what is in scope.
#![tactic(auto)]

mod declares;
mod scope;

pub use declares::{Declares, Signature};
pub use scope::{InScope, Mark};
