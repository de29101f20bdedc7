//! What is in scope in a body of Java, by hashed names.
#![tactic(auto)]

mod in_body;
mod listed;

pub use in_body::InBody;
pub use listed::{ListsLocals, LocalInScope};
