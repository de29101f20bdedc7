//! The methods and constructors that a body of Java calls.
#![tactic(auto)]

mod called;
mod expressions;
mod statements;

pub use called::Called;
pub use statements::calls_of;
