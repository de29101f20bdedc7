//! Which constructors run for a class, and which methods are members of it, in the order of a program's obligations.
#![tactic(auto)]

mod along;
mod distinct;
mod seen;

pub use along::constructors_run;
pub use seen::methods_seen;
