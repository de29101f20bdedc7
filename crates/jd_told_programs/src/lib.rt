//! What a task tells of its program as a setting without bodies. Laws, without code.
#![tactic(auto)]

mod laws;

pub use laws::told_is_that;
