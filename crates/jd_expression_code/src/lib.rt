//! The resolved code that expressions of Java stand for.
#![tactic(auto)]

mod assignments;
mod body;
mod creation;
mod expressions;
mod members;
mod operators;
mod types;

pub use assignments::{Assigned, Begun, Reading, read, written};
pub use body::Body;
pub use expressions::{begin, code_of, codes_of};
pub use members::{
    Called, Member, Targeted, field_assigned, member_read, method_called, name_code,
};
pub use operators::{assignment_operation, count_operation};
pub use types::static_type;
