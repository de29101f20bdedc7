//! The members of the classes of Java's files, one by one.
#![tactic(auto)]

mod asking;
mod listing;
mod member;

pub use listing::members_of;
pub use member::{MemberKind, MemberOf};
