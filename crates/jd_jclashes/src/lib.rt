//! The members of Java's classes that no program may have, of which the first is found.
#![tactic(auto)]

mod clash;
mod compared;
mod find;
mod items;
mod numbers;
mod reason;
mod repeats;

pub use clash::Clash;
pub use find::first_clash;
pub use numbers::{MemberNumbers, Numbers};
