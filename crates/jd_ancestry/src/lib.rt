//! Nodes of which each stands below one other, or below none, and those above them.
#![tactic(auto)]

mod cycles;
mod forest;
mod numbering;
mod order;
mod walks;

pub use cycles::first_above_itself;
pub use forest::Forest;
pub use numbering::depths;
pub use order::{depths_are_an_order, is_above};
