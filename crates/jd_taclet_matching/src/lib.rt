//! What a step of a row finds, is given and assumes, worked out on the task's trees: bindings of parts that are lent.
#![tactic(auto)]

mod answers;
mod assuming;
mod calm;
mod finding;
mod fresh;
mod giving;
mod laws;
mod named;
mod owned;
mod reading;
mod sides;

pub use answers::ended;
pub use assuming::assumed;
pub use finding::{found, match_node};
pub use fresh::are_new;
pub use giving::parts_given;
pub use laws::given_in_two;
pub use owned::{OwnedEntry, OwnedPart, bound_behind};
pub use reading::is_sort;
