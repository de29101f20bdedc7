//! Numbers for the members of Java's classes, the same for those that agree in something.
#![tactic(auto)]

mod agreement;
mod encoding;
mod numbering;
mod numbers;

pub use numbering::{member_names, member_returns, member_signatures};
pub use numbers::Numbers;
