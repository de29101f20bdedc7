//! Which token of the bodies of Java's methods is refused first.
#![tactic(auto)]

mod bodies;
mod refused;
mod statements;
mod stop;

pub use refused::judge_members;
pub use stop::Stop;
