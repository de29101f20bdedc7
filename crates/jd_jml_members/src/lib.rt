//! Which token of the JML of a class is refused first.
#![tactic(auto)]

mod entering;
mod members;
mod statements;
mod stop;

pub use members::judge_members;
pub use stop::Stop;
