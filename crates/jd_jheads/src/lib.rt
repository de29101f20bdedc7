//! The names of the classes of Java's files, what each extends, and which files no program has for them.
#![tactic(auto)]

mod cycles;
mod heads;
mod names;
mod parents;
mod placed;
mod reading;
mod refusal;

pub use heads::Heads;
pub use reading::read_heads;
pub use refusal::HeadRefusal;
