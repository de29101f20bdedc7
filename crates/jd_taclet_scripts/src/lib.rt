//! Steps of scripts by taclets: which premises a row of a table gives at a step's place, with what the step gives and assumes, and that
//! they are sound. Definitions and laws, without code.
#![tactic(auto)]

mod laws;

pub use laws::{steps_are_worked, taclet_steps_are_sound, taclet_steps_are_steps};
