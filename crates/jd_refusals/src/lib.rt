//! Why files whose classes stand are no program's: the first refused token of their bodies, or else of their JML. And what a program's are.
#![tactic(auto)]

mod laws;
mod refused;
mod resolving;

pub use laws::one_refusal;
pub use refused::{Refusal, Refused};
pub use resolving::{ResolveRefusal, Resolved, resolve};
