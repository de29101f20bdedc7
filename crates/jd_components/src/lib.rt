//! The components of nodes that stand each directly below one other, or below none.
#![tactic(auto)]

mod find;
mod laws;
mod numbering;
mod roots;

pub use find::components;
pub use laws::components_are_one;
pub use numbering::Components;
