//! The resolved code of statements of Java that evaluate an expression, and which jumps leave a statement.
#![tactic(auto)]

mod assigned;
mod effects;
mod jumps;
mod named;

pub use effects::{effect, initial};
pub use jumps::{
    Labels, has_label, leaves_label, leaves_loop, no_labels, repeats_loop, with_label,
};
