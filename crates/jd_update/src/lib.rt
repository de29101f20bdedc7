//! The simplification of updates (The KeY Book, 3.4.3).
#![tactic(auto)]

mod binders;
mod pairs;
mod push;
mod replace;

pub use binders::{has_no_binder, pairs_have_no_sum};
pub use push::{apply_update, drop_dead, simplify};
pub use replace::{replace_loc, replace_term};
