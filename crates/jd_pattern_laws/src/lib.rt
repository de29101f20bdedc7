//! Laws, without code: matching is exact, and bindings fix what a pattern means.
#![tactic(auto)]

mod laws;

pub use laws::{bindings_fix_meaning, matching_binds, matching_decides, matching_is_exact};
