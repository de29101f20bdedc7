//! What a derivation of JML tells hangs on the kinds of its tokens, its names and its numbers. Laws alone.
#![tactic(auto)]

mod laws;

pub use laws::leaves_tell_all;
