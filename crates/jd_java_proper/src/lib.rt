//! Where a derivation of a file is without fault, casts stand behind names and `static` where it is declared, so that what is read has
//! the texts of its tokens. Laws alone.
#![tactic(auto)]

mod laws;

pub use laws::{faultless_is_proper, read_texts_are_kept};
