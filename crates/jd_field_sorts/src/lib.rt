//! Laws, without code: the fields of a program that files mean have the sorts of the types that their names have.
#![tactic(auto)]

mod laws;

pub use laws::fields_have_sorts;
