//! What names in the text of terms and code stand for, and what classes, fields and methods are called there, by the classes of
//! a program. Laws alone.
#![tactic(auto)]

mod laws;

pub use laws::names_are_known;
