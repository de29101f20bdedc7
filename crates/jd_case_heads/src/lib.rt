//! What a declaration says of a case, beside its clauses: whose it is, parameters and result, and how it may end.
#![tactic(auto)]

mod heads;
mod parameters;
mod words;

pub use heads::head;
