//! That what is printed of clauses is read as these clauses, at each place whose grammar has them.
#![tactic(auto)]

mod laws;

pub use laws::printed_is_read_back;
