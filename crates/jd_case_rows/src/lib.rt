//! Laws, without code: the row of each case of a contract, as a list of members, says what the case asks.
#![tactic(auto)]

mod laws;

pub use laws::rows_stand;
