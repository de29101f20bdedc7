//! Laws, without code: clauses of which no token is refused speak of what a contract may name.
#![tactic(auto)]

mod laws;

pub use laws::contracts_speak;
