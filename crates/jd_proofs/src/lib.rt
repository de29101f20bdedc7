//! The proofs of a file of scripts, by the obligations that they name.
#![tactic(auto)]

mod laws;
mod named;
mod refusal;

pub use laws::one_outcome;
pub use named::proofs_for;
pub use refusal::ProofsRefusal;
