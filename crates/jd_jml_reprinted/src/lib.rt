//! Printed clauses are read back as the same clauses. Laws alone.
#![tactic(auto)]

mod laws;

pub use laws::printed_is_read;
