//! The JML that is written at a declaration: the cases of a method, the clauses of the loops in its body, the invariants of a class.
#![tactic(auto)]

mod cases;
mod invariants;
mod loops;
mod marks;
mod said;

pub use cases::own_cases;
pub use invariants::class_invariants;
pub use loops::{LoopAnn, body_loops};
