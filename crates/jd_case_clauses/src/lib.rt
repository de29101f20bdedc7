//! The clauses of a case as formulas.
#![tactic(auto)]

mod framing;
mod names;
mod said;
mod spelling;
mod throwing;
mod whole;

pub use framing::measure;
pub use names::method_names;
pub use said::{Kind, formulas};
pub use spelling::spelled;
pub use throwing::{signals, signals_only};
pub use whole::clauses;
