//! What conditions of rows look up: what the tables of a task tell of classes, kinds, fields and their types, the invariants of a class at a
//! place, and which formulas leave a term's value as it is.
#![tactic(auto)]

mod classes;
mod fields;
mod invariants;
mod kinds;
mod renamed;
mod steady;
mod types;

pub use classes::is_below;
pub use fields::{are_apart, field_of, is_named_field};
pub use invariants::invariant;
pub use kinds::is_kind;
pub use renamed::copied;
pub use steady::is_steady;
pub use types::{FieldType, declared, field_sort, field_type, referred};
