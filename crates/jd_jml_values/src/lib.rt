//! What the nodes of JML's derivations stand for.
#![tactic(auto)]

mod heads;
mod parts;
mod values;

pub use heads::{identifier_at, int_type, type_at};
pub use jd_lists::{appended, boxed, discard, in_order, with};
pub use parts::{
    arguments, bound_type, clauses, expression, expressions, is_dimension, locations, name, names,
    some_expression, some_name, steps, suffixes, taken, typed,
};
pub use values::{End, Start, Suffix, Value};
