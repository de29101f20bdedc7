//! What the nodes of Java's derivations stand for.
#![tactic(auto)]

mod heads;
mod parts;
mod values;

pub use heads::{class_at, identifier_at, int_type, type_at};
pub use jd_lists::{
    all_of, alone, appended, boxed, discard, ended, in_order, last_apart, put_first, with,
};
pub use parts::{
    arguments, body, classes, declared, expression, expressions, handlers, is_dimension, modifiers,
    name, names, number, parameters, some_expression, some_name, some_statement, some_statements,
    statement, statements, suffixes, taken, typed, variables,
};
pub use values::{Declared, Start, Suffix, Value};
