//! Words that rows print.

use jd_syntax::JavaType;
use std::str;

/// A name, a word or a sign, all of which are ASCII.
pub(crate) fn word(bytes: &[u8]) -> &str {
    str::from_utf8(bytes).unwrap_or("?")
}

pub(crate) fn type_word(ty: &JavaType) -> &str {
    match ty {
        JavaType::Int => "int",
        JavaType::Boolean => "boolean",
        JavaType::IntArray => "int[]",
        JavaType::Named(name) => word(name),
    }
}
