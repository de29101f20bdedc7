//! Nodes of what stands behind `(` and `new` (JLS 15.8.5, 15.9, 15.10, 15.16), from what their parts are.

ghost use Rattle.std.specs.Prelude.{◌≡◌, List, [], map};
ghost use Rattle.jd_java_tokens.specs.Lexemes.{lexeme_view};
ghost use Rattle.jd_syntax.specs.JavaTypes.{identifier_view, written_view};
ghost use Rattle.jd_syntax.specs.JavaTrees.{java_view};
ghost use Rattle.jd_java_values.specs.Values.{Array, Cast, Object, PlainSuffix, Started};
ghost use Rattle.jd_java_values.specs.Parts.{expressions_of};
ghost use Rattle.jd_java_values.specs.Views.{Gives, backwards, start_view, suffix_view, value_view};
ghost use Rattle.jd_java_expressions.specs.Applying as plain;
ghost use Rattle.jd_java_expressions.specs.Meaning as nodes;

use crate::calls::ordered;
use crate::chains::Behind;
use jd_base::{NoMemory, both};
use jd_java_tokens::Lexeme;
use jd_java_values::{Start, Value, discard, expression, expressions, suffixes, type_at};
use jd_syntax::{Expr, ExprForm, Identifier, JavaType, WrittenType};
use std::alloc::Global;

// What begins a node and what stands behind it, as what the node stands for.
fn given(start: Start, behind: Behind) -> Result<Value, NoMemory>
    ensures { (ss : List PlainSuffix) → Gives (backwards suffix_view) behind ss → Gives value_view result (Started (start_view start) ss) }
{
    let (start, behind) = both(Ok(start), behind)?;
    Ok(Value::Started(start, behind))
}

/// A type behind `(`, and what is cast to it.
pub fn cast(alloc: Global, written: WrittenType, e: Expr) -> Value
    ensures { value_view result ≡ Started (Cast (written_view written) (java_view e)) [] }
{
    Value::Started(Start::Cast(written, e), Vec::new(alloc))
}

// The class that a name in parentheses is.
fn class_type(alloc: Global, e: Expr) -> WrittenType
    ensures { written_view result ≡ plain.class_type (java_view e) }
{
    let Expr { at, form } = e;
    match form {
        ExprForm::Name(name) => WrittenType {
            at,
            written: JavaType::Named(name),
        },
        other => {
            discard(other);
            WrittenType {
                at,
                written: JavaType::Named(Vec::new(alloc)),
            }
        }
    }
}

// A class, where an operand stands behind `)`, else an expression in parentheses.
fn parenthesis_of(alloc: Global, e: Expr, behind: Value) -> Value
    ensures { value_view result ≡ nodes.parenthesis (java_view e) (value_view behind) }
{
    match behind {
        Value::Expression(operand) => cast(alloc, class_type(alloc, e), operand),
        other => Value::Started(Start::Inside(e), suffixes(alloc, other)),
    }
}

/// Behind `(`: an expression in parentheses, or a class and what is cast to it.
pub fn parenthesis(alloc: Global, parts: (Expr, Value)) -> Value
    ensures { value_view result ≡ nodes.parenthesis (java_view parts.0) (value_view parts.1) }
{
    let (e, behind) = parts;
    parenthesis_of(alloc, e, behind)
}

/// Behind `(`: `int` or `int[]`, and what is cast to it.
pub fn int_cast(alloc: Global, tokens: &[Lexeme<'_>], part: Value) -> Value
    ensures { value_view result ≡ nodes.int_cast (map lexeme_view tokens.now) (value_view part) }
{
    match part {
        Value::ArrayOperand(e) => cast(alloc, type_at(tokens, JavaType::IntArray), e),
        other => cast(alloc, type_at(tokens, JavaType::Int), expression(other)),
    }
}

/// Behind `new`: an object.
pub fn object(alloc: Global, parts: (Identifier, Value, Behind)) -> Result<Value, NoMemory>
    ensures { (ss : List PlainSuffix) → Gives (backwards suffix_view) parts.2 ss → Gives value_view result (Started (Object (identifier_view parts.0) (expressions_of (value_view parts.1))) ss) }
{
    let (class, call, behind) = parts;
    let arguments = ordered(expressions(alloc, call));
    given(Start::Object(class, arguments), behind)
}

/// Behind `new`: an array.
pub fn array(parts: (Expr, Behind)) -> Result<Value, NoMemory>
    ensures { (ss : List PlainSuffix) → Gives (backwards suffix_view) parts.1 ss → Gives value_view result (Started (Array (java_view parts.0)) ss) }
{
    let (length, behind) = parts;
    given(Start::Array(length), behind)
}
