//! Arguments of calls.

ghost use Rattle.std.specs.Prelude.{◌≡◌, ◌∷◌, List, [], option_map};
ghost use Rattle.jd_syntax.specs.JavaTrees.{JavaExpr, java_view};
ghost use Rattle.jd_java_values.specs.Values.{BehindName, Expressions, PlainSuffix};
ghost use Rattle.jd_java_values.specs.Parts.{arguments_of, expressions_of};
ghost use Rattle.jd_java_values.specs.Views.{Gives, backwards, in_order, suffix_view, value_view};

use crate::chains::Behind;
use jd_base::{NoMemory, both};
use jd_java_values::{Value, arguments, expressions, in_order, with};
use jd_syntax::Expr;
use std::alloc::Global;

/// Expressions from the first on.
#[tactic(auto, using(jd_lists::proofs::Backwards::turned))]
pub fn ordered(expressions: Vec<Expr>) -> Vec<Expr>
    ensures { in_order java_view result ≡ backwards java_view expressions }
{
    in_order(expressions)
}

/// The arguments of a call from the first on, if it is one.
pub fn ordered_arguments(value: Value) -> Option<Vec<Expr>>
    ensures { option_map (in_order java_view) result ≡ arguments_of (value_view value) }
{
    match arguments(value) {
        Some(expressions) => Some(ordered(expressions)),
        None => None,
    }
}

/// No expressions.
pub fn no_expressions(alloc: Global) -> Value
    ensures { value_view result ≡ Expressions [] }
{
    Value::Expressions(Vec::new(alloc))
}

// Expressions as what a node stands for.
fn given(expressions: Result<Vec<Expr>, NoMemory>) -> Result<Value, NoMemory>
    ensures { (x : List JavaExpr) → Gives (backwards java_view) expressions x → Gives value_view result (Expressions x) }
{
    Ok(Value::Expressions(expressions?))
}

// An expression before others.
#[tactic(auto, using(jd_lists::proofs::Backwards::one_more))]
fn before(e: Expr, expressions: Vec<Expr>) -> Result<Vec<Expr>, NoMemory>
    ensures { Gives (backwards java_view) result (java_view e ∷ backwards java_view expressions) }
{
    with(expressions, e)
}

/// An expression, and others.
pub fn more_expressions(alloc: Global, parts: (Expr, Value)) -> Result<Value, NoMemory>
    ensures { Gives value_view result (Expressions (java_view parts.0 ∷ expressions_of (value_view parts.1))) }
{
    let (e, others) = parts;
    given(before(e, expressions(alloc, others)))
}

/// Arguments, if the name before them is called, and what stands behind that.
pub fn behind_name(alloc: Global, parts: (Option<Vec<Expr>>, Behind)) -> Result<Value, NoMemory>
    ensures { (ss : List PlainSuffix) → Gives (backwards suffix_view) parts.1 ss → Gives value_view result (BehindName (option_map (in_order java_view) parts.0) ss []) }
{
    let (arguments, behind) = parts;
    let (arguments, behind) = both(Ok(arguments), behind)?;
    Ok(Value::BehindName(arguments, behind, Vec::new(alloc)))
}
