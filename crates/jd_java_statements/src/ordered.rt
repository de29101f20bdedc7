//! Lists of values in the order of the text.

ghost use Rattle.std.specs.Prelude.{◌≡◌, option_map};
ghost use Rattle.jd_syntax.specs.JavaTrees.{java_stmt_view, java_view};
ghost use Rattle.jd_java_values.specs.Parts as plain;
ghost use Rattle.jd_java_values.specs.Views.{backwards, in_order, value_view};

use jd_java_values::{Value, expressions, in_order, some_statements, statements};
use jd_syntax::{Expr, Stmt};
use std::alloc::Global;

/// The expressions that it is.
#[tactic(auto, using(jd_lists::proofs::Backwards::turned))]
pub fn ordered_expressions(alloc: Global, value: Value) -> Vec<Expr>
    ensures { in_order java_view result ≡ plain.expressions_of (value_view value) }
{
    in_order(expressions(alloc, value))
}

/// The statements that it is.
#[tactic(auto, using(jd_lists::proofs::Backwards::turned))]
pub fn ordered_statements(alloc: Global, value: Value) -> Vec<Stmt>
    ensures { in_order java_stmt_view result ≡ plain.statements_of (value_view value) }
{
    in_order(statements(alloc, value))
}

#[tactic(auto, using(jd_lists::proofs::Backwards::turned))]
fn turned(statements: Option<Vec<Stmt>>) -> Option<Vec<Stmt>>
    ensures { option_map (in_order java_stmt_view) result ≡ option_map (backwards java_stmt_view) statements }
{
    match statements {
        Some(statements) => Some(in_order(statements)),
        None => None,
    }
}

/// The statements, if it is some.
pub fn some_ordered_statements(value: Value) -> Option<Vec<Stmt>>
    ensures { option_map (in_order java_stmt_view) result ≡ plain.some_statements (value_view value) }
{
    turned(some_statements(value))
}
