//! Operands with what stands behind them.

ghost use Rattle.std.specs.Prelude.{◌≡◌, option_map};
ghost use Rattle.jd_syntax.specs.JavaTrees.{JavaExpr, java_view};
ghost use Rattle.jd_java_values.specs.Views.{Gives, backwards, in_order, suffix_view};
ghost use Rattle.jd_java_expressions.specs.Applying as plain;

use crate::forms::{assign, conditional, field, index, infix, instance_of, method_call, postfix};
use jd_base::{NoMemory, both, copy_bytes};
use jd_java_values::Suffix;
use jd_syntax::{Expr, ExprForm};
use std::alloc::Global;

// An operand with one thing behind it.
fn applied(alloc: Global, e: Expr, suffix: Suffix) -> Result<Expr, NoMemory>
    ensures { Gives java_view result (plain.applied (java_view e) (suffix_view suffix)) }
{
    match suffix {
        Suffix::Infix(op, right) => infix(alloc, op, e, right),
        Suffix::InstanceOf(written) => instance_of(alloc, e, written),
        Suffix::Assign(op, value) => assign(alloc, op, e, value),
        Suffix::Choice(a, b) => conditional(alloc, e, a, b),
        Suffix::Member(name) => field(alloc, e, name),
        Suffix::Method(name, arguments) => method_call(alloc, e, name, arguments),
        Suffix::Element(i) => index(alloc, e, i),
        Suffix::Count(op) => postfix(alloc, op, e),
    }
}

// The same of an operand that memory may not have sufficed for.
fn next(alloc: Global, e: Result<Expr, NoMemory>, suffix: Suffix) -> Result<Expr, NoMemory>
    ensures { (x : JavaExpr) → Gives java_view e x → Gives java_view result (plain.applied x (suffix_view suffix)) }
{
    let (e, suffix) = both(e, Ok(suffix))?;
    applied(alloc, e, suffix)
}

/// An operand with all that stands behind it, of which the last part comes first.
pub fn all_applied(
    alloc: Global,
    e: Result<Expr, NoMemory>,
    suffixes: Vec<Suffix>,
) -> Result<Expr, NoMemory>
    ensures { (x : JavaExpr) → Gives java_view e x → Gives java_view result (plain.all_applied x (backwards suffix_view suffixes)) }
{
    let mut e = e;
    let mut suffixes = suffixes;
    while let Some(suffix) = suffixes.pop() {
        e = next(alloc, e, suffix);
    }
    e
}

// A name, or its call where there are arguments.
fn named(at: u32, name: Vec<u8>, arguments: Option<Vec<Expr>>) -> Expr
    ensures { java_view result ≡ plain.named at name.items (option_map (in_order java_view) arguments) }
{
    let form = match arguments {
        Some(arguments) => ExprForm::Call(name, arguments),
        None => ExprForm::Name(name),
    };
    Expr { at, form }
}

/// The same with a copy of the name.
pub fn name_or_call(
    alloc: Global,
    at: u32,
    text: &[u8],
    arguments: Option<Vec<Expr>>,
) -> Result<Expr, NoMemory>
    ensures { Gives java_view result (plain.named at text.now (option_map (in_order java_view) arguments)) }
{
    let (name, arguments) = both(copy_bytes(alloc, text), Ok(arguments))?;
    Ok(named(at, name, arguments))
}

/// A name, or its call where there are arguments, with what stands behind it, of which the last part comes first.
pub fn applied_name(
    alloc: Global,
    at: u32,
    text: &[u8],
    arguments: Option<Vec<Expr>>,
    suffixes: Vec<Suffix>,
) -> Result<Expr, NoMemory>
    ensures { Gives java_view result (plain.all_applied (plain.named at text.now (option_map (in_order java_view) arguments)) (backwards suffix_view suffixes)) }
{
    all_applied(alloc, name_or_call(alloc, at, text, arguments), suffixes)
}
