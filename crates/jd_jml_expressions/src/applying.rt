//! Operands with what stands behind them.

ghost use Rattle.std.specs.Prelude.{◌≡◌, option_map};
ghost use Rattle.jd_syntax.specs.JavaTypes.{identifier_view};
ghost use Rattle.jd_syntax.specs.SpecTrees.{PlainSpec, spec_view};
ghost use Rattle.jd_jml_values.specs.Views.{Gives, backwards, boxed_view, in_order, start_view, suffix_view};
ghost use Rattle.jd_jml_expressions.specs.Applying as plain;

use jd_base::{NoMemory, both};
use jd_jml_values::{Start, Suffix, boxed};
use jd_syntax::{Identifier, SpecExpr, SpecForm};
use std::alloc::Global;

// The place of its first token.
fn place(e: &SpecExpr) -> u32
    ensures { result ≡ plain.at_of (spec_view e.now) }
{
    e.at
}

// An operand with one thing behind it.
fn applied(e: Box<SpecExpr>, suffix: Suffix) -> SpecExpr
    ensures { spec_view result ≡ plain.applied (boxed_view e) (suffix_view suffix) }
{
    let at = place(&e);
    let form = match suffix {
        Suffix::Infix(op, right) => SpecForm::Infix(op, e, right),
        Suffix::InstanceOf(written) => SpecForm::InstanceOf(e, written),
        Suffix::Choice(a, b) => SpecForm::Conditional(e, a, b),
        Suffix::Implies(right) => SpecForm::Implies(e, right),
        Suffix::Equivalent(right) => SpecForm::Equivalent(e, right),
        Suffix::Member(name) => SpecForm::Field(e, name),
        Suffix::Method(name, arguments) => SpecForm::MethodCall(e, name, arguments),
        Suffix::Element(i) => SpecForm::Index(e, i),
    };
    SpecExpr { at, form }
}

// The same of an operand that memory may not have sufficed for.
fn next(
    alloc: Global,
    e: Result<Box<SpecExpr>, NoMemory>,
    suffix: Suffix,
) -> Result<Box<SpecExpr>, NoMemory>
    ensures { (x : PlainSpec) → Gives boxed_view e x → Gives boxed_view result (plain.applied x (suffix_view suffix)) }
{
    let (e, suffix) = both(e, Ok(suffix))?;
    boxed(alloc, applied(e, suffix))
}

/// An operand with all that stands behind it, of which the last part comes first.
pub fn all_applied(
    alloc: Global,
    e: Result<Box<SpecExpr>, NoMemory>,
    suffixes: Vec<Suffix>,
) -> Result<Box<SpecExpr>, NoMemory>
    ensures { (x : PlainSpec) → Gives boxed_view e x → Gives boxed_view result (plain.all_applied x (backwards suffix_view suffixes)) }
{
    let mut e = e;
    let mut suffixes = suffixes;
    while let Some(suffix) = suffixes.pop() {
        e = next(alloc, e, suffix);
    }
    e
}

// A name, or its call where there are arguments.
fn named_tree(name: Identifier, arguments: Option<Vec<SpecExpr>>) -> SpecExpr
    ensures { spec_view result ≡ plain.named (identifier_view name) (option_map (in_order spec_view) arguments) }
{
    let Identifier { at, name } = name;
    let form = match arguments {
        Some(arguments) => SpecForm::Call(name, arguments),
        None => SpecForm::Name(name),
    };
    SpecExpr { at, form }
}

/// A name, or its call where there are arguments.
pub fn named(
    alloc: Global,
    name: Identifier,
    arguments: Option<Vec<SpecExpr>>,
) -> Result<Box<SpecExpr>, NoMemory>
    ensures { Gives boxed_view result (plain.named (identifier_view name) (option_map (in_order spec_view) arguments)) }
{
    boxed(alloc, named_tree(name, arguments))
}

// An operand whose `(` stands at that place.
fn begun_tree(at: u32, start: Start) -> SpecExpr
    ensures { spec_view result ≡ plain.begun at (start_view start) }
{
    let form = match start {
        Start::Inside(e) => SpecForm::Parenthesized(e),
        Start::Cast(written, e) => SpecForm::Cast(written, e),
        Start::Quantified(q, ty, name, e) => SpecForm::Quantified(q, ty, name, e),
        Start::QuantifiedIn(q, ty, name, range, e) => SpecForm::QuantifiedIn(q, ty, name, range, e),
        Start::Sum(name, from, to, e) => SpecForm::Sum(name, from, to, e),
    };
    SpecExpr { at, form }
}

/// An operand whose `(` stands at that place.
pub fn begun(alloc: Global, at: u32, start: Start) -> Result<Box<SpecExpr>, NoMemory>
    ensures { Gives boxed_view result (plain.begun at (start_view start)) }
{
    boxed(alloc, begun_tree(at, start))
}

/// A member, or a call of a method where there are arguments.
pub fn joined(name: Identifier, arguments: Option<Vec<SpecExpr>>) -> Suffix
    ensures { suffix_view result ≡ plain.joined (identifier_view name) (option_map (in_order spec_view) arguments) }
{
    match arguments {
        Some(arguments) => Suffix::Method(name, arguments),
        None => Suffix::Member(name),
    }
}
