//! Arguments of calls, and what stands behind an operand.

ghost use Rattle.std.specs.Prelude.{◌≡◌, ◌∷◌, [], List, option_map};
ghost use Rattle.jd_syntax.specs.JavaTypes.{identifier_view};
ghost use Rattle.jd_syntax.specs.SpecTrees.{PlainSpec, spec_view};
ghost use Rattle.jd_jml_values.specs.Parts.{arguments_of};
ghost use Rattle.jd_jml_values.specs.Values as values;
ghost use Rattle.jd_jml_values.specs.Values.{PlainSuffix};
ghost use Rattle.jd_jml_values.specs.Views.{Gives, backwards, boxed_view, in_order, parts_view, suffix_view, value_view};
ghost use Rattle.jd_jml_expressions.specs.declared.action.Action.TheVariants as actions;
ghost use Rattle.jd_jml_expressions.specs.Meaning.{meaning};

use crate::applying::joined;
use jd_base::{NoMemory, both};
use jd_grammar::NodeParts;
use jd_jml_values::{
    Suffix, Value, arguments, expression, expressions, in_order, name, suffixes, typed, with,
};
use jd_syntax::{InfixOperator, SpecExpr};
use std::alloc::Global;

/// The arguments of a call from the first on, if it is one.
#[tactic(auto, using(jd_lists::proofs::Backwards::map_reverse))]
pub fn ordered_arguments(value: &mut Value) -> Option<Vec<SpecExpr>>
    ensures { option_map (in_order spec_view) result ≡ arguments_of (value_view value.old) }
{
    match arguments(value) {
        Some(expressions) => Some(in_order(expressions)),
        None => None,
    }
}

// Expressions as what a node stands for.
fn given_expressions(expressions: Result<Vec<SpecExpr>, NoMemory>) -> Result<Value, NoMemory>
    ensures { (x : List PlainSpec) → Gives (backwards spec_view) expressions x → Gives value_view result (values.Expressions x) }
{
    Ok(Value::Expressions(expressions?))
}

/// An expression, and others.
#[tactic(auto, using(jd_lists::proofs::Backwards::last_first))]
pub fn more_expressions(alloc: Global, parts: &mut NodeParts<Value>) -> Result<Value, NoMemory>
    ensures { Gives value_view result (meaning actions.Expressions [] (parts_view parts.old)) }
{
    let e = expression(alloc, &mut parts.first)?;
    let others = expressions(alloc, &mut parts.second);
    given_expressions(with(others, Box::into_inner(e)))
}

// Suffixes as what a node stands for.
fn given(suffixes: Result<Vec<Suffix>, NoMemory>) -> Result<Value, NoMemory>
    ensures { (x : List PlainSuffix) → Gives (backwards suffix_view) suffixes x → Gives value_view result (values.Suffixes x) }
{
    Ok(Value::Suffixes(suffixes?))
}

// A suffix, if it has been made, and others behind it.
#[tactic(auto, using(jd_lists::proofs::Backwards::last_first))]
fn before(suffix: Result<Suffix, NoMemory>, behind: Vec<Suffix>) -> Result<Vec<Suffix>, NoMemory>
    ensures { (x : PlainSuffix) → Gives suffix_view suffix x → Gives (backwards suffix_view) result (x ∷ backwards suffix_view behind) }
{
    let (suffix, behind) = both(suffix, Ok(behind))?;
    with(behind, suffix)
}

// A suffix alone, if it has been made.
fn alone(alloc: Global, suffix: Result<Suffix, NoMemory>) -> Result<Value, NoMemory>
    ensures { (x : PlainSuffix) → Gives suffix_view suffix x → Gives value_view result (values.Suffixes (x ∷ [])) }
{
    given(before(suffix, Vec::new(alloc)))
}

/// `+ e`
pub fn infix(
    alloc: Global,
    op: InfixOperator,
    parts: &mut NodeParts<Value>,
) -> Result<Value, NoMemory>
    ensures { Gives value_view result (meaning (actions.Infix op) [] (parts_view parts.old)) }
{
    let right = expression(alloc, &mut parts.first)?;
    let behind = suffixes(alloc, &mut parts.second);
    given(before(Ok(Suffix::Infix(op, right)), behind))
}

/// `<==> e`
pub fn equivalent(alloc: Global, parts: &mut NodeParts<Value>) -> Result<Value, NoMemory>
    ensures { Gives value_view result (meaning actions.Equivalent [] (parts_view parts.old)) }
{
    let right = expression(alloc, &mut parts.first)?;
    let behind = suffixes(alloc, &mut parts.second);
    given(before(Ok(Suffix::Equivalent(right)), behind))
}

/// `==> e`
pub fn implies(alloc: Global, parts: &mut NodeParts<Value>) -> Result<Value, NoMemory>
    ensures { Gives value_view result (meaning actions.Implies [] (parts_view parts.old)) }
{
    let right = expression(alloc, &mut parts.first)?;
    alone(alloc, Ok(Suffix::Implies(right)))
}

/// `[e]`
pub fn element(alloc: Global, parts: &mut NodeParts<Value>) -> Result<Value, NoMemory>
    ensures { Gives value_view result (meaning actions.Element [] (parts_view parts.old)) }
{
    let index = expression(alloc, &mut parts.first)?;
    let behind = suffixes(alloc, &mut parts.second);
    given(before(Ok(Suffix::Element(index)), behind))
}

/// `instanceof T`
pub fn instance_of(alloc: Global, parts: &mut NodeParts<Value>) -> Result<Value, NoMemory>
    ensures { Gives value_view result (meaning actions.InstanceOf [] (parts_view parts.old)) }
{
    let written = typed(&mut parts.first);
    let behind = suffixes(alloc, &mut parts.second);
    given(before(Ok(Suffix::InstanceOf(written)), behind))
}

// `? a : b`, if both have been made.
fn choice_of(
    a: Result<Box<SpecExpr>, NoMemory>,
    b: Result<Box<SpecExpr>, NoMemory>,
) -> Result<Suffix, NoMemory>
    ensures { (x y : PlainSpec) → Gives boxed_view a x → Gives boxed_view b y → Gives suffix_view result (values.Choice x y) }
{
    let (a, b) = both(a, b)?;
    Ok(Suffix::Choice(a, b))
}

/// `? a : b`
pub fn choice(alloc: Global, parts: &mut NodeParts<Value>) -> Result<Value, NoMemory>
    ensures { Gives value_view result (meaning actions.Choice [] (parts_view parts.old)) }
{
    let a = expression(alloc, &mut parts.first);
    let b = expression(alloc, &mut parts.second);
    alone(alloc, choice_of(a, b))
}

/// `.x` or `.m(e, ..)`
pub fn member(alloc: Global, parts: &mut NodeParts<Value>) -> Result<Value, NoMemory>
    ensures { Gives value_view result (meaning actions.Member [] (parts_view parts.old)) }
{
    let name = name(alloc, &mut parts.first);
    let arguments = ordered_arguments(&mut parts.second);
    let behind = suffixes(alloc, &mut parts.third);
    given(before(Ok(joined(name, arguments)), behind))
}
