//! What the parts of a node are, taken out of their places.

ghost use Rattle.std.specs.Prelude.{◌≡◌, ◌++◌, option_map};
ghost use Rattle.jd_syntax.specs.JavaTypes.{identifier_view};
ghost use Rattle.jd_syntax.specs.JavaTrees.{java_view};
ghost use Rattle.jd_java_values.specs.Parts.{arguments_of, expression_of, name_of};
ghost use Rattle.jd_java_values.specs.Views.{Gives, backwards, in_order, parts_view, suffix_view};
ghost use Rattle.jd_java_expressions.specs.Meaning as plain;

use crate::calls::ordered_arguments;
use crate::chains::{Behind, followed};
use jd_base::NoMemory;
use jd_grammar::NodeParts;
use jd_java_values::{Suffix, Value, expression, name, suffixes, taken};
use jd_syntax::{Expr, Identifier};
use std::alloc::Global;

/// The expression that the first part is.
pub fn first_expression(parts: &mut NodeParts<Value>) -> Expr
    ensures { java_view result ≡ expression_of (parts_view parts.old).first }
{
    expression(taken(&mut parts.first))
}

/// The expression that the first part is, and the second part.
pub fn expression_and_second(parts: &mut NodeParts<Value>) -> (Expr, Value)
    ensures first { java_view result.0 ≡ expression_of (parts_view parts.old).first }
    ensures second { result.1 ≡ parts.old.second }
{
    let first = expression(taken(&mut parts.first));
    (first, taken(&mut parts.second))
}

// Three lists of suffixes behind one another.
fn three(a: Vec<Suffix>, b: Vec<Suffix>, c: Vec<Suffix>) -> Behind
    ensures { Gives (backwards suffix_view) result (backwards suffix_view a ++ (backwards suffix_view b ++ backwards suffix_view c)) }
{
    followed(a, followed(b, Ok(c)))
}

/// The first part, and what stands behind it.
pub fn first_and_behind(alloc: Global, parts: &mut NodeParts<Value>) -> (Value, Behind)
    ensures first { result.0 ≡ parts.old.first }
    ensures behind { Gives (backwards suffix_view) result.1 (plain.behind_one (parts_view parts.old)) }
{
    let second = suffixes(alloc, taken(&mut parts.second));
    let third = suffixes(alloc, taken(&mut parts.third));
    let fourth = suffixes(alloc, taken(&mut parts.fourth));
    (taken(&mut parts.first), three(second, third, fourth))
}

/// What stands behind an operand, in all parts.
pub fn all_suffixes(alloc: Global, parts: &mut NodeParts<Value>) -> Behind
    ensures { Gives (backwards suffix_view) result (plain.all_suffixes (parts_view parts.old)) }
{
    let (first, behind) = first_and_behind(alloc, parts);
    followed(suffixes(alloc, first), behind)
}

/// The expression that the first part is, and what stands behind it.
pub fn expression_and_behind(alloc: Global, parts: &mut NodeParts<Value>) -> (Expr, Behind)
    ensures first { java_view result.0 ≡ expression_of (parts_view parts.old).first }
    ensures behind { Gives (backwards suffix_view) result.1 (plain.behind_one (parts_view parts.old)) }
{
    let (first, behind) = first_and_behind(alloc, parts);
    (expression(first), behind)
}

/// The arguments of a call, if the first part is one, and what stands behind it.
pub fn arguments_and_behind(
    alloc: Global,
    parts: &mut NodeParts<Value>,
) -> (Option<Vec<Expr>>, Behind)
    ensures first { option_map (in_order java_view) result.0 ≡ arguments_of (parts_view parts.old).first }
    ensures behind { Gives (backwards suffix_view) result.1 (plain.behind_one (parts_view parts.old)) }
{
    let (first, behind) = first_and_behind(alloc, parts);
    (ordered_arguments(first), behind)
}

/// The name that the first part is, the second part, and what stands behind it.
pub fn name_and_behind(alloc: Global, parts: &mut NodeParts<Value>) -> (Identifier, Value, Behind)
    ensures first { identifier_view result.0 ≡ name_of (parts_view parts.old).first }
    ensures second { result.1 ≡ parts.old.second }
    ensures behind { Gives (backwards suffix_view) result.2 (plain.behind_two (parts_view parts.old)) }
{
    let name = name(alloc, taken(&mut parts.first));
    let third = suffixes(alloc, taken(&mut parts.third));
    let fourth = suffixes(alloc, taken(&mut parts.fourth));
    (name, taken(&mut parts.second), followed(third, Ok(fourth)))
}
