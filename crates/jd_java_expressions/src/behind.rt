//! Nodes of what stands behind an operand, from what their parts are.

ghost use Rattle.std.specs.Prelude.{◌≡◌, ◌∷◌, List, [], option_map};
ghost use Rattle.jd_syntax.specs.JavaTypes.{identifier_view};
ghost use Rattle.jd_syntax.specs.JavaTrees.{java_view};
ghost use Rattle.jd_java_values.specs.Parts.{arguments_of, expression_of, type_of};
ghost use Rattle.jd_java_values.specs.Values.{Assign, Choice, Count, Element, Infix, InstanceOf, PlainSuffix, Suffixes};
ghost use Rattle.jd_java_values.specs.Views.{Gives, backwards, in_order, suffix_view, value_view};
ghost use Rattle.jd_java_expressions.specs.Applying as plain;

use crate::calls::ordered_arguments;
use crate::chains::{Behind, alone, begins};
use jd_base::NoMemory;
use jd_java_values::{Suffix, Value, expression, typed};
use jd_syntax::{AssignmentOperator, CountOperator, Expr, Identifier, InfixOperator};
use std::alloc::Global;

/// What stands behind an operand.
pub fn suffixes(behind: Behind) -> Result<Value, NoMemory>
    ensures { (ss : List PlainSuffix) → Gives (backwards suffix_view) behind ss → Gives value_view result (Suffixes ss) }
{
    Ok(Value::Suffixes(behind?))
}

/// `+ e`
pub fn infix(op: InfixOperator, parts: (Expr, Behind)) -> Result<Value, NoMemory>
    ensures { (ss : List PlainSuffix) → Gives (backwards suffix_view) parts.1 ss → Gives value_view result (Suffixes (Infix op (java_view parts.0) ∷ ss)) }
{
    let (right, behind) = parts;
    suffixes(begins(Suffix::Infix(op, right), behind))
}

/// `instanceof T`
pub fn instance_of(parts: (Value, Behind)) -> Result<Value, NoMemory>
    ensures { (ss : List PlainSuffix) → Gives (backwards suffix_view) parts.1 ss → Gives value_view result (Suffixes (InstanceOf (type_of (value_view parts.0)) ∷ ss)) }
{
    let (written, behind) = parts;
    suffixes(begins(Suffix::InstanceOf(typed(written)), behind))
}

/// `= e`
pub fn assign(alloc: Global, op: AssignmentOperator, e: Expr) -> Result<Value, NoMemory>
    ensures { Gives value_view result (Suffixes (Assign op (java_view e) ∷ [])) }
{
    suffixes(alone(alloc, Suffix::Assign(op, e)))
}

/// `? e : e`
pub fn choice(alloc: Global, parts: (Expr, Value)) -> Result<Value, NoMemory>
    ensures { Gives value_view result (Suffixes (Choice (java_view parts.0) (expression_of (value_view parts.1)) ∷ [])) }
{
    let (a, b) = parts;
    suffixes(alone(alloc, Suffix::Choice(a, expression(b))))
}

// `.x`, or `.m(e, ..)` where there are arguments.
fn joined(name: Identifier, arguments: Option<Vec<Expr>>) -> Suffix
    ensures { suffix_view result ≡ plain.joined (identifier_view name) (option_map (in_order java_view) arguments) }
{
    match arguments {
        Some(arguments) => Suffix::Method(name, arguments),
        None => Suffix::Member(name),
    }
}

/// `.x`, or `.m(e, ..)`.
pub fn member(parts: (Identifier, Value, Behind)) -> Result<Value, NoMemory>
    ensures { (ss : List PlainSuffix) → Gives (backwards suffix_view) parts.2 ss → Gives value_view result (Suffixes (plain.joined (identifier_view parts.0) (arguments_of (value_view parts.1)) ∷ ss)) }
{
    let (name, call, behind) = parts;
    suffixes(begins(joined(name, ordered_arguments(call)), behind))
}

/// `[e]`
pub fn element(parts: (Expr, Behind)) -> Result<Value, NoMemory>
    ensures { (ss : List PlainSuffix) → Gives (backwards suffix_view) parts.1 ss → Gives value_view result (Suffixes (Element (java_view parts.0) ∷ ss)) }
{
    let (index, behind) = parts;
    suffixes(begins(Suffix::Element(index), behind))
}

/// `++`
pub fn count(alloc: Global, op: CountOperator) -> Result<Value, NoMemory>
    ensures { Gives value_view result (Suffixes (Count op ∷ [])) }
{
    suffixes(alone(alloc, Suffix::Count(op)))
}
