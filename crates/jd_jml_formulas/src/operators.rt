//! Operators, and what formulas have in several places.

ghost use Rattle.std.specs.Prelude.{◌≡◌, Option};
ghost use Rattle.jd_jml_formulas.specs.Meant as plain;
ghost use Rattle.jd_jml_formulas.specs.Meant.{is_true};
ghost use Rattle.jd_jml_formulas.specs.Spellings.{spelling_view, when_view};
ghost use Rattle.jd_jml_known.specs.Members.{over_view};
ghost use Rattle.jd_jml_meaning.specs.Meaning as meaning;
ghost use Rattle.jd_jml_meaning.specs.Resolved as resolved_types;
ghost use Rattle.jd_model.specs.Conjunctions.{created_at};
ghost use Rattle.jd_sized_makers.specs.Made.{IsFormula, IsTerm, bound_by};
ghost use Rattle.jd_term.specs.Formulas.{PlainFormula};
ghost use Rattle.jd_term.specs.Formulas as formulas;
ghost use Rattle.jd_term.specs.Terms.{PlainTerm};
ghost use Rattle.jd_term.specs.Terms as terms;
ghost use Rattle.jd_base.specs.declared.sort.Sort.TheVariants as sorts;
ghost use Rattle.jd_syntax.specs.CodeViews.{kind_view};

use crate::making::{Making, When, heap};
use jd_base::Sort;
use jd_jml_known::{Over, sort_of_type};
use jd_lists::discard;
use jd_naming::Declares;
use jd_sized_makers::{
    Comparison, Connective, MadeFormula, MadeTerm, boolean, bound, bound_variable, compared,
    connected, created_field, in_int, instance, not, null, select, twice, twice_term,
};
use jd_syntax::{InfixOperator, Kind, Quantifier};
use jd_term::ArithmeticOp;
use std::alloc::Global;

/// What stands on both sides of an operator.
#[derive(Clone, Copy, PartialEq, Eq)]
pub enum Operands {
    /// Truth values.
    Truths,
    /// Values that are compared.
    Values,
    /// Numbers that are reckoned with.
    Numbers,
}

/// What stands on both sides of the operator, whose first side is boolean or not.
pub(crate) fn sides_of(operator: InfixOperator, of_boolean: bool) -> Operands
    ensures { result ≡ plain.operands_of operator of_boolean }
{
    match operator {
        InfixOperator::OrElse | InfixOperator::AndAlso => Operands::Truths,
        InfixOperator::Equal | InfixOperator::NotEqual => {
            if of_boolean {
                Operands::Truths
            } else {
                Operands::Values
            }
        }
        InfixOperator::Less
        | InfixOperator::LessOrEqual
        | InfixOperator::Greater
        | InfixOperator::GreaterOrEqual => Operands::Values,
        InfixOperator::Add
        | InfixOperator::Subtract
        | InfixOperator::Multiply
        | InfixOperator::Divide
        | InfixOperator::Remainder => Operands::Numbers,
    }
}

/// The operation on numbers.
pub(crate) fn arithmetic_of(operator: InfixOperator) -> Option<ArithmeticOp>
    ensures { result ≡ plain.arithmetic_by operator }
{
    match operator {
        InfixOperator::Add => Some(ArithmeticOp::Add),
        InfixOperator::Subtract => Some(ArithmeticOp::Subtract),
        InfixOperator::Multiply => Some(ArithmeticOp::Multiply),
        InfixOperator::Divide => Some(ArithmeticOp::Divide),
        InfixOperator::Remainder => Some(ArithmeticOp::Remainder),
        InfixOperator::OrElse
        | InfixOperator::AndAlso
        | InfixOperator::Equal
        | InfixOperator::NotEqual
        | InfixOperator::Less
        | InfixOperator::LessOrEqual
        | InfixOperator::Greater
        | InfixOperator::GreaterOrEqual => None,
    }
}

/// An operator between truth values.
pub(crate) fn of_truths(
    alloc: Global,
    operator: InfixOperator,
    a: MadeFormula,
    b: MadeFormula,
) -> MadeFormula
    ensures { (x y : PlainFormula) → IsFormula a x → IsFormula b y → IsFormula result (plain.of_truths operator x y) }
{
    match operator {
        InfixOperator::OrElse => connected(alloc, Connective::Or, a, b),
        InfixOperator::AndAlso => connected(alloc, Connective::And, a, b),
        InfixOperator::NotEqual => not(alloc, connected(alloc, Connective::Iff, a, b)),
        InfixOperator::Equal
        | InfixOperator::Less
        | InfixOperator::LessOrEqual
        | InfixOperator::Greater
        | InfixOperator::GreaterOrEqual
        | InfixOperator::Add
        | InfixOperator::Subtract
        | InfixOperator::Multiply
        | InfixOperator::Divide
        | InfixOperator::Remainder => connected(alloc, Connective::Iff, a, b),
    }
}

/// An operator between values that are compared.
pub(crate) fn of_values(
    alloc: Global,
    operator: InfixOperator,
    a: MadeTerm,
    b: MadeTerm,
) -> MadeFormula
    ensures { (x y : PlainTerm) → IsTerm a x → IsTerm b y → IsFormula result (plain.of_values operator x y) }
{
    match operator {
        InfixOperator::NotEqual => not(alloc, compared(Comparison::Equal, a, b)),
        InfixOperator::Less => compared(Comparison::Less, a, b),
        InfixOperator::LessOrEqual => compared(Comparison::LessOrEqual, a, b),
        InfixOperator::Greater => compared(Comparison::Less, b, a),
        InfixOperator::GreaterOrEqual => compared(Comparison::LessOrEqual, b, a),
        InfixOperator::Equal
        | InfixOperator::OrElse
        | InfixOperator::AndAlso
        | InfixOperator::Add
        | InfixOperator::Subtract
        | InfixOperator::Multiply
        | InfixOperator::Divide
        | InfixOperator::Remainder => compared(Comparison::Equal, a, b),
    }
}

/// A boolean value as a formula.
pub(crate) fn is_true(a: MadeTerm) -> MadeFormula
    ensures { (x : PlainTerm) → IsTerm a x → IsFormula result (is_true x) }
{
    compared(Comparison::Equal, a, boolean(true))
}

/// That the object is created in the heap.
pub(crate) fn created(alloc: Global, heap: MadeTerm, object: MadeTerm) -> MadeFormula
    ensures { (h o : PlainTerm) → IsTerm heap h → IsTerm object o → IsFormula result (created_at h o) }
{
    is_true(select(alloc, Sort::Bool, heap, object, created_field()))
}

// That the object is not null.
fn is_something(alloc: Global, a: MadeTerm) -> MadeFormula
    ensures { (x : PlainTerm) → IsTerm a x → IsFormula result (formulas.Not (formulas.Equal x terms.NullTerm)) }
{
    not(alloc, compared(Comparison::Equal, a, null()))
}

/// `\fresh`: that the object is not null, and was not created in the earlier heap.
pub(crate) fn fresh(alloc: Global, before: MadeTerm, a: MadeTerm) -> MadeFormula
    ensures { (h x : PlainTerm) → IsTerm before h → IsTerm a x → IsFormula result (plain.fresh h x) }
{
    let (one, other) = twice_term(alloc, a);
    let new = not(alloc, created(alloc, before, one));
    connected(alloc, Connective::And, is_something(alloc, other), new)
}

/// `c ? a : b`, which has the condition twice.
pub(crate) fn choice(
    alloc: Global,
    limit: u32,
    c: MadeFormula,
    a: MadeFormula,
    b: MadeFormula,
) -> MadeFormula
    ensures { (x y z : PlainFormula) → IsFormula c x → IsFormula a y → IsFormula b z → IsFormula result (plain.choice x y z) }
{
    let (one, other) = twice(alloc, limit, c);
    let first = connected(alloc, Connective::Implies, one, a);
    let second = connected(alloc, Connective::Implies, not(alloc, other), b);
    connected(alloc, Connective::And, first, second)
}

/// The range of a quantifier with what holds there.
pub(crate) fn ranged(
    alloc: Global,
    quantifier: Quantifier,
    range: MadeFormula,
    a: MadeFormula,
) -> MadeFormula
    ensures { (x y : PlainFormula) → IsFormula range x → IsFormula a y → IsFormula result (plain.ranged quantifier x y) }
{
    match quantifier {
        Quantifier::ForAll => connected(alloc, Connective::Implies, range, a),
        Quantifier::Exists => connected(alloc, Connective::And, range, a),
    }
}

// That the bound variable is an instance that is created.
fn bound_instance(alloc: Global, heap: MadeTerm, kind: Kind) -> MadeFormula
    ensures { (h : PlainTerm) → IsTerm heap h → IsFormula result (formulas.And (formulas.IsInstance (kind_view kind) (terms.Bound 0 sorts.Ref)) (created_at h (terms.Bound 0 sorts.Ref))) }
{
    let fits = instance(kind, bound_variable(0, Sort::Ref));
    let there = created(alloc, heap, bound_variable(0, Sort::Ref));
    connected(alloc, Connective::And, fits, there)
}

// What the bound variable is given to be.
fn given(
    alloc: Global,
    quantifier: Quantifier,
    over: Over,
    heap: MadeTerm,
    a: MadeFormula,
) -> MadeFormula
    ensures { (h : PlainTerm) (x : PlainFormula) → IsTerm heap h → IsFormula a x → IsFormula result (plain.given quantifier (over_view over) h x) }
{
    match over {
        Over::Int => {
            discard(heap);
            ranged(alloc, quantifier, in_int(bound_variable(0, Sort::Int)), a)
        }
        Over::Bigint => {
            discard(heap);
            a
        }
        Over::Boolean => {
            discard(heap);
            a
        }
        Over::Reference(kind) => { ranged(alloc, quantifier, bound_instance(alloc, heap, kind), a) }
    }
}

/// What holds of all values that are given, or of one.
pub(crate) fn quantified<D: Declares>(
    m: &Making<'_, D>,
    t: When,
    quantifier: Quantifier,
    over: Over,
    a: MadeFormula,
) -> MadeFormula
    ensures { (x : PlainFormula) → IsFormula a x → IsFormula result (bound_by quantifier (resolved_types.sort_of_type (over_view over)) (plain.given quantifier (over_view over) ((spelling_view m.now.spelled.now).heap (when_view t)) x)) }
{
    let whole = given(m.alloc, quantifier, over, heap(m, t), a);
    bound(m.alloc, quantifier, sort_of_type(over), whole)
}

/// `\fresh` of a value, in the heap before the method ran.
pub(crate) fn fresh_now<D: Declares>(m: &Making<'_, D>, a: MadeTerm) -> MadeFormula
    ensures { (x : PlainTerm) → IsTerm a x → IsFormula result (plain.fresh ((spelling_view m.now.spelled.now).heap meaning.Before) x) }
{
    fresh(m.alloc, heap(m, When::Before), a)
}
