//! The types of expressions that are not refused, and what quantifiers range over.

ghost use Rattle.std.specs.Prelude.{◌≡◌};
ghost use Rattle.jd_bodies.specs.Variables as variables;
ghost use Rattle.jd_jml_known.specs.Members.{over_view};
ghost use Rattle.jd_jml_known.specs.Scopes.{visible};
ghost use Rattle.jd_jml_meaning.specs.Resolved as resolved_types;
ghost use Rattle.jd_specifications.specs.Resolution as plain;
ghost use Rattle.jd_syntax.specs.CodeViews.{kind_view};
ghost use Rattle.jd_syntax.specs.SpecTrees.{spec_type_view, spec_view};

use crate::members::field_before;
use crate::names::{Names, typed};
use crate::sight::Sight;
use jd_base::{ClassId, Sort};
use jd_bodies::{ValueType, Variable};
use jd_judging::type_by;
use jd_naming::Declares;
use jd_syntax::{InfixOperator, Kind, SpecExpr, SpecForm, SpecPrefix, SpecType};

/// What a bound variable ranges over.
#[derive(Clone, Copy)]
pub enum Over {
    /// The 32-bit integers.
    Int,
    /// All integers.
    Bigint,
    /// The truth values.
    Boolean,
    /// The created instances.
    Reference(Kind),
}

/// The class of a reference type, or `int[]`.
pub fn kind_of(t: ValueType) -> Kind
    ensures { kind_view result ≡ plain.kind_of t }
{
    match t {
        ValueType::Class(c) => Kind::Class(ClassId(c)),
        ValueType::Int
        | ValueType::Boolean
        | ValueType::Null
        | ValueType::IntArray
        | ValueType::Missing => Kind::IntArray,
    }
}

// What a variable of the type ranges over.
fn values_of(t: ValueType) -> Over
    ensures { over_view result ≡ plain.over t }
{
    match t {
        ValueType::Int => Over::Int,
        ValueType::Boolean => Over::Boolean,
        ValueType::Class(_) | ValueType::Null | ValueType::IntArray | ValueType::Missing => {
            Over::Reference(kind_of(t))
        }
    }
}

/// What a quantifier's variable ranges over.
pub fn over_type<D: Declares>(d: &D, t: &SpecType) -> Over
    ensures { over_view result ≡ plain.over_type (D.declarations d.now) (spec_type_view t.now) }
{
    match t {
        SpecType::BigInt => Over::Bigint,
        SpecType::Java(w) => values_of(type_by(d, &w.written)),
    }
}

/// The type of the values of a quantifier's variable.
pub fn bound_value<D: Declares>(d: &D, t: &SpecType) -> ValueType
    ensures { result ≡ plain.bound_value (D.declarations d.now) (spec_type_view t.now) }
{
    match t {
        SpecType::BigInt => ValueType::Int,
        SpecType::Java(w) => type_by(d, &w.written),
    }
}

/// The sort of the values.
pub fn sort_of_type(t: Over) -> Sort
    ensures { result ≡ resolved_types.sort_of_type (over_view t) }
{
    match t {
        Over::Int | Over::Bigint => Sort::Int,
        Over::Boolean => Sort::Bool,
        Over::Reference(_) => Sort::Ref,
    }
}

/// The sort of values of the type.
pub fn sort_of_value(t: ValueType) -> Sort
    ensures { result ≡ variables.sort_of t }
{
    match t {
        ValueType::Int => Sort::Int,
        ValueType::Boolean => Sort::Bool,
        ValueType::Null | ValueType::IntArray | ValueType::Class(_) | ValueType::Missing => {
            Sort::Ref
        }
    }
}

/// Whether it is the type of truth values.
pub fn is_boolean(t: ValueType) -> bool
    ensures { result ≡ plain.is_boolean t }
{
    match t {
        ValueType::Boolean => true,
        ValueType::Int
        | ValueType::Null
        | ValueType::IntArray
        | ValueType::Class(_)
        | ValueType::Missing => false,
    }
}

// The class before a dot, where what stands there is no variable.
fn class_unless<D: Declares>(
    d: &D,
    known: Option<ValueType>,
    variable: Option<Variable>,
    class: Option<u32>,
) -> Option<u32>
    ensures { result ≡ plain.class_unless (D.declarations d.now) known variable class }
{
    let _declared = d;
    match known {
        Some(_) => None,
        None => match variable {
            Some(_) => None,
            None => class,
        },
    }
}

// The class of a name before a dot.
fn class_named<D: Declares>(w: &Sight<'_, D>, name: &[u8], names: &Names<'_>) -> Option<u32>
    ensures { result ≡ plain.class_unless (D.declarations w.now.declared.now) (plain.typed (visible names.now) name.now) ((D.declarations w.now.declared.now).variable w.now.class name.now) ((D.declarations w.now.declared.now).class_named name.now) }
{
    let known = typed(names, name);
    let variable = w.declared.variable(w.class, name);
    class_unless(w.declared, known, variable, w.declared.class_named(name))
}

/// The class that stands before a dot, where no variable does (JLS 6.5.2).
pub fn class_before<D: Declares>(w: &Sight<'_, D>, e: &SpecExpr, names: &Names<'_>) -> Option<u32>
    ensures { result ≡ plain.class_before (D.declarations w.now.declared.now) w.now.class w.now.result (visible names.now) (spec_view e.now) }
{
    match &e.form {
        SpecForm::Name(name) => class_named(w, name, names),
        SpecForm::Integer(_)
        | SpecForm::Boolean(_)
        | SpecForm::Null
        | SpecForm::This
        | SpecForm::Result
        | SpecForm::Field(_, _)
        | SpecForm::Parenthesized(_)
        | SpecForm::Call(_, _)
        | SpecForm::MethodCall(_, _, _)
        | SpecForm::Index(_, _)
        | SpecForm::Prefix(_, _)
        | SpecForm::Cast(_, _)
        | SpecForm::Infix(_, _, _)
        | SpecForm::InstanceOf(_, _)
        | SpecForm::Conditional(_, _, _)
        | SpecForm::Implies(_, _)
        | SpecForm::Equivalent(_, _)
        | SpecForm::Old(_)
        | SpecForm::Fresh(_)
        | SpecForm::InvariantFor(_)
        | SpecForm::Quantified(_, _, _, _)
        | SpecForm::QuantifiedIn(_, _, _, _, _)
        | SpecForm::Sum(_, _, _, _) => None,
    }
}

// Of a variable of a class.
pub(crate) fn member_type<D: Declares>(d: &D, variable: Option<Variable>) -> ValueType
    ensures { result ≡ plain.member_type (D.declarations d.now) variable }
{
    let _declared = d;
    match variable {
        None => ValueType::Missing,
        Some(Variable::Field(_, t)) => t,
        Some(Variable::Constant(_)) => ValueType::Int,
    }
}

// Of a name.
fn named_type<D: Declares>(w: &Sight<'_, D>, name: &[u8], names: &Names<'_>) -> ValueType
    ensures { result ≡ plain.or_member (D.declarations w.now.declared.now) (plain.typed (visible names.now) name.now) ((D.declarations w.now.declared.now).variable w.now.class name.now) }
{
    match typed(names, name) {
        Some(t) => t,
        None => member_type(w.declared, w.declared.variable(w.class, name)),
    }
}

/// The type of an expression that is not refused (JML Reference Manual, 12; JLS 15).
pub fn static_type<D: Declares>(w: &Sight<'_, D>, e: &SpecExpr, names: &Names<'_>) -> ValueType
    ensures { result ≡ plain.static_type (D.declarations w.now.declared.now) w.now.class w.now.result (visible names.now) (spec_view e.now) }
{
    match &e.form {
        SpecForm::Integer(_) | SpecForm::Index(_, _) | SpecForm::Sum(_, _, _, _) => ValueType::Int,
        SpecForm::Null => ValueType::Null,
        SpecForm::This => ValueType::Class(w.class),
        SpecForm::Result => w.result,
        SpecForm::Name(x) => named_type(w, x, names),
        SpecForm::Field(o, x) => {
            let class = class_before(w, o, names);
            field_before(w, &x.name, class, static_type(w, o, names))
        }
        SpecForm::Parenthesized(o) | SpecForm::Old(o) => static_type(w, o, names),
        SpecForm::Prefix(operator, _) => match *operator {
            SpecPrefix::Plus | SpecPrefix::Minus => ValueType::Int,
            SpecPrefix::Not => ValueType::Boolean,
        },
        SpecForm::Cast(t, _) => type_by(w.declared, &t.written),
        SpecForm::Infix(operator, _, _) => match *operator {
            InfixOperator::Add
            | InfixOperator::Subtract
            | InfixOperator::Multiply
            | InfixOperator::Divide
            | InfixOperator::Remainder => ValueType::Int,
            InfixOperator::OrElse
            | InfixOperator::AndAlso
            | InfixOperator::Equal
            | InfixOperator::NotEqual
            | InfixOperator::Less
            | InfixOperator::LessOrEqual
            | InfixOperator::Greater
            | InfixOperator::GreaterOrEqual => ValueType::Boolean,
        },
        SpecForm::Boolean(_)
        | SpecForm::Call(_, _)
        | SpecForm::MethodCall(_, _, _)
        | SpecForm::InstanceOf(_, _)
        | SpecForm::Conditional(_, _, _)
        | SpecForm::Implies(_, _)
        | SpecForm::Equivalent(_, _)
        | SpecForm::Fresh(_)
        | SpecForm::InvariantFor(_)
        | SpecForm::Quantified(_, _, _, _)
        | SpecForm::QuantifiedIn(_, _, _, _, _) => ValueType::Boolean,
    }
}
