//! Members of values and classes, and literals.

ghost use Rattle.std.specs.Prelude.{◌≡◌};
ghost use Rattle.jd_jml_known.specs.Members.{FieldsHaveSorts, HasItsSort, literal_of, own_of, read_of};
ghost use Rattle.jd_jml_known.specs.Scopes.{visible};
ghost use Rattle.jd_jml_meaning.specs.Resolved.{JmlExpr};
ghost use Rattle.jd_model.specs.Programs.{Program};
ghost use Rattle.jd_specifications.specs.Resolution as plain;
ghost use Rattle.jd_syntax.specs.SpecTrees.{spec_view};

use crate::names::{Names, looked_up};
use crate::sight::Sight;
use crate::types::{class_before, member_type, static_type};
use jd_bodies::{ValueType, Variable};
use jd_naming::Declares;
use jd_syntax::{Quantifier, SpecExpr, SpecForm, SpecPrefix};

/// What a name behind a value or a class stands for.
#[derive(Clone, Copy)]
pub enum Member {
    /// A constant, whatever the value is.
    Constant(i128),
    /// The field of this number, of values of the type.
    Field(u32, ValueType),
    /// The length of an array.
    Length,
    /// Nothing.
    Nothing,
}

// What is read of an object of a class with this variable.
fn own_read(variable: Option<Variable>) -> Member
    ensures { result ≡ own_of variable }
{
    match variable {
        None => Member::Nothing,
        Some(Variable::Field(f, t)) => Member::Field(f, t),
        Some(Variable::Constant(n)) => Member::Constant(n),
    }
}

/// What the class sees by the name.
pub fn class_member<D: Declares>(d: &D, class: u32, name: &[u8]) -> Member
    ensures read { (o : JmlExpr) → read_of result o ≡ plain.own_member o ((D.declarations d.now).variable class name.now) }
    ensures sorted { (p : Program) → FieldsHaveSorts (D.declarations d.now) p → HasItsSort p result }
{
    own_read(d.variable(class, name))
}

/// What a name stands for behind a class, or behind a value of the type.
pub fn member_read<D: Declares>(
    w: &Sight<'_, D>,
    name: &[u8],
    class: Option<u32>,
    t: ValueType,
) -> Member
    ensures read { (o : JmlExpr) → read_of result o ≡ plain.field (D.declarations w.now.declared.now) w.now.class w.now.result name.now class t o }
    ensures sorted { (p : Program) → FieldsHaveSorts (D.declarations w.now.declared.now) p → HasItsSort p result }
{
    match class {
        Some(c) => class_member(w.declared, c, name),
        None => match t {
            ValueType::Class(c) => class_member(w.declared, c, name),
            ValueType::Int
            | ValueType::Boolean
            | ValueType::Null
            | ValueType::IntArray
            | ValueType::Missing => Member::Length,
        },
    }
}

// The type of a member of a class or of a value.
pub(crate) fn field_before<D: Declares>(
    w: &Sight<'_, D>,
    name: &[u8],
    class: Option<u32>,
    t: ValueType,
) -> ValueType
    ensures { result ≡ plain.field_before (D.declarations w.now.declared.now) w.now.class w.now.result name.now class t }
{
    match class {
        Some(c) => member_type(w.declared, w.declared.variable(c, name)),
        None => match t {
            ValueType::Class(c) => member_type(w.declared, w.declared.variable(c, name)),
            ValueType::Int
            | ValueType::Boolean
            | ValueType::Null
            | ValueType::IntArray
            | ValueType::Missing => ValueType::Int,
        },
    }
}

// The number, where it is a constant.
fn constant_of(member: Member) -> Option<i128>
    ensures { (o : JmlExpr) → result ≡ literal_of (read_of member o) }
{
    match member {
        Member::Constant(n) => Some(n),
        Member::Field(_, _) | Member::Length | Member::Nothing => None,
    }
}

// The number that a name stands for, where it is a constant's.
fn named_literal<D: Declares>(w: &Sight<'_, D>, name: &[u8], names: &Names<'_>) -> Option<i128>
    ensures { result ≡ literal_of (plain.named (plain.looked_up 0 (visible names.now) name.now) ((D.declarations w.now.declared.now).variable w.now.class name.now)) }
{
    match looked_up(names, 0, name) {
        Some(_) => None,
        None => constant_of(class_member(w.declared, w.class, name)),
    }
}

/// The number, where the expression stands for a literal: it is one, or a constant.
pub fn literal<D: Declares>(w: &Sight<'_, D>, e: &SpecExpr, names: &Names<'_>) -> Option<i128>
    ensures { result ≡ literal_of (plain.resolved (D.declarations w.now.declared.now) w.now.class w.now.result (visible names.now) (spec_view e.now)) }
{
    match &e.form {
        SpecForm::Integer(n) => Some(*n),
        SpecForm::Name(x) => named_literal(w, x, names),
        SpecForm::Field(o, x) => {
            let class = class_before(w, o, names);
            let t = static_type(w, o, names);
            constant_of(member_read(w, &x.name, class, t))
        }
        SpecForm::Prefix(operator, _) => match *operator {
            SpecPrefix::Plus => None,
            SpecPrefix::Minus => None,
            SpecPrefix::Not => None,
        },
        SpecForm::Infix(_, _, _) => None,
        SpecForm::Quantified(q, _, _, _) => match *q {
            Quantifier::ForAll => None,
            Quantifier::Exists => None,
        },
        SpecForm::QuantifiedIn(q, _, _, _, _) => match *q {
            Quantifier::ForAll => None,
            Quantifier::Exists => None,
        },
        SpecForm::Boolean(_)
        | SpecForm::Null
        | SpecForm::This
        | SpecForm::Result
        | SpecForm::Parenthesized(_)
        | SpecForm::Call(_, _)
        | SpecForm::MethodCall(_, _, _)
        | SpecForm::Index(_, _)
        | SpecForm::Cast(_, _)
        | SpecForm::InstanceOf(_, _)
        | SpecForm::Conditional(_, _, _)
        | SpecForm::Implies(_, _)
        | SpecForm::Equivalent(_, _)
        | SpecForm::Old(_)
        | SpecForm::Fresh(_)
        | SpecForm::InvariantFor(_)
        | SpecForm::Sum(_, _, _, _) => None,
    }
}
