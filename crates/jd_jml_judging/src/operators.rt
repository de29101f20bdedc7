//! What operators, members and words of JML give, by what the program declares.

ghost use Rattle.std.specs.Prelude.{◌≡◌, map};
ghost use Rattle.jd_bodies.specs.Expressions as java;
ghost use Rattle.jd_jml_judging.specs.Named.{range_by};
ghost use Rattle.jd_specifications.specs.Clauses as plain_clauses;
ghost use Rattle.jd_specifications.specs.Scopes.{and_then};
ghost use Rattle.jd_specifications.specs.Types as plain;
ghost use Rattle.jd_syntax.specs.JavaTypes.{identifier_view, written_view};
ghost use Rattle.jd_syntax.specs.SpecTrees.{spec_type_view};

use crate::rules::{
    choice_of, constant_gives, fault, field_location, given_if, sign_type, variable_gives,
};
use jd_bodies::ValueType;
use jd_judging::{are_related, fits, is_reference, joined, part_type, type_by, whole_type};
use jd_naming::Declares;
use jd_specifications::{SpecCause, SpecFault};
use jd_syntax::{Identifier, InfixOperator, SpecPrefix, SpecType, WrittenType};

// ---- types

/// The type that is written, which some file declares.
pub(crate) fn written_type<D: Declares>(d: &D, w: &WrittenType) -> Result<ValueType, SpecFault>
    ensures { result ≡ plain.written_type (D.declarations d.now) (written_view w.now) }
{
    match type_by(d, &w.written) {
        ValueType::Missing => Err(fault(w.at, SpecCause::UnknownName)),
        t => Ok(t),
    }
}

/// The type of what a quantifier binds.
pub(crate) fn bound_type<D: Declares>(d: &D, t: &SpecType) -> Result<ValueType, SpecFault>
    ensures { result ≡ plain.bound_type (D.declarations d.now) (spec_type_view t.now) }
{
    match t {
        SpecType::BigInt => Ok(ValueType::Int),
        SpecType::Java(w) => written_type(d, w),
    }
}

/// The class that is written.
pub(crate) fn written_class<D: Declares>(d: &D, x: &Identifier) -> Result<u32, SpecFault>
    ensures { result ≡ plain.written_class (D.declarations d.now) (identifier_view x.now) }
{
    match d.class_named(&x.name) {
        None => Err(fault(x.at, SpecCause::UnknownName)),
        Some(c) => Ok(c),
    }
}

// ---- parts

/// A part of this type stands where one of that is wanted.
pub(crate) fn wanted<D: Declares>(
    d: &D,
    want: ValueType,
    at: u32,
    have: ValueType,
) -> Result<ValueType, SpecFault>
    ensures { result ≡ plain.wanted (D.declarations d.now) want at have }
{
    given_if(fits(d, have, want), at, SpecCause::TypeMismatch, want)
}

/// A part that is a reference.
pub(crate) fn reference<D: Declares>(
    d: &D,
    e: (u32, Result<ValueType, SpecFault>),
) -> Result<ValueType, SpecFault>
    ensures { result ≡ and_then (plain.reference (D.declarations d.now) e.0) e.1 }
{
    let _declared = d;
    let t = e.1?;
    given_if(is_reference(t), e.0, SpecCause::TypeMismatch, t)
}

// Whether it is an array.
fn is_array(t: ValueType) -> bool
    ensures { result ≡ java.is_array t }
{
    match t {
        ValueType::IntArray | ValueType::Missing => true,
        ValueType::Int | ValueType::Boolean | ValueType::Null | ValueType::Class(_) => false,
    }
}

/// A part that is an array.
pub(crate) fn array<D: Declares>(
    d: &D,
    e: (u32, Result<ValueType, SpecFault>),
) -> Result<ValueType, SpecFault>
    ensures { result ≡ and_then (plain.array (D.declarations d.now) e.0) e.1 }
{
    let _declared = d;
    let t = e.1?;
    given_if(is_array(t), e.0, SpecCause::TypeMismatch, t)
}

/// A part of the type.
pub(crate) fn one<D: Declares>(
    d: &D,
    want: ValueType,
    e: (u32, Result<ValueType, SpecFault>),
) -> Result<ValueType, SpecFault>
    ensures { result ≡ plain.one (D.declarations d.now) want e.0 e.1 }
{
    wanted(d, want, e.0, e.1?)
}

/// Two parts of one type, and the whole of another.
pub(crate) fn two<D: Declares>(
    d: &D,
    want: ValueType,
    whole: ValueType,
    a: (u32, Result<ValueType, SpecFault>),
    b: (u32, Result<ValueType, SpecFault>),
) -> Result<ValueType, SpecFault>
    ensures { result ≡ plain.two (D.declarations d.now) want whole a.0 a.1 b.0 b.1 }
{
    let t = a.1?;
    let u = b.1?;
    let _first = wanted(d, want, a.0, t)?;
    let _second = wanted(d, want, b.0, u)?;
    Ok(whole)
}

// ---- operators

// Types that are related.
fn related<D: Declares>(
    d: &D,
    at: u32,
    a: ValueType,
    b: ValueType,
    whole: ValueType,
) -> Result<ValueType, SpecFault>
    ensures { result ≡ plain.related (D.declarations d.now) at a b whole }
{
    given_if(are_related(d, a, b), at, SpecCause::TypeMismatch, whole)
}

/// An operator before its operand.
pub(crate) fn prefix_gives<D: Declares>(
    d: &D,
    operator: SpecPrefix,
    e: (u32, Result<ValueType, SpecFault>),
) -> Result<ValueType, SpecFault>
    ensures { result ≡ plain.one (D.declarations d.now) (plain.sign_type operator) e.0 e.1 }
{
    one(d, sign_type(operator), e)
}

/// An operator between two parts.
pub(crate) fn infix_gives<D: Declares>(
    d: &D,
    at: u32,
    operator: InfixOperator,
    a: (u32, Result<ValueType, SpecFault>),
    b: (u32, Result<ValueType, SpecFault>),
) -> Result<ValueType, SpecFault>
    ensures { result ≡ plain.operation (D.declarations d.now) (java.part_type operator) (java.whole_type operator) at a.0 a.1 b.0 b.1 }
{
    let whole = whole_type(operator);
    match part_type(operator) {
        Some(want) => two(d, want, whole, a, b),
        None => {
            let t = a.1?;
            let u = b.1?;
            related(d, at, t, u, whole)
        }
    }
}

/// `c ? a : b`
pub(crate) fn choice_gives<D: Declares>(
    d: &D,
    at: u32,
    condition: (u32, Result<ValueType, SpecFault>),
    a: Result<ValueType, SpecFault>,
    b: Result<ValueType, SpecFault>,
) -> Result<ValueType, SpecFault>
    ensures { result ≡ plain.choice (D.declarations d.now) at condition.0 condition.1 a b }
{
    let t = condition.1?;
    let u = a?;
    let v = b?;
    let _condition = wanted(d, ValueType::Boolean, condition.0, t)?;
    choice_of(d, at, joined(d, u, v))
}

/// A cast.
pub(crate) fn cast_gives<D: Declares>(
    d: &D,
    at: u32,
    want: Result<ValueType, SpecFault>,
    e: Result<ValueType, SpecFault>,
) -> Result<ValueType, SpecFault>
    ensures { result ≡ plain.cast (D.declarations d.now) at want e }
{
    let t = want?;
    let u = e?;
    related(d, at, t, u, t)
}

/// A test of the class.
pub(crate) fn instance_gives<D: Declares>(
    d: &D,
    at: u32,
    e: Result<ValueType, SpecFault>,
    want: Result<ValueType, SpecFault>,
) -> Result<ValueType, SpecFault>
    ensures { result ≡ plain.instance (D.declarations d.now) at e want }
{
    let t = e?;
    let u = want?;
    related(d, at, t, u, ValueType::Boolean)
}

/// An element of an array.
pub(crate) fn element_gives<D: Declares>(
    d: &D,
    a: (u32, Result<ValueType, SpecFault>),
    i: (u32, Result<ValueType, SpecFault>),
) -> Result<ValueType, SpecFault>
    ensures { result ≡ plain.element (D.declarations d.now) a.0 a.1 i.0 i.1 }
{
    let t = a.1?;
    let u = i.1?;
    let _array = given_if(is_array(t), a.0, SpecCause::TypeMismatch, t)?;
    let _index = wanted(d, ValueType::Int, i.0, u)?;
    Ok(ValueType::Int)
}

/// A word before a reference, which may stand here or not.
pub(crate) fn of_reference<D: Declares>(
    d: &D,
    allowed: bool,
    at: u32,
    cause: SpecCause,
    e: (u32, Result<ValueType, SpecFault>),
) -> Result<ValueType, SpecFault>
    ensures { result ≡ plain.of_reference (D.declarations d.now) allowed at cause e.0 e.1 }
{
    let t = e.1?;
    let _allowed = given_if(allowed, at, cause, t)?;
    let _reference = given_if(is_reference(t), e.0, SpecCause::TypeMismatch, t)?;
    Ok(ValueType::Boolean)
}

/// A sum, of its bounds and what is summed.
pub(crate) fn sum_gives<D: Declares>(
    d: &D,
    a: (u32, Result<ValueType, SpecFault>),
    b: (u32, Result<ValueType, SpecFault>),
    e: (u32, Result<ValueType, SpecFault>),
) -> Result<ValueType, SpecFault>
    ensures { result ≡ plain.summed (D.declarations d.now) a.0 a.1 b.0 b.1 e.0 e.1 }
{
    let t = a.1?;
    let u = b.1?;
    let v = e.1?;
    let _first = wanted(d, ValueType::Int, a.0, t)?;
    let _second = wanted(d, ValueType::Int, b.0, u)?;
    wanted(d, ValueType::Int, e.0, v)
}

/// A range of an array, of its bounds.
pub(crate) fn range_gives<D: Declares>(
    d: &D,
    a: (u32, Result<ValueType, SpecFault>),
    i: (u32, Result<ValueType, SpecFault>),
    j: (u32, Result<ValueType, SpecFault>),
) -> Result<ValueType, SpecFault>
    ensures { result ≡ range_by (D.declarations d.now) a.0 a.1 i.0 i.1 j.0 j.1 }
{
    let t = a.1?;
    let u = i.1?;
    let v = j.1?;
    let _array = given_if(is_array(t), a.0, SpecCause::TypeMismatch, t)?;
    let _first = wanted(d, ValueType::Int, i.0, u)?;
    wanted(d, ValueType::Int, j.0, v)
}

// ---- members

// Of a value.
fn member_gives<D: Declares>(d: &D, x: &Identifier, t: ValueType) -> Result<ValueType, SpecFault>
    ensures { result ≡ plain.member_type (D.declarations d.now) (identifier_view x.now) t }
{
    match t {
        ValueType::Class(c) => variable_gives(x.at, d.variable(c, &x.name)),
        ValueType::IntArray => given_if(
            x.name.as_slice() == b"length".as_slice(),
            x.at,
            SpecCause::UnknownName,
            ValueType::Int,
        ),
        ValueType::Int | ValueType::Boolean | ValueType::Null | ValueType::Missing => {
            Err(fault(x.at, SpecCause::UnknownName))
        }
    }
}

/// Of the class that stands before the dot, or of a value.
pub(crate) fn field_gives<D: Declares>(
    d: &D,
    x: &Identifier,
    class: Option<u32>,
    e: Result<ValueType, SpecFault>,
) -> Result<ValueType, SpecFault>
    ensures { result ≡ plain.field_type (D.declarations d.now) (identifier_view x.now) class e }
{
    match class {
        Some(c) => constant_gives(x.at, d.variable(c, &x.name)),
        None => member_gives(d, x, e?),
    }
}

// A field of a value as a location.
fn member_location<D: Declares>(d: &D, x: &Identifier, t: ValueType) -> Result<ValueType, SpecFault>
    ensures { result ≡ plain_clauses.member_location (D.declarations d.now) (identifier_view x.now) t }
{
    match t {
        ValueType::Class(c) => field_location(x.at, d.variable(c, &x.name)),
        ValueType::Int
        | ValueType::Boolean
        | ValueType::Null
        | ValueType::IntArray
        | ValueType::Missing => Err(fault(x.at, SpecCause::UnknownName)),
    }
}

/// A field as a location: a class has none of its own.
pub(crate) fn location_before<D: Declares>(
    d: &D,
    x: &Identifier,
    class: Option<u32>,
    e: Result<ValueType, SpecFault>,
) -> Result<ValueType, SpecFault>
    ensures { result ≡ plain_clauses.location_before (D.declarations d.now) (identifier_view x.now) class e }
{
    match class {
        Some(_) => Err(fault(x.at, SpecCause::UnknownName)),
        None => member_location(d, x, e?),
    }
}

/// Throwable or a class below it.
pub(crate) fn exception<D: Declares>(d: &D, c: &Identifier) -> Result<ValueType, SpecFault>
    ensures { result ≡ plain_clauses.exception (D.declarations d.now) (identifier_view c.now) }
{
    let k = written_class(d, c)?;
    let _throwable = wanted(d, ValueType::Class(1), c.at, ValueType::Class(k))?;
    Ok(ValueType::Class(k))
}

/// Each is one.
pub(crate) fn exceptions<D: Declares>(d: &D, classes: &[Identifier]) -> Result<ValueType, SpecFault>
    ensures { result ≡ plain_clauses.exceptions (D.declarations d.now) (map identifier_view classes.now) }
{
    for c in classes {
        let _exception = exception(d, c)?;
    }
    Ok(ValueType::Null)
}
