//! What holds of types and names in JML, whatever the program declares.

ghost use Rattle.std.specs.Prelude.{◌≡◌, not};
ghost use Rattle.jd_bodies.specs.declared.value.ValueType.TheVariants as types;
ghost use Rattle.jd_jml_judging.specs.Named.{call_by, class_by, method_call_by, name_by};
ghost use Rattle.jd_specifications.specs.Clauses as plain_clauses;
ghost use Rattle.jd_specifications.specs.Scopes.{and_then, only_if};
ghost use Rattle.jd_specifications.specs.Types as plain;
ghost use Rattle.jd_specifications.specs.declared.fault.SpecCause.TheVariants.{OldHere, UnknownName};

use crate::method_names::Known;
use jd_bodies::{ValueType, Variable};
use jd_naming::Declares;
use jd_specifications::{SpecCause, SpecFault};
use jd_syntax::SpecPrefix;

/// The token is refused.
pub(crate) fn fault(at: u32, cause: SpecCause) -> SpecFault
    ensures { result ≡ record { at = at; cause = cause } }
{
    SpecFault { at, cause }
}

/// A value of the type, where it may stand.
pub(crate) fn given_if(
    holds: bool,
    at: u32,
    cause: SpecCause,
    value: ValueType,
) -> Result<ValueType, SpecFault>
    ensures { result ≡ only_if holds at cause value }
{
    if holds {
        Ok(value)
    } else {
        Err(fault(at, cause))
    }
}

/// `this`
pub(crate) fn this_gives(is_static: bool, at: u32, class: u32) -> Result<ValueType, SpecFault>
    ensures { result ≡ only_if (not is_static) at UnknownName (types.Class class) }
{
    if is_static {
        Err(fault(at, SpecCause::UnknownName))
    } else {
        Ok(ValueType::Class(class))
    }
}

/// `\result`
pub(crate) fn result_gives(at: u32, value: Option<ValueType>) -> Result<ValueType, SpecFault>
    ensures { result ≡ plain.result_type at value }
{
    match value {
        None => Err(fault(at, SpecCause::ResultHere)),
        Some(t) => Ok(t),
    }
}

// A field of `this`, or a constant.
fn own_gives(is_static: bool, at: u32, variable: Option<Variable>) -> Result<ValueType, SpecFault>
    ensures { result ≡ plain.own_variable is_static at variable }
{
    match variable {
        None => Err(fault(at, SpecCause::UnknownName)),
        Some(Variable::Field(_, t)) => {
            if is_static {
                Err(fault(at, SpecCause::UnknownName))
            } else {
                Ok(t)
            }
        }
        Some(Variable::Constant(_)) => Ok(ValueType::Int),
    }
}

/// A name, where it is known or what the class has by it.
pub(crate) fn name_gives(
    inside: bool,
    is_static: bool,
    at: u32,
    known: Option<Known>,
    variable: Option<Variable>,
) -> Result<ValueType, SpecFault>
    ensures { result ≡ name_by inside is_static at known variable }
{
    match known {
        None => own_gives(is_static, at, variable),
        Some(k) => {
            if inside && k.is_local {
                Err(fault(at, SpecCause::OldHere))
            } else {
                Ok(k.value)
            }
        }
    }
}

/// The class that a name before a dot stands for, where it is no variable's.
pub(crate) fn class_unless(
    known: Option<Known>,
    variable: Option<Variable>,
    class: Option<u32>,
) -> Option<u32>
    ensures { result ≡ class_by known variable class }
{
    match known {
        Some(_) => None,
        None => match variable {
            Some(_) => None,
            None => class,
        },
    }
}

/// A name behind that of a class.
pub(crate) fn constant_gives(at: u32, variable: Option<Variable>) -> Result<ValueType, SpecFault>
    ensures { result ≡ plain.constant_type at variable }
{
    match variable {
        None => Err(fault(at, SpecCause::UnknownName)),
        Some(Variable::Field(_, _)) => Err(fault(at, SpecCause::UnknownName)),
        Some(Variable::Constant(_)) => Ok(ValueType::Int),
    }
}

/// A name behind an object.
pub(crate) fn variable_gives(at: u32, variable: Option<Variable>) -> Result<ValueType, SpecFault>
    ensures { result ≡ plain.variable_type at variable }
{
    match variable {
        None => Err(fault(at, SpecCause::UnknownName)),
        Some(Variable::Field(_, t)) => Ok(t),
        Some(Variable::Constant(_)) => Ok(ValueType::Int),
    }
}

/// The type of a sign's operand.
pub(crate) fn sign_type(operator: SpecPrefix) -> ValueType
    ensures { result ≡ plain.sign_type operator }
{
    match operator {
        SpecPrefix::Not => ValueType::Boolean,
        SpecPrefix::Plus | SpecPrefix::Minus => ValueType::Int,
    }
}

/// What `c ? a : b` gives, where its branches are of this type.
pub(crate) fn choice_of<D: Declares>(
    d: &D,
    at: u32,
    joined: Option<ValueType>,
) -> Result<ValueType, SpecFault>
    ensures { result ≡ plain.choice_of (D.declarations d.now) at joined }
{
    let _declared = d;
    match joined {
        None => Err(fault(at, SpecCause::TypeMismatch)),
        Some(ValueType::Boolean) => Ok(ValueType::Boolean),
        Some(_) => Err(fault(at, SpecCause::BadClause)),
    }
}

/// `\old(..)` of what is given.
pub(crate) fn old_gives(
    allowed: bool,
    at: u32,
    e: Result<ValueType, SpecFault>,
) -> Result<ValueType, SpecFault>
    ensures { result ≡ and_then (only_if allowed at OldHere) e }
{
    given_if(allowed, at, SpecCause::OldHere, e?)
}

/// A call of the name, behind its parts.
pub(crate) fn call_gives(
    at: u32,
    parts: Result<ValueType, SpecFault>,
) -> Result<ValueType, SpecFault>
    ensures { result ≡ call_by at parts }
{
    let _parts = parts?;
    Err(fault(at, SpecCause::CallInSpec))
}

/// A call of the name behind what stands before the dot.
pub(crate) fn method_call_gives<D: Declares>(
    d: &D,
    at: u32,
    class: Option<u32>,
    value: Result<ValueType, SpecFault>,
    arguments: Result<ValueType, SpecFault>,
) -> Result<ValueType, SpecFault>
    ensures { result ≡ method_call_by (D.declarations d.now) at class value arguments }
{
    let _declared = d;
    match class {
        Some(_) => call_gives(at, arguments),
        None => {
            let _receiver = value?;
            call_gives(at, arguments)
        }
    }
}

/// A field of `this` as a location.
pub(crate) fn own_location(
    is_static: bool,
    at: u32,
    variable: Option<Variable>,
) -> Result<ValueType, SpecFault>
    ensures { result ≡ plain_clauses.own_field is_static at variable }
{
    match variable {
        Some(Variable::Field(_, t)) => {
            if is_static {
                Err(fault(at, SpecCause::UnknownName))
            } else {
                Ok(t)
            }
        }
        Some(Variable::Constant(_)) => Err(fault(at, SpecCause::UnknownName)),
        None => Err(fault(at, SpecCause::UnknownName)),
    }
}

/// A field of an object as a location.
pub(crate) fn field_location(at: u32, variable: Option<Variable>) -> Result<ValueType, SpecFault>
    ensures { result ≡ plain_clauses.field_location at variable }
{
    match variable {
        Some(Variable::Field(_, t)) => Ok(t),
        Some(Variable::Constant(_)) => Err(fault(at, SpecCause::UnknownName)),
        None => Err(fault(at, SpecCause::UnknownName)),
    }
}
