//! What a part of a node is; something else where it is none of the kind that the node has there. Each takes the part out of its place.

ghost use Rattle.std.specs.Prelude.{◌≡◌, option_map};
ghost use Rattle.jd_syntax.specs.JavaTypes.{identifier_view, written_view};
ghost use Rattle.jd_syntax.specs.SpecTrees.{Null, clause_view, location_view, spec_type_view, spec_view};
ghost use Rattle.jd_jml_values.specs.Parts as plain;
ghost use Rattle.jd_jml_values.specs.Views.{Gives, backwards, boxed_view, end_view, suffix_view, value_view};

use crate::values::{End, Suffix, Value};
use jd_base::NoMemory;
use jd_lists::{boxed, discard};
use jd_syntax::{
    Identifier, JavaType, LocExpr, SpecClause, SpecExpr, SpecForm, SpecType, WrittenType,
};
use std::alloc::Global;
use std::mem;

/// The value, in whose place nothing is left.
pub fn taken(value: &mut Value) -> Value
    ensures { result ≡ value.old }
{
    mem::replace(value, Value::Nothing)
}

// `null` where no expression stands.
fn no_expression(alloc: Global) -> Result<Box<SpecExpr>, NoMemory>
    ensures { Gives boxed_view result (Null 0) }
{
    boxed(
        alloc,
        SpecExpr {
            at: 0,
            form: SpecForm::Null,
        },
    )
}

/// The expression that it is.
pub fn expression(alloc: Global, value: &mut Value) -> Result<Box<SpecExpr>, NoMemory>
    ensures { Gives boxed_view result (plain.expression_of (value_view value.old)) }
{
    match taken(value) {
        Value::Expression(e) => Ok(e),
        other => {
            discard(other);
            no_expression(alloc)
        }
    }
}

/// The expression, if it is one.
pub fn some_expression(value: &mut Value) -> Option<Box<SpecExpr>>
    ensures { option_map boxed_view result ≡ plain.some_expression (value_view value.old) }
{
    match taken(value) {
        Value::Expression(e) => Some(e),
        other => {
            discard(other);
            None
        }
    }
}

/// What stands behind an operand, the last part first.
pub fn suffixes(alloc: Global, value: &mut Value) -> Vec<Suffix>
    ensures { backwards suffix_view result ≡ plain.suffixes_of (value_view value.old) }
{
    match taken(value) {
        Value::Suffixes(suffixes) => suffixes,
        other => {
            discard(other);
            Vec::new(alloc)
        }
    }
}

/// The expressions, the last first.
pub fn expressions(alloc: Global, value: &mut Value) -> Vec<SpecExpr>
    ensures { backwards spec_view result ≡ plain.expressions_of (value_view value.old) }
{
    match taken(value) {
        Value::Expressions(es) => es,
        other => {
            discard(other);
            Vec::new(alloc)
        }
    }
}

/// The arguments of a call, the last first, if it is one.
pub fn arguments(value: &mut Value) -> Option<Vec<SpecExpr>>
    ensures { option_map (backwards spec_view) result ≡ plain.arguments_of (value_view value.old) }
{
    match taken(value) {
        Value::Expressions(es) => Some(es),
        other => {
            discard(other);
            None
        }
    }
}

/// The name that it is.
pub fn name(alloc: Global, value: &mut Value) -> Identifier
    ensures { identifier_view result ≡ plain.name_of (value_view value.old) }
{
    match taken(value) {
        Value::Named(name) => name,
        other => {
            discard(other);
            Identifier {
                at: 0,
                name: Vec::new(alloc),
            }
        }
    }
}

/// The name, if it is one.
pub fn some_name(value: &mut Value) -> Option<Identifier>
    ensures { option_map identifier_view result ≡ plain.some_name (value_view value.old) }
{
    match taken(value) {
        Value::Named(name) => Some(name),
        other => {
            discard(other);
            None
        }
    }
}

/// The type that it is.
pub fn typed(value: &mut Value) -> WrittenType
    ensures { written_view result ≡ plain.type_of (value_view value.old) }
{
    match taken(value) {
        Value::Typed(written) => written,
        other => {
            discard(other);
            WrittenType {
                at: 0,
                written: JavaType::Int,
            }
        }
    }
}

/// The type of a bound variable.
pub fn bound_type(value: &mut Value) -> SpecType
    ensures { spec_type_view result ≡ plain.bound_type_of (value_view value.old) }
{
    match taken(value) {
        Value::Typed(written) => SpecType::Java(written),
        other => {
            discard(other);
            SpecType::BigInt
        }
    }
}

/// Whether it is `[]`.
pub fn is_dimension(value: &mut Value) -> bool
    ensures { result ≡ plain.is_dimension (value_view value.old) }
{
    match taken(value) {
        Value::Dimension => true,
        other => {
            discard(other);
            false
        }
    }
}

/// What stands behind the operand of a location, the last part first, and the last one apart.
pub fn steps(alloc: Global, value: &mut Value) -> (Vec<Suffix>, End)
    ensures steps { backwards suffix_view result.0 ≡ plain.steps_of (value_view value.old) }
    ensures end { end_view result.1 ≡ plain.end_of (value_view value.old) }
{
    match taken(value) {
        Value::Steps(steps, end) => (steps, end),
        other => {
            discard(other);
            (Vec::new(alloc), End::AllFields)
        }
    }
}

/// The locations, the last first.
pub fn locations(alloc: Global, value: &mut Value) -> Vec<LocExpr>
    ensures { backwards location_view result ≡ plain.locations_of (value_view value.old) }
{
    match taken(value) {
        Value::Locations(locations) => locations,
        other => {
            discard(other);
            Vec::new(alloc)
        }
    }
}

/// The clauses and words, the last first.
pub fn clauses(alloc: Global, value: &mut Value) -> Vec<SpecClause>
    ensures { backwards clause_view result ≡ plain.clauses_of (value_view value.old) }
{
    match taken(value) {
        Value::Clauses(clauses) => clauses,
        other => {
            discard(other);
            Vec::new(alloc)
        }
    }
}

/// The names, the last first.
pub fn names(alloc: Global, value: &mut Value) -> Vec<Identifier>
    ensures { backwards identifier_view result ≡ plain.names_of (value_view value.old) }
{
    match taken(value) {
        Value::Names(names) => names,
        other => {
            discard(other);
            Vec::new(alloc)
        }
    }
}
