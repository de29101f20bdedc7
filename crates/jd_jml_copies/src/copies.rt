//! Copies of expressions and locations.

ghost use Rattle.std.specs.Prelude.{◌≡◌, IfOk, map};
ghost use Rattle.jd_jml_copies.specs.Made.{GivesIdentifier, GivesLocation, GivesSpec};
ghost use Rattle.jd_syntax.specs.JavaTypes.{PlainIdentifier};
ghost use Rattle.jd_syntax.specs.SpecTrees.{AllElements, AllFields, Element, FieldOf, PlainSpec, Range, location_view, spec_view};

use crate::makers::{
    call, cast, conditional, equivalent, field, fresh, implies, index, infix, instance_of,
    invariant_for, method_call, old, parenthesized, prefix, quantified, quantified_in, sum,
};
use crate::names::{copy_bound, copy_identifier, copy_written};
use jd_base::{NoMemory, both, copy_bytes};
use jd_syntax::{Identifier, LocExpr, LocForm, SpecExpr, SpecForm};
use std::alloc::Global;

/// A copy of the expression.
#[cycle(copies)]
pub fn copy_expression(alloc: Global, e: &SpecExpr) -> Result<SpecExpr, NoMemory>
    ensures { IfOk result (λ c. spec_view c ≡ spec_view e.now) }
{
    let at = e.at;
    match &e.form {
        SpecForm::Integer(n) => Ok(SpecExpr {
            at,
            form: SpecForm::Integer(*n),
        }),
        SpecForm::Boolean(b) => Ok(SpecExpr {
            at,
            form: SpecForm::Boolean(*b),
        }),
        SpecForm::Null => Ok(SpecExpr {
            at,
            form: SpecForm::Null,
        }),
        SpecForm::This => Ok(SpecExpr {
            at,
            form: SpecForm::This,
        }),
        SpecForm::Result => Ok(SpecExpr {
            at,
            form: SpecForm::Result,
        }),
        SpecForm::Name(x) => Ok(SpecExpr {
            at,
            form: SpecForm::Name(copy_bytes(alloc, x)?),
        }),
        SpecForm::Field(a, x) => field(
            alloc,
            at,
            copy_expression(alloc, a),
            copy_identifier(alloc, x),
        ),
        SpecForm::Parenthesized(a) => parenthesized(alloc, at, copy_expression(alloc, a)),
        SpecForm::Call(m, es) => call(at, copy_bytes(alloc, m), copy_expressions(alloc, es)),
        SpecForm::MethodCall(a, m, es) => method_call(
            alloc,
            at,
            copy_expression(alloc, a),
            copy_identifier(alloc, m),
            copy_expressions(alloc, es),
        ),
        SpecForm::Index(a, i) => index(
            alloc,
            at,
            copy_expression(alloc, a),
            copy_expression(alloc, i),
        ),
        SpecForm::Prefix(o, a) => prefix(alloc, at, *o, copy_expression(alloc, a)),
        SpecForm::Cast(t, a) => cast(alloc, at, copy_written(alloc, t), copy_expression(alloc, a)),
        SpecForm::Infix(o, a, b) => infix(
            alloc,
            at,
            *o,
            copy_expression(alloc, a),
            copy_expression(alloc, b),
        ),
        SpecForm::InstanceOf(a, t) => instance_of(
            alloc,
            at,
            copy_expression(alloc, a),
            copy_written(alloc, t),
        ),
        SpecForm::Conditional(c, a, b) => conditional(
            alloc,
            at,
            copy_expression(alloc, c),
            copy_expression(alloc, a),
            copy_expression(alloc, b),
        ),
        SpecForm::Implies(a, b) => implies(
            alloc,
            at,
            copy_expression(alloc, a),
            copy_expression(alloc, b),
        ),
        SpecForm::Equivalent(a, b) => equivalent(
            alloc,
            at,
            copy_expression(alloc, a),
            copy_expression(alloc, b),
        ),
        SpecForm::Old(a) => old(alloc, at, copy_expression(alloc, a)),
        SpecForm::Fresh(a) => fresh(alloc, at, copy_expression(alloc, a)),
        SpecForm::InvariantFor(a) => invariant_for(alloc, at, copy_expression(alloc, a)),
        SpecForm::Quantified(q, t, x, a) => quantified(
            alloc,
            at,
            *q,
            copy_bound(alloc, t, x),
            copy_expression(alloc, a),
        ),
        SpecForm::QuantifiedIn(q, t, x, r, a) => quantified_in(
            alloc,
            at,
            *q,
            copy_bound(alloc, t, x),
            copy_expression(alloc, r),
            copy_expression(alloc, a),
        ),
        SpecForm::Sum(x, a, b, c) => sum(
            alloc,
            at,
            copy_identifier(alloc, x),
            copy_expression(alloc, a),
            copy_expression(alloc, b),
            copy_expression(alloc, c),
        ),
    }
}

// Copies of the expressions.
#[cycle(copies)]
fn copy_expressions(alloc: Global, es: &[SpecExpr]) -> Result<Vec<SpecExpr>, NoMemory>
    ensures { IfOk result (λ v. map spec_view v.items ≡ map spec_view es.now) }
{
    let mut copies = Vec::with_capacity(alloc, es.len())?;
    for e in es {
        copies.push(copy_expression(alloc, e)?)?;
    }
    Ok(copies)
}

// ---- locations

fn field_location(
    at: u32,
    e: Result<SpecExpr, NoMemory>,
    x: Result<Identifier, NoMemory>,
) -> Result<LocExpr, NoMemory>
    ensures { (p : PlainSpec) (y : PlainIdentifier) → GivesSpec e p → GivesIdentifier x y → GivesLocation result (FieldOf at p y) }
{
    let (e, x) = both(e, x)?;
    Ok(LocExpr {
        at,
        form: LocForm::Field(e, x),
    })
}

fn all_fields(at: u32, e: Result<SpecExpr, NoMemory>) -> Result<LocExpr, NoMemory>
    ensures { (p : PlainSpec) → GivesSpec e p → GivesLocation result (AllFields at p) }
{
    let e = e?;
    Ok(LocExpr {
        at,
        form: LocForm::AllFields(e),
    })
}

fn all_elements(at: u32, e: Result<SpecExpr, NoMemory>) -> Result<LocExpr, NoMemory>
    ensures { (p : PlainSpec) → GivesSpec e p → GivesLocation result (AllElements at p) }
{
    let e = e?;
    Ok(LocExpr {
        at,
        form: LocForm::AllElements(e),
    })
}

fn element(
    at: u32,
    a: Result<SpecExpr, NoMemory>,
    i: Result<SpecExpr, NoMemory>,
) -> Result<LocExpr, NoMemory>
    ensures { (p q : PlainSpec) → GivesSpec a p → GivesSpec i q → GivesLocation result (Element at p q) }
{
    let (a, i) = both(a, i)?;
    Ok(LocExpr {
        at,
        form: LocForm::Element(a, i),
    })
}

fn range(
    at: u32,
    a: Result<SpecExpr, NoMemory>,
    i: Result<SpecExpr, NoMemory>,
    j: Result<SpecExpr, NoMemory>,
) -> Result<LocExpr, NoMemory>
    ensures { (p q r : PlainSpec) → GivesSpec a p → GivesSpec i q → GivesSpec j r → GivesLocation result (Range at p q r) }
{
    let (a, (i, j)) = both(a, both(i, j))?;
    Ok(LocExpr {
        at,
        form: LocForm::Range(a, i, j),
    })
}

fn copy_location(alloc: Global, l: &LocExpr) -> Result<LocExpr, NoMemory>
    ensures { IfOk result (λ c. location_view c ≡ location_view l.now) }
{
    let at = l.at;
    match &l.form {
        LocForm::Nothing => Ok(LocExpr {
            at,
            form: LocForm::Nothing,
        }),
        LocForm::Everything => Ok(LocExpr {
            at,
            form: LocForm::Everything,
        }),
        LocForm::Own(x) => Ok(LocExpr {
            at,
            form: LocForm::Own(copy_bytes(alloc, x)?),
        }),
        LocForm::Field(e, x) => {
            field_location(at, copy_expression(alloc, e), copy_identifier(alloc, x))
        }
        LocForm::AllFields(e) => all_fields(at, copy_expression(alloc, e)),
        LocForm::Element(a, i) => {
            element(at, copy_expression(alloc, a), copy_expression(alloc, i))
        }
        LocForm::Range(a, i, j) => range(
            at,
            copy_expression(alloc, a),
            copy_expression(alloc, i),
            copy_expression(alloc, j),
        ),
        LocForm::AllElements(e) => all_elements(at, copy_expression(alloc, e)),
    }
}

/// Copies of the sets of locations.
pub fn copy_locations(alloc: Global, ls: &[LocExpr]) -> Result<Vec<LocExpr>, NoMemory>
    ensures { IfOk result (λ v. map location_view v.items ≡ map location_view ls.now) }
{
    let mut copies = Vec::with_capacity(alloc, ls.len())?;
    for l in ls {
        copies.push(copy_location(alloc, l)?)?;
    }
    Ok(copies)
}
