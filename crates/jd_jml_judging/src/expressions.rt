//! The types of expressions.

ghost use Rattle.std.specs.Prelude.{◌≡◌, map};
ghost use Rattle.jd_jml_judging.specs.Contexts.{context_view};
ghost use Rattle.jd_jml_judging.specs.Visible.{visible};
ghost use Rattle.jd_specifications.specs.Scopes.{class_meant, local_named};
ghost use Rattle.jd_specifications.specs.Types as plain;
ghost use Rattle.jd_syntax.specs.SpecTrees.{spec_view, specs_of};

use crate::context::{Around, Context};
use crate::names::{Names, bound, known};
use crate::operators::{
    bound_type, cast_gives, choice_gives, element_gives, field_gives, infix_gives, instance_gives,
    of_reference, one, prefix_gives, sum_gives, two, written_type,
};
use crate::rules::{
    call_gives, class_unless, method_call_gives, name_gives, old_gives, result_gives, this_gives,
};
use jd_bodies::ValueType;
use jd_naming::Declares;
use jd_specifications::{SpecCause, SpecFault};
use jd_syntax::{SpecExpr, SpecForm};

/// What an expression sees beside what quantifiers bind.
#[derive(Clone, Copy)]
pub(crate) struct Sight<'a, D> {
    pub(crate) declared: &'a D,
    pub(crate) context: Context,
}

// What a name gives.
fn named<D: Declares>(
    w: &Sight<'_, D>,
    inside: bool,
    at: u32,
    name: &[u8],
    names: &Names<'_>,
) -> Result<ValueType, SpecFault>
    ensures { result ≡ plain.name_type inside w.now.context.place.is_static at (local_named (visible names.now) name.now) ((D.declarations w.now.declared.now).variable w.now.context.place.class name.now) }
{
    let known = known(names, name);
    let variable = w.declared.variable(w.context.place.class, name);
    name_gives(inside, w.context.place.is_static, at, known, variable)
}

// The class that a name before a dot stands for, where it is no variable's.
fn class_named<D: Declares>(w: &Sight<'_, D>, name: &[u8], names: &Names<'_>) -> Option<u32>
    ensures { result ≡ class_meant (D.declarations w.now.declared.now) w.now.context.place (visible names.now) name.now }
{
    let known = known(names, name);
    let variable = w.declared.variable(w.context.place.class, name);
    class_unless(known, variable, w.declared.class_named(name))
}

/// The class that stands before a dot.
pub(crate) fn class_before<D: Declares>(
    w: &Sight<'_, D>,
    e: &SpecExpr,
    names: &Names<'_>,
) -> Option<u32>
    ensures { result ≡ plain.class_before (D.declarations w.now.declared.now) (context_view w.now.context) (visible names.now) (spec_view e.now) }
{
    match &e.form {
        SpecForm::Name(name) => class_named(w, name, names),
        SpecForm::Integer(_)
        | SpecForm::Boolean(_)
        | SpecForm::Null
        | SpecForm::This
        | SpecForm::Result
        | SpecForm::Field(_, _)
        | SpecForm::Parenthesized(_)
        | SpecForm::Call(_, _)
        | SpecForm::MethodCall(_, _, _)
        | SpecForm::Index(_, _)
        | SpecForm::Prefix(_, _)
        | SpecForm::Cast(_, _)
        | SpecForm::Infix(_, _, _)
        | SpecForm::InstanceOf(_, _)
        | SpecForm::Conditional(_, _, _)
        | SpecForm::Implies(_, _)
        | SpecForm::Equivalent(_, _)
        | SpecForm::Old(_)
        | SpecForm::Fresh(_)
        | SpecForm::InvariantFor(_)
        | SpecForm::Quantified(_, _, _, _)
        | SpecForm::QuantifiedIn(_, _, _, _, _)
        | SpecForm::Sum(_, _, _, _) => None,
    }
}

/// The offset of an expression's first token, and the type of its value, inside `\old` or not, or which token in it is refused first
/// (JML Reference Manual, 12; JLS 15).
#[cycle(judged)]
pub(crate) fn judged<'n, D: Declares>(
    w: &Sight<'_, D>,
    inside: bool,
    e: &'n SpecExpr,
    names: &'n Names<'n>,
) -> (u32, Result<ValueType, SpecFault>)
    ensures at { result.0 ≡ plain.at_of (spec_view e.now) }
    ensures given { result.1 ≡ plain.type_of (D.declarations w.now.declared.now) (context_view w.now.context) inside (visible names.now) (spec_view e.now) }
{
    match &e.form {
        SpecForm::Integer(_) => (e.at, Ok(ValueType::Int)),
        SpecForm::Boolean(_) => (e.at, Ok(ValueType::Boolean)),
        SpecForm::Null => (e.at, Ok(ValueType::Null)),
        SpecForm::This => (
            e.at,
            this_gives(w.context.place.is_static, e.at, w.context.place.class),
        ),
        SpecForm::Result => (e.at, result_gives(e.at, w.context.result)),
        SpecForm::Name(x) => (e.at, named(w, inside, e.at, x, names)),
        SpecForm::Field(o, x) => {
            let class = class_before(w, o, names);
            let value = judged(w, inside, o, names);
            (e.at, field_gives(w.declared, x, class, value.1))
        }
        SpecForm::Parenthesized(o) => (e.at, judged(w, inside, o, names).1),
        SpecForm::Call(_, es) => (e.at, call_gives(e.at, each(w, inside, es, names))),
        SpecForm::MethodCall(o, m, es) => {
            let class = class_before(w, o, names);
            let value = judged(w, inside, o, names);
            let arguments = each(w, inside, es, names);
            (
                e.at,
                method_call_gives(w.declared, m.at, class, value.1, arguments),
            )
        }
        SpecForm::Index(a, i) => {
            let array = judged(w, inside, a, names);
            let index = judged(w, inside, i, names);
            (e.at, element_gives(w.declared, array, index))
        }
        SpecForm::Prefix(operator, o) => {
            let value = judged(w, inside, o, names);
            (e.at, prefix_gives(w.declared, *operator, value))
        }
        SpecForm::Cast(t, o) => {
            let want = written_type(w.declared, t);
            let value = judged(w, inside, o, names);
            (e.at, cast_gives(w.declared, e.at, want, value.1))
        }
        SpecForm::Infix(operator, a, b) => {
            let first = judged(w, inside, a, names);
            let second = judged(w, inside, b, names);
            (
                e.at,
                infix_gives(w.declared, e.at, *operator, first, second),
            )
        }
        SpecForm::InstanceOf(o, t) => {
            let value = judged(w, inside, o, names);
            let want = written_type(w.declared, t);
            (e.at, instance_gives(w.declared, e.at, value.1, want))
        }
        SpecForm::Conditional(c, a, b) => {
            let condition = judged(w, inside, c, names);
            let first = judged(w, inside, a, names);
            let second = judged(w, inside, b, names);
            (
                e.at,
                choice_gives(w.declared, e.at, condition, first.1, second.1),
            )
        }
        SpecForm::Implies(a, b) | SpecForm::Equivalent(a, b) => {
            let first = judged(w, inside, a, names);
            let second = judged(w, inside, b, names);
            (
                e.at,
                two(
                    w.declared,
                    ValueType::Boolean,
                    ValueType::Boolean,
                    first,
                    second,
                ),
            )
        }
        SpecForm::Old(o) => {
            let value = judged(w, true, o, names);
            (e.at, old_gives(w.context.old, e.at, value.1))
        }
        SpecForm::Fresh(o) => {
            let value = judged(w, inside, o, names);
            (
                e.at,
                of_reference(w.declared, w.context.old, e.at, SpecCause::OldHere, value),
            )
        }
        SpecForm::InvariantFor(o) => {
            let value = judged(w, inside, o, names);
            (
                e.at,
                of_reference(
                    w.declared,
                    w.context.invariants,
                    e.at,
                    SpecCause::InvariantRecursion,
                    value,
                ),
            )
        }
        SpecForm::Quantified(_, t, x, o) => match bound_type(w.declared, t) {
            Err(fault) => (e.at, Err(fault)),
            Ok(u) => {
                let inner = bound(names, x, u);
                let value = judged(w, inside, o, &inner);
                (e.at, one(w.declared, ValueType::Boolean, value))
            }
        },
        SpecForm::QuantifiedIn(_, t, x, r, o) => match bound_type(w.declared, t) {
            Err(fault) => (e.at, Err(fault)),
            Ok(u) => {
                let inner = bound(names, x, u);
                let range = judged(w, inside, r, &inner);
                let value = judged(w, inside, o, &inner);
                (
                    e.at,
                    two(
                        w.declared,
                        ValueType::Boolean,
                        ValueType::Boolean,
                        range,
                        value,
                    ),
                )
            }
        },
        SpecForm::Sum(x, a, b, o) => {
            let inner = bound(names, x, ValueType::Int);
            let first = judged(w, inside, a, names);
            let second = judged(w, inside, b, names);
            let value = judged(w, inside, o, &inner);
            (e.at, sum_gives(w.declared, first, second, value))
        }
    }
}

// Parts of a call, which are asked for their own refusals alone.
#[cycle(judged)]
fn each<'n, D: Declares>(
    w: &Sight<'_, D>,
    inside: bool,
    es: &'n [SpecExpr],
    names: &'n Names<'n>,
) -> Result<ValueType, SpecFault>
    ensures { result ≡ plain.types_of (D.declarations w.now.declared.now) (context_view w.now.context) inside (visible names.now) (specs_of (map spec_view es.now)) }
{
    for e in es {
        let _given = judged(w, inside, e, names).1?;
    }
    Ok(ValueType::Null)
}

/// An expression of this type.
pub(crate) fn expression<'n, D: Declares>(
    a: &Around<'_, D>,
    context: Context,
    want: ValueType,
    e: &'n SpecExpr,
    names: &'n Names<'n>,
) -> Result<ValueType, SpecFault>
    ensures { result ≡ plain.expression (D.declarations a.now.declared.now) (context_view context) want (visible names.now) (spec_view e.now) }
{
    let w = Sight {
        declared: a.declared,
        context,
    };
    one(a.declared, want, judged(&w, false, e, names))
}
