//! What expressions give.

ghost use Rattle.std.specs.Prelude.{◌≡◌, drop, map};
ghost use Rattle.jd_bodies.specs.Expressions as plain;
ghost use Rattle.jd_bodies.specs.Scopes as scopes;
ghost use Rattle.jd_syntax.specs.JavaTrees.{java_exprs, java_view};

use crate::operators::{
    array_gives, assign_gives, call_gives, callee_before, callee_by_name, cast_gives,
    conditional_gives, counted, creation_gives, creation_parameters, field_gives, fits,
    index_gives, infix_gives, instance_gives, own_call_gives, parameters_in, parameters_of,
    prefix_gives, written_class, written_type,
};
use crate::rules::{argument_then, gives, inside, name_gives, this_gives, valued};
use jd_bodies::{Arguments, Fault, Given, Meaning, Place, ValueType, Variable};
use jd_naming::{Declares, InScope};
use jd_syntax::{Expr, ExprForm};

/// What a name stands for where a variable may stand.
pub fn meaning<D: Declares, S: InScope>(d: &D, place: Place, scope: &S, name: &[u8]) -> Meaning
    ensures { result ≡ scopes.meaning (D.declarations d.now) place (S.scope scope.now).locals name.now }
{
    match scope.type_of(name) {
        Some(t) => Meaning::Local(t),
        None => match d.variable(place.class, name) {
            None => Meaning::Nothing,
            Some(Variable::Field(f, t)) => Meaning::Field(f, t),
            Some(Variable::Constant(n)) => Meaning::Constant(n),
        },
    }
}

// The class that a name before a dot stands for, where it is no variable's.
fn class_meant<D: Declares, S: InScope>(d: &D, place: Place, scope: &S, name: &[u8]) -> Option<u32>
    ensures { result ≡ scopes.class_meant (D.declarations d.now) place (S.scope scope.now).locals name.now }
{
    match meaning(d, place, scope, name) {
        Meaning::Nothing => d.class_named(name),
        _ => None,
    }
}

/// The class that stands before a dot.
pub fn class_before<D: Declares, S: InScope>(
    d: &D,
    place: Place,
    scope: &S,
    e: &Expr,
) -> Option<u32>
    ensures { result ≡ plain.class_before (D.declarations d.now) place (S.scope scope.now).locals (java_view e.now) }
{
    match &e.form {
        ExprForm::Name(name) => class_meant(d, place, scope, name),
        ExprForm::Integer(_)
        | ExprForm::Boolean(_)
        | ExprForm::Null
        | ExprForm::This
        | ExprForm::Field(_, _)
        | ExprForm::Parenthesized(_)
        | ExprForm::Call(_, _)
        | ExprForm::MethodCall(_, _, _)
        | ExprForm::New(_, _)
        | ExprForm::NewArray(_)
        | ExprForm::Index(_, _)
        | ExprForm::Prefix(_, _)
        | ExprForm::Postfix(_, _)
        | ExprForm::Cast(_, _)
        | ExprForm::Infix(_, _, _)
        | ExprForm::InstanceOf(_, _)
        | ExprForm::Conditional(_, _, _)
        | ExprForm::Assign(_, _, _) => None,
    }
}

/// The offset of an expression's first token, and what the expression gives in a class's body where these locals are in scope, or which
/// token in it is refused first (JLS 15).
#[cycle(judged)]
pub fn judged<D: Declares, S: InScope>(
    d: &D,
    place: Place,
    scope: &S,
    e: &Expr,
) -> (u32, Result<Given, Fault>)
    ensures at { result.0 ≡ plain.at_of (java_view e.now) }
    ensures given { result.1 ≡ plain.given (D.declarations d.now) place (S.scope scope.now).locals (java_view e.now) }
{
    match &e.form {
        ExprForm::Integer(_) => (e.at, gives(ValueType::Int)),
        ExprForm::Boolean(_) => (e.at, gives(ValueType::Boolean)),
        ExprForm::Null => (e.at, gives(ValueType::Null)),
        ExprForm::This => (e.at, this_gives(place, e.at)),
        ExprForm::Name(x) => {
            let meaning = meaning(d, place, scope, x);
            (e.at, name_gives(place.is_static, e.at, meaning))
        }
        ExprForm::Field(o, x) => {
            let class = class_before(d, place, scope, o);
            (
                e.at,
                field_gives(d, x, class, valued(judged(d, place, scope, o))),
            )
        }
        ExprForm::Parenthesized(o) => (e.at, inside(judged(d, place, scope, o))),
        ExprForm::Call(m, es) => {
            let callee = callee_by_name(d, place.class, m);
            let fit = arguments(d, place, scope, es, parameters_of(d, callee));
            (e.at, own_call_gives(d, place.is_static, e.at, callee, fit))
        }
        ExprForm::MethodCall(o, m, es) => {
            let class = class_before(d, place, scope, o);
            let value = valued(judged(d, place, scope, o));
            let callee = callee_before(d, &m.name, class, value);
            let fit = arguments(d, place, scope, es, parameters_in(d, callee));
            (e.at, call_gives(d, class.is_some(), m.at, callee, fit))
        }
        ExprForm::New(c, es) => {
            let class = written_class(d, c);
            let fit = arguments(d, place, scope, es, creation_parameters(d, class));
            (e.at, creation_gives(d, c.at, class, fit))
        }
        ExprForm::NewArray(o) => (e.at, array_gives(d, judged(d, place, scope, o))),
        ExprForm::Index(a, i) => {
            let array = judged(d, place, scope, a);
            (e.at, index_gives(d, array, judged(d, place, scope, i)))
        }
        ExprForm::Prefix(operator, o) => {
            (e.at, prefix_gives(d, *operator, judged(d, place, scope, o)))
        }
        ExprForm::Postfix(_, o) => (e.at, counted(d, judged(d, place, scope, o))),
        ExprForm::Cast(w, o) => {
            let want = written_type(d, w);
            (e.at, cast_gives(d, e.at, want, judged(d, place, scope, o)))
        }
        ExprForm::Infix(operator, a, b) => {
            let first = judged(d, place, scope, a);
            (
                e.at,
                infix_gives(d, e.at, *operator, first, judged(d, place, scope, b)),
            )
        }
        ExprForm::InstanceOf(o, w) => {
            let value = judged(d, place, scope, o);
            (e.at, instance_gives(d, e.at, value, written_type(d, w)))
        }
        ExprForm::Conditional(c, a, b) => {
            let condition = judged(d, place, scope, c);
            let first = judged(d, place, scope, a);
            (
                e.at,
                conditional_gives(d, e.at, condition, first, judged(d, place, scope, b)),
            )
        }
        ExprForm::Assign(operator, o, v) => {
            let assigned = judged(d, place, scope, o);
            (
                e.at,
                assign_gives(d, *operator, assigned, judged(d, place, scope, v)),
            )
        }
    }
}

/// How arguments fit parameters, or which token in them is refused first.
///
/// # Errors
///
/// The first refused token.
#[cycle(judged)]
pub fn arguments<D: Declares, S: InScope>(
    d: &D,
    place: Place,
    scope: &S,
    es: &[Expr],
    parameters: &[ValueType],
) -> Result<Arguments, Fault>
    ensures { result ≡ plain.arguments (D.declarations d.now) place (S.scope scope.now).locals (java_exprs (map java_view es.now)) parameters.now }
{
    let mut left = es.len();
    let mut fit = Ok(no_more(parameters, left));
    while left > 0 {
        left -= 1;
        let e = judged(d, place, scope, &es[left]);
        fit = argument_gives(d, parameters, left, e, fit);
    }
    fit
}

// What is left of the parameters behind as many arguments.
fn no_more(parameters: &[ValueType], count: usize) -> Arguments
    ensures { result ≡ plain.no_more (drop count parameters.now) }
{
    if count < parameters.len() {
        Arguments::OtherCount
    } else {
        Arguments::Fit
    }
}

// The argument of this number before the others.
fn argument_gives<D: Declares>(
    d: &D,
    parameters: &[ValueType],
    number: usize,
    e: (u32, Result<Given, Fault>),
    rest: Result<Arguments, Fault>,
) -> Result<Arguments, Fault>
    ensures { result ≡ plain.argument_gives (D.declarations d.now) (drop number parameters.now) e.0 (plain.valued e.0 e.1) rest }
{
    let t = valued(e)?;
    let others = rest?;
    if number < parameters.len() {
        Ok(argument_then(fits(d, t, parameters[number]), e.0, others))
    } else {
        Ok(Arguments::OtherCount)
    }
}
