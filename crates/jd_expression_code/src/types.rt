//! The types of expressions that are not refused.

ghost use Rattle.std.specs.Prelude.{◌≡◌};
ghost use Rattle.std.specs.Option.{unwrap_or};
ghost use Rattle.jd_bodies.specs.Declarations as declarations;
ghost use Rattle.jd_bodies.specs.StaticTypes as plain;
ghost use Rattle.jd_bodies.specs.Types as plain_types;
ghost use Rattle.jd_bodies.specs.declared.value.ValueType.TheVariants as types;
ghost use Rattle.jd_syntax.specs.JavaTrees.{java_view};

use jd_bodies::{Callee, Meaning, Place, ValueType, Variable};
use jd_judging::{callee_by_name, callee_on, class_before, joined, meaning, type_by, whole_type};
use jd_naming::{Declares, InScope};
use jd_syntax::{Expr, ExprForm, PrefixOperator};

// Of what a name stands for.
fn named_type(meaning: Meaning) -> ValueType
    ensures { result ≡ plain.named_type meaning }
{
    match meaning {
        Meaning::Local(t) => t,
        Meaning::Field(_, t) => t,
        Meaning::Constant(_) => ValueType::Int,
        Meaning::Nothing => ValueType::Missing,
    }
}

// Of a variable of a class.
fn variable_type(variable: Option<Variable>) -> ValueType
    ensures { result ≡ plain.variable_type variable }
{
    match variable {
        None => ValueType::Missing,
        Some(Variable::Field(_, t)) => t,
        Some(Variable::Constant(_)) => ValueType::Int,
    }
}

// Of an operator before an operand.
fn prefix_type(operator: PrefixOperator) -> ValueType
    ensures { result ≡ plain.prefix_type operator }
{
    match operator {
        PrefixOperator::Not => ValueType::Boolean,
        _ => ValueType::Int,
    }
}

// Of a member of a class or of a value.
fn member_before<D: Declares>(d: &D, name: &[u8], class: Option<u32>, t: ValueType) -> ValueType
    ensures { result ≡ plain.member_before (D.declarations d.now) name.now class t }
{
    match class {
        Some(c) => variable_type(d.variable(c, name)),
        None => match t {
            ValueType::Class(c) => variable_type(d.variable(c, name)),
            ValueType::IntArray => ValueType::Int,
            _ => ValueType::Missing,
        },
    }
}

// Of a method's result.
fn callee_type<D: Declares>(d: &D, callee: Callee) -> ValueType
    ensures { result ≡ plain.callee_type (D.declarations d.now) callee }
{
    match callee {
        Callee::Routine(m) => match d.signature(m).result {
            None => ValueType::Missing,
            Some(t) => t,
        },
        Callee::Nothing | Callee::Anything => ValueType::Missing,
    }
}

// Of a call on a class or on a value.
fn call_before<D: Declares>(d: &D, name: &[u8], class: Option<u32>, t: ValueType) -> ValueType
    ensures { result ≡ plain.call_before (D.declarations d.now) name.now class t }
{
    match class {
        Some(c) => callee_type(d, callee_by_name(d, c, name)),
        None => callee_type(d, callee_on(d, name, t)),
    }
}

// Of a class that is named.
fn class_type(class: Option<u32>) -> ValueType
    ensures { result ≡ declarations.class_type class }
{
    match class {
        None => ValueType::Missing,
        Some(c) => ValueType::Class(c),
    }
}

// Of one of two values.
fn joined_type<D: Declares>(d: &D, a: ValueType, b: ValueType) -> ValueType
    ensures { result ≡ unwrap_or (plain_types.joined (D.declarations d.now) a b) types.Missing }
{
    match joined(d, a, b) {
        None => ValueType::Missing,
        Some(t) => t,
    }
}

/// The type of an expression that is not refused, in a class's body where these locals are in scope (JLS 15). Members and calls are looked up
/// along what stands before their dots.
pub fn static_type<D: Declares, S: InScope>(d: &D, place: Place, scope: &S, e: &Expr) -> ValueType
    ensures { result ≡ plain.static_type (D.declarations d.now) place (S.scope scope.now).locals (java_view e.now) }
{
    match &e.form {
        ExprForm::Integer(_) => ValueType::Int,
        ExprForm::Boolean(_) => ValueType::Boolean,
        ExprForm::Null => ValueType::Null,
        ExprForm::This => ValueType::Class(place.class),
        ExprForm::Name(x) => named_type(meaning(d, place, scope, x)),
        ExprForm::Field(o, x) => {
            let class = class_before(d, place, scope, o);
            member_before(d, &x.name, class, static_type(d, place, scope, o))
        }
        ExprForm::Parenthesized(o) => static_type(d, place, scope, o),
        ExprForm::Call(m, _) => callee_type(d, callee_by_name(d, place.class, m)),
        ExprForm::MethodCall(o, m, _) => {
            let class = class_before(d, place, scope, o);
            call_before(d, &m.name, class, static_type(d, place, scope, o))
        }
        ExprForm::New(c, _) => class_type(d.class_named(&c.name)),
        ExprForm::NewArray(_) => ValueType::IntArray,
        ExprForm::Index(_, _) => ValueType::Int,
        ExprForm::Prefix(operator, _) => prefix_type(*operator),
        ExprForm::Postfix(_, _) => ValueType::Int,
        ExprForm::Cast(w, _) => type_by(d, &w.written),
        ExprForm::Infix(operator, _, _) => whole_type(*operator),
        ExprForm::InstanceOf(_, _) => ValueType::Boolean,
        ExprForm::Conditional(_, a, b) => {
            let first = static_type(d, place, scope, a);
            joined_type(d, first, static_type(d, place, scope, b))
        }
        ExprForm::Assign(_, o, _) => static_type(d, place, scope, o),
    }
}
