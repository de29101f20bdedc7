//! The code of expressions (JLS 15).

ghost use Rattle.std.specs.Prelude.{◌≡◌, map};
ghost use Rattle.jd_bodies.specs.Codes as plain;
ghost use Rattle.jd_bodies.specs.Variables.{Progress};
ghost use Rattle.jd_bodies.specs.declared.value.ValueType.TheVariants as types;
ghost use Rattle.jd_code_makers.specs.Held.{Holds};
ghost use Rattle.jd_code_makers.specs.Makers.{GivesExpr, GivesExprs, GivesStmts};
ghost use Rattle.jd_expression_code.specs.Assigning as assigning;
ghost use Rattle.jd_expression_code.specs.Assigning.{GivesBegun};
ghost use Rattle.jd_syntax.specs.JavaTrees.{java_exprs, java_view};

use crate::assignments::{
    Begun, changed, counted, element_begun, failed, field_begun, kept_written, local_begun,
    no_steps, read,
};
use crate::body::Body;
use crate::creation::{Arguments, call_behind, class_call, created, created_array, own_call};
use crate::members::{Called, Member, field_assigned, member_read, method_called, name_code};
use crate::operators::{assignment_operation, cast_to, count_operation, infix, is_instance, minus};
use crate::types::static_type;
use jd_base::NoMemory;
use jd_bodies::{Meaning, ValueType};
use jd_code_makers as makers;
use jd_code_makers::{
    boolean, conditional, integer, length_of, no_exprs, no_stmts, null, read_element, read_field,
    set, this, unary, variable, virtual_call, with_expr, with_stmt,
};
use jd_judging::{callee_by_name, class_before, meaning, type_by};
use jd_lists::discard;
use jd_naming::{Declares, InScope};
use jd_syntax::{CodeExpr, Expr, ExprForm, PrefixOperator, UnaryOp};
use std::alloc::Global;

// A name that is assigned.
fn name_begun(
    alloc: Global,
    p: &mut makers::Progress,
    class: u32,
    x: &[u8],
    meaning: Meaning,
) -> Result<Option<Begun>, NoMemory>
    ensures progress { (q : Progress) → Holds p.old q → Holds p.new (assigning.begun (plain.name_target (types.Class class) x.now meaning) q).0 }
    ensures begun { (q : Progress) → Holds p.old q → GivesBegun result (assigning.begun (plain.name_target (types.Class class) x.now meaning) q).1 }
{
    match meaning {
        Meaning::Local(t) => local_begun(p.local(alloc, x, t), alloc),
        Meaning::Field(f, t) => {
            field_begun(alloc, p, this(alloc), ValueType::Class(class), f, t)
        }
        Meaning::Constant(_) => Ok(None),
        Meaning::Nothing => Ok(None),
    }
}

/// The code of an expression that is not refused, in a class's body where these locals are in scope (JLS 15).
///
/// # Errors
///
/// `NoMemory`, also where a literal is none of 32 bits.
#[cycle(code_of)]
pub fn code_of<D: Declares, S: InScope>(
    m: &Body<'_, D>,
    scope: &S,
    p: &mut makers::Progress,
    e: &Expr,
) -> Result<CodeExpr, NoMemory>
    ensures progress { (q : Progress) → Holds p.old q → Holds p.new (plain.code_of (D.declarations m.now.declared.now) m.now.place (S.scope scope.now).locals (java_view e.now) q).0 }
    ensures value { (q : Progress) → Holds p.old q → GivesExpr result (plain.code_of (D.declarations m.now.declared.now) m.now.place (S.scope scope.now).locals (java_view e.now) q).1 }
{
    match &e.form {
        ExprForm::Integer(n) => integer(i128::from(*n)),
        ExprForm::Boolean(truth) => boolean(*truth),
        ExprForm::Null => null(),
        ExprForm::This => this(m.alloc),
        ExprForm::Name(x) => {
            let meaning = meaning(m.declared, m.place, scope, x);
            name_code(m.alloc, p, x, meaning)
        }
        ExprForm::Field(o, x) => {
            let class = class_before(m.declared, m.place, scope, o);
            let t = static_type(m.declared, m.place, scope, o);
            match member_read(m.declared, &x.name, class, t) {
                Member::Constant(n) => integer(n),
                Member::Field(f) => read_field(m.alloc, code_of(m, scope, p, o), f),
                Member::Length => length_of(m.alloc, code_of(m, scope, p, o)),
                Member::Nothing => null(),
            }
        }
        ExprForm::Parenthesized(o) => code_of(m, scope, p, o),
        ExprForm::Call(name, es) => {
            let callee = callee_by_name(m.declared, m.place.class, name);
            let operands = codes_of(m, scope, p, es);
            own_call(m.alloc, m.declared, m.place.class, callee, operands)
        }
        ExprForm::MethodCall(o, name, es) => {
            let class = class_before(m.declared, m.place, scope, o);
            let t = static_type(m.declared, m.place, scope, o);
            match method_called(m.declared, &name.name, class, t) {
                Called::OfClass(callee) => {
                    class_call(m.declared, callee, codes_of(m, scope, p, es))
                }
                Called::Static(class, method) => {
                    let object = code_of(m, scope, p, o);
                    let kept = p.temporary(m.alloc, ValueType::Class(class));
                    let operands = codes_of(m, scope, p, es);
                    call_behind(m.alloc, kept, object, method, operands)
                }
                Called::Virtual(class, method) => {
                    let object = code_of(m, scope, p, o);
                    let operands = codes_of(m, scope, p, es);
                    virtual_call(m.alloc, class, method, object, operands)
                }
                Called::Unknown => {
                    discard(code_of(m, scope, p, o));
                    null()
                }
                Called::Nothing => null(),
            }
        }
        ExprForm::New(c, es) => match m.declared.class_named(&c.name) {
            None => null(),
            Some(class) => {
                let arguments = arguments_of(m, scope, p, es);
                created(m.alloc, p, class, m.declared.constructor(class), arguments)
            }
        },
        ExprForm::NewArray(o) => {
            let length = code_of(m, scope, p, o);
            created_array(m.alloc, p, length)
        }
        ExprForm::Index(a, i) => {
            let array = code_of(m, scope, p, a);
            read_element(m.alloc, array, code_of(m, scope, p, i))
        }
        ExprForm::Prefix(operator, o) => match *operator {
            PrefixOperator::Plus => code_of(m, scope, p, o),
            PrefixOperator::Minus => minus(m.alloc, o, code_of(m, scope, p, o)),
            PrefixOperator::Not => { unary(m.alloc, UnaryOp::Invert, code_of(m, scope, p, o)) }
            PrefixOperator::Count(c) => match begin(m, scope, p, o) {
                Err(NoMemory) => failed(p),
                Ok(None) => no_steps(m.alloc),
                Ok(Some(b)) => {
                    let r = read(m.alloc, p, b);
                    changed(m.alloc, p, count_operation(c), r, integer(1))
                }
            },
        },
        ExprForm::Postfix(c, o) => match begin(m, scope, p, o) {
            Err(NoMemory) => failed(p),
            Ok(None) => no_steps(m.alloc),
            Ok(Some(b)) => counted(m.alloc, p, count_operation(*c), b),
        },
        ExprForm::Cast(w, o) => {
            let t = type_by(m.declared, &w.written);
            cast_to(m.alloc, t, code_of(m, scope, p, o))
        }
        ExprForm::Infix(operator, a, b) => {
            let first = code_of(m, scope, p, a);
            infix(m.alloc, *operator, first, code_of(m, scope, p, b))
        }
        ExprForm::InstanceOf(o, w) => {
            let t = type_by(m.declared, &w.written);
            is_instance(m.alloc, t, code_of(m, scope, p, o))
        }
        ExprForm::Conditional(c, a, b) => {
            let condition = code_of(m, scope, p, c);
            let first = code_of(m, scope, p, a);
            let second = code_of(m, scope, p, b);
            conditional(m.alloc, condition, first, second)
        }
        ExprForm::Assign(operator, o, v) => match begin(m, scope, p, o) {
            Err(NoMemory) => failed(p),
            Ok(None) => no_steps(m.alloc),
            Ok(Some(b)) => match assignment_operation(*operator) {
                None => {
                    let t = static_type(m.declared, m.place, scope, v);
                    let value = code_of(m, scope, p, v);
                    kept_written(m.alloc, p, t, b, value)
                }
                Some(operation) => {
                    let r = read(m.alloc, p, b);
                    let value = code_of(m, scope, p, v);
                    changed(m.alloc, p, operation, r, value)
                }
            },
        },
    }
}

/// What is assigned, as far as it is known before the value; none where nothing can be.
#[cycle(code_of)]
pub fn begin<D: Declares, S: InScope>(
    m: &Body<'_, D>,
    scope: &S,
    p: &mut makers::Progress,
    e: &Expr,
) -> Result<Option<Begun>, NoMemory>
    ensures progress { (q : Progress) → Holds p.old q → Holds p.new (assigning.begun (plain.target_of (D.declarations m.now.declared.now) m.now.place (S.scope scope.now).locals (java_view e.now)) q).0 }
    ensures begun { (q : Progress) → Holds p.old q → GivesBegun result (assigning.begun (plain.target_of (D.declarations m.now.declared.now) m.now.place (S.scope scope.now).locals (java_view e.now)) q).1 }
{
    match &e.form {
        ExprForm::Name(x) => {
            let meaning = meaning(m.declared, m.place, scope, x);
            name_begun(m.alloc, p, m.place.class, x, meaning)
        }
        ExprForm::Field(o, x) => {
            let class = class_before(m.declared, m.place, scope, o);
            let t = static_type(m.declared, m.place, scope, o);
            match field_assigned(m.declared, &x.name, class, t) {
                None => Ok(None),
                Some(x) => {
                    let object = code_of(m, scope, p, o);
                    field_begun(m.alloc, p, object, x.object, x.field, x.value)
                }
            }
        }
        ExprForm::Parenthesized(o) => begin(m, scope, p, o),
        ExprForm::Index(a, i) => {
            let array = code_of(m, scope, p, a);
            let kept = p.temporary(m.alloc, ValueType::IntArray);
            let index = code_of(m, scope, p, i);
            element_begun(m.alloc, p, array, kept, index)
        }
        ExprForm::Integer(_)
        | ExprForm::Boolean(_)
        | ExprForm::Null
        | ExprForm::This
        | ExprForm::Call(_, _)
        | ExprForm::MethodCall(_, _, _)
        | ExprForm::New(_, _)
        | ExprForm::NewArray(_)
        | ExprForm::Prefix(_, _)
        | ExprForm::Postfix(_, _)
        | ExprForm::Cast(_, _)
        | ExprForm::Infix(_, _, _)
        | ExprForm::InstanceOf(_, _)
        | ExprForm::Conditional(_, _, _)
        | ExprForm::Assign(_, _, _) => Ok(None),
    }
}

/// The code of expressions, one behind the other.
#[cycle(code_of)]
pub fn codes_of<D: Declares, S: InScope>(
    m: &Body<'_, D>,
    scope: &S,
    p: &mut makers::Progress,
    es: &[Expr],
) -> Result<Vec<CodeExpr>, NoMemory>
    ensures progress { (q : Progress) → Holds p.old q → Holds p.new (plain.codes_of (D.declarations m.now.declared.now) m.now.place (S.scope scope.now).locals (java_exprs (map java_view es.now)) q).0 }
    ensures values { (q : Progress) → Holds p.old q → GivesExprs result (plain.codes_of (D.declarations m.now.declared.now) m.now.place (S.scope scope.now).locals (java_exprs (map java_view es.now)) q).1 }
{
    let mut made = no_exprs(m.alloc);
    for e in es {
        made = with_expr(made, code_of(m, scope, p, e));
    }
    made
}

// The arguments of a constructor, each in a temporary.
#[cycle(code_of)]
fn arguments_of<D: Declares, S: InScope>(
    m: &Body<'_, D>,
    scope: &S,
    p: &mut makers::Progress,
    es: &[Expr],
) -> Arguments
    ensures progress { (q : Progress) → Holds p.old q → Holds p.new (plain.arguments_of (D.declarations m.now.declared.now) m.now.place (S.scope scope.now).locals (java_exprs (map java_view es.now)) q).progress }
    ensures sets { (q : Progress) → Holds p.old q → GivesStmts result.sets (plain.arguments_of (D.declarations m.now.declared.now) m.now.place (S.scope scope.now).locals (java_exprs (map java_view es.now)) q).sets }
    ensures values { (q : Progress) → Holds p.old q → GivesExprs result.values (plain.arguments_of (D.declarations m.now.declared.now) m.now.place (S.scope scope.now).locals (java_exprs (map java_view es.now)) q).values }
{
    let mut sets = no_stmts(m.alloc);
    let mut values = no_exprs(m.alloc);
    for e in es {
        let t = static_type(m.declared, m.place, scope, e);
        let value = code_of(m, scope, p, e);
        let kept = p.temporary(m.alloc, t);
        values = with_expr(values, variable(makers::copied(m.alloc, &kept)));
        sets = with_stmt(sets, set(kept, value));
    }
    Arguments { sets, values }
}
