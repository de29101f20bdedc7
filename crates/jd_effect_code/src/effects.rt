//! Expressions that stand as statements (JLS 14.8), and the first values of locals (JLS 14.4).

ghost use Rattle.std.specs.Prelude.{◌≡◌, ◌∷◌, [], Some, map};
ghost use Rattle.jd_bodies.specs.Bodies as plain;
ghost use Rattle.jd_bodies.specs.Codes as codes;
ghost use Rattle.jd_bodies.specs.Variables.{Progress};
ghost use Rattle.jd_code_makers.specs.Held.{Holds};
ghost use Rattle.jd_code_makers.specs.Makers.{GivesExpr, GivesName, GivesStmt, GivesStmts};
ghost use Rattle.jd_syntax.specs.Codes as code;
ghost use Rattle.jd_syntax.specs.JavaTrees.{JavaExpr, declarator_view, java_exprs, java_view};
ghost use Rattle.jd_syntax.specs.Names.{Name};

use crate::assigned::{change, count, set_stmts};
use crate::named::names;
use jd_base::NoMemory;
use jd_bodies::ValueType;
use jd_code_makers as makers;
use jd_code_makers::{
    boolean, copied, evaluate, integer, no_stmts, null, one_stmt, set, static_call, two_stmts,
};
use jd_expression_code::{
    Body, assignment_operation, code_of, codes_of, count_operation, static_type,
};
use jd_judging::class_before;
use jd_lists::discard;
use jd_naming::{Declares, InScope};
use jd_syntax::{
    AssignmentOperator, CodeExpr, CodeStmt, Declarator, Expr, ExprForm, PrefixOperator, VarId,
};
use std::alloc::Global;

// The static method of this name that is called on a value.
fn static_on<D: Declares>(d: &D, name: &[u8], class: Option<u32>, t: ValueType) -> Option<u32>
    ensures { result ≡ plain.static_on (D.declarations d.now) name.now class t }
{
    match class {
        Some(_) => None,
        None => match t {
            ValueType::Class(c) => match d.method(c, name) {
                None => None,
                Some(m) => {
                    if d.signature(m).is_static {
                        Some(m)
                    } else {
                        None
                    }
                }
            },
            _ => None,
        },
    }
}

// A call of a static method behind a value, which is dropped.
fn call<D: Declares, S: InScope>(
    m: &Body<'_, D>,
    scope: &S,
    p: &mut makers::Progress,
    method: u32,
    e: &Expr,
    es: &[Expr],
) -> Result<Vec<CodeStmt>, NoMemory>
    ensures progress { (whole : JavaExpr) (q : Progress) → Holds p.old q → Holds p.new (plain.call_lines (D.declarations m.now.declared.now) m.now.place (S.scope scope.now).locals (Some method) (java_view e.now) (java_exprs (map java_view es.now)) whole q).0 }
    ensures stmts { (whole : JavaExpr) (q : Progress) → Holds p.old q → GivesStmts result (plain.call_lines (D.declarations m.now.declared.now) m.now.place (S.scope scope.now).locals (Some method) (java_view e.now) (java_exprs (map java_view es.now)) whole q).1 }
{
    let t = static_type(m.declared, m.place, scope, e);
    let object = code_of(m, scope, p, e);
    let kept = p.temporary(m.alloc, t);
    let operands = codes_of(m, scope, p, es);
    let first = set(kept, object);
    two_stmts(m.alloc, first, evaluate(static_call(method, operands)))
}

// What is evaluated and dropped.
fn evaluated<D: Declares, S: InScope>(
    m: &Body<'_, D>,
    scope: &S,
    p: &mut makers::Progress,
    e: &Expr,
) -> Result<Vec<CodeStmt>, NoMemory>
    ensures progress { (q : Progress) → Holds p.old q → Holds p.new (plain.with_stmt code.Evaluate (codes.code_of (D.declarations m.now.declared.now) m.now.place (S.scope scope.now).locals (java_view e.now) q)).0 }
    ensures stmts { (q : Progress) → Holds p.old q → GivesStmts result (plain.with_stmt code.Evaluate (codes.code_of (D.declarations m.now.declared.now) m.now.place (S.scope scope.now).locals (java_view e.now) q)).1 }
{
    one_stmt(m.alloc, evaluate(code_of(m, scope, p, e)))
}

// An operator before an operand.
fn prefix<D: Declares, S: InScope>(
    m: &Body<'_, D>,
    scope: &S,
    p: &mut makers::Progress,
    operator: PrefixOperator,
    e: &Expr,
) -> Result<Vec<CodeStmt>, NoMemory>
    ensures progress { (q : Progress) → Holds p.old q → Holds p.new (plain.prefix_lines operator (codes.target_of (D.declarations m.now.declared.now) m.now.place (S.scope scope.now).locals (java_view e.now)) q).0 }
    ensures stmts { (q : Progress) → Holds p.old q → GivesStmts result (plain.prefix_lines operator (codes.target_of (D.declarations m.now.declared.now) m.now.place (S.scope scope.now).locals (java_view e.now)) q).1 }
{
    match operator {
        PrefixOperator::Count(c) => count(m, scope, p, count_operation(c), e),
        PrefixOperator::Plus => no_stmts(m.alloc),
        PrefixOperator::Minus => no_stmts(m.alloc),
        PrefixOperator::Not => no_stmts(m.alloc),
    }
}

// The first expression takes a value by the operator.
fn assign<D: Declares, S: InScope>(
    m: &Body<'_, D>,
    scope: &S,
    p: &mut makers::Progress,
    operator: AssignmentOperator,
    e: &Expr,
    v: &Expr,
) -> Result<Vec<CodeStmt>, NoMemory>
    ensures progress { (q : Progress) → Holds p.old q → Holds p.new (plain.assign_lines (codes.assignment_operation operator) (codes.target_of (D.declarations m.now.declared.now) m.now.place (S.scope scope.now).locals (java_view e.now)) (codes.code_of (D.declarations m.now.declared.now) m.now.place (S.scope scope.now).locals (java_view v.now)) q).0 }
    ensures stmts { (q : Progress) → Holds p.old q → GivesStmts result (plain.assign_lines (codes.assignment_operation operator) (codes.target_of (D.declarations m.now.declared.now) m.now.place (S.scope scope.now).locals (java_view e.now)) (codes.code_of (D.declarations m.now.declared.now) m.now.place (S.scope scope.now).locals (java_view v.now)) q).1 }
{
    match assignment_operation(operator) {
        None => set_stmts(m, scope, p, e, v),
        Some(operation) => change(m, scope, p, operation, e, v),
    }
}

/// The statements of an expression that stands as one (JLS 14.8).
///
/// # Errors
///
/// `NoMemory`, also where a literal is none of 32 bits.
pub fn effect<D: Declares, S: InScope>(
    m: &Body<'_, D>,
    scope: &S,
    p: &mut makers::Progress,
    e: &Expr,
) -> Result<Vec<CodeStmt>, NoMemory>
    ensures progress { (q : Progress) → Holds p.old q → Holds p.new (plain.effect_lines (D.declarations m.now.declared.now) m.now.place (S.scope scope.now).locals (java_view e.now) q).0 }
    ensures stmts { (q : Progress) → Holds p.old q → GivesStmts result (plain.effect_lines (D.declarations m.now.declared.now) m.now.place (S.scope scope.now).locals (java_view e.now) q).1 }
{
    match &e.form {
        ExprForm::Assign(operator, a, v) => assign(m, scope, p, *operator, a, v),
        ExprForm::Prefix(operator, a) => prefix(m, scope, p, *operator, a),
        ExprForm::Postfix(c, a) => count(m, scope, p, count_operation(*c), a),
        ExprForm::MethodCall(o, name, es) => {
            let class = class_before(m.declared, m.place, scope, o);
            let t = static_type(m.declared, m.place, scope, o);
            match static_on(m.declared, &name.name, class, t) {
                None => evaluated(m, scope, p, e),
                Some(method) => call(m, scope, p, method, o, es),
            }
        }
        ExprForm::Integer(_)
        | ExprForm::Boolean(_)
        | ExprForm::Null
        | ExprForm::This
        | ExprForm::Name(_)
        | ExprForm::Field(_, _)
        | ExprForm::Parenthesized(_)
        | ExprForm::Call(_, _)
        | ExprForm::New(_, _)
        | ExprForm::NewArray(_)
        | ExprForm::Index(_, _)
        | ExprForm::Cast(_, _)
        | ExprForm::Infix(_, _, _)
        | ExprForm::InstanceOf(_, _)
        | ExprForm::Conditional(_, _, _) => evaluated(m, scope, p, e),
    }
}

// What a variable of the type has where nothing is set to it (JLS 4.12.5).
fn default_value(t: ValueType) -> Result<CodeExpr, NoMemory>
    ensures { GivesExpr result (plain.default t) }
{
    match t {
        ValueType::Int => integer(0),
        ValueType::Boolean => boolean(false),
        _ => null(),
    }
}

// A statement that sets a variable, behind its default where this is asked for.
fn behind_default(
    alloc: Global,
    wanted: bool,
    v: Result<VarId, NoMemory>,
    t: ValueType,
    last: Result<CodeStmt, NoMemory>,
) -> Result<Vec<CodeStmt>, NoMemory>
    ensures { (q : Progress) (x : Name) (s : code.Stmt) → GivesName v x → GivesStmt last s → GivesStmts result (plain.behind_default wanted x t (q, s ∷ [])).1 }
{
    if wanted {
        two_stmts(alloc, set(v, default_value(t)), last)
    } else {
        discard(v);
        one_stmt(alloc, last)
    }
}

/// The statements of a declared local, which is in scope (JLS 14.4).
///
/// # Errors
///
/// `NoMemory`.
pub fn initial<D: Declares, S: InScope>(
    m: &Body<'_, D>,
    scope: &S,
    p: &mut makers::Progress,
    x: &Declarator,
    t: ValueType,
) -> Result<Vec<CodeStmt>, NoMemory>
    ensures progress { (q : Progress) → Holds p.old q → Holds p.new (plain.initial_lines (D.declarations m.now.declared.now) m.now.place (S.scope scope.now).locals (declarator_view x.now).name t (declarator_view x.now).value q).0 }
    ensures stmts { (q : Progress) → Holds p.old q → GivesStmts result (plain.initial_lines (D.declarations m.now.declared.now) m.now.place (S.scope scope.now).locals (declarator_view x.now).name t (declarator_view x.now).value q).1 }
{
    let local = p.local(m.alloc, &x.name.name, t);
    match &x.value {
        None => one_stmt(m.alloc, set(local, default_value(t))),
        Some(e) => {
            let last = set(copied(m.alloc, &local), code_of(m, scope, p, e));
            behind_default(m.alloc, names(&x.name.name, e), local, t, last)
        }
    }
}
