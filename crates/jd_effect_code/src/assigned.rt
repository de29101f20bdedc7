//! Assignments that stand as statements (JLS 14.8, 15.26).

ghost use Rattle.std.specs.Prelude.{List};
ghost use Rattle.jd_bodies.specs.Bodies as plain;
ghost use Rattle.jd_bodies.specs.Codes as codes;
ghost use Rattle.jd_bodies.specs.Variables.{Progress};
ghost use Rattle.jd_bodies.specs.declared.value.ValueType.TheVariants as types;
ghost use Rattle.jd_code_makers.specs.Held.{Holds};
ghost use Rattle.jd_code_makers.specs.Makers.{GivesExpr, GivesStmts};
ghost use Rattle.jd_effect_code.specs.Changing.{changed_stmts};
ghost use Rattle.jd_expression_code.specs.Assigning.{GivesReading, PlainReading};
ghost use Rattle.jd_syntax.specs.Codes as code;
ghost use Rattle.jd_syntax.specs.JavaTrees.{java_view};

use jd_base::{NoMemory, both};
use jd_bodies::Meaning;
use jd_code_makers as makers;
use jd_code_makers::{
    binary, integer, no_stmts, one_stmt, set, this, variable, with_stmt, write_element, write_field,
};
use jd_expression_code::{
    Begun, Body, Reading, begin, code_of, field_assigned, read, static_type, written,
};
use jd_judging::{class_before, meaning};
use jd_naming::{Declares, InScope};
use jd_syntax::{BinaryOp, CodeExpr, CodeStmt, Expr, ExprForm};
use std::alloc::Global;

// A name takes a value.
fn set_name<D: Declares, S: InScope>(
    m: &Body<'_, D>,
    scope: &S,
    p: &mut makers::Progress,
    x: &[u8],
    meaning: Meaning,
    v: &Expr,
) -> Result<Vec<CodeStmt>, NoMemory>
    ensures progress { (q : Progress) → Holds p.old q → Holds p.new (plain.set_lines (codes.name_target (types.Class m.now.place.class) x.now meaning) (codes.code_of (D.declarations m.now.declared.now) m.now.place (S.scope scope.now).locals (java_view v.now)) q).0 }
    ensures stmts { (q : Progress) → Holds p.old q → GivesStmts result (plain.set_lines (codes.name_target (types.Class m.now.place.class) x.now meaning) (codes.code_of (D.declarations m.now.declared.now) m.now.place (S.scope scope.now).locals (java_view v.now)) q).1 }
{
    match meaning {
        Meaning::Local(t) => {
            let local = p.local(m.alloc, x, t);
            one_stmt(m.alloc, set(local, code_of(m, scope, p, v)))
        }
        Meaning::Field(f, _) => {
            let value = code_of(m, scope, p, v);
            one_stmt(m.alloc, write_field(this(m.alloc), f, value))
        }
        Meaning::Constant(_) => no_stmts(m.alloc),
        Meaning::Nothing => no_stmts(m.alloc),
    }
}

/// The first expression takes the value of the second.
pub(crate) fn set_stmts<D: Declares, S: InScope>(
    m: &Body<'_, D>,
    scope: &S,
    p: &mut makers::Progress,
    e: &Expr,
    v: &Expr,
) -> Result<Vec<CodeStmt>, NoMemory>
    ensures progress { (q : Progress) → Holds p.old q → Holds p.new (plain.set_lines (codes.target_of (D.declarations m.now.declared.now) m.now.place (S.scope scope.now).locals (java_view e.now)) (codes.code_of (D.declarations m.now.declared.now) m.now.place (S.scope scope.now).locals (java_view v.now)) q).0 }
    ensures stmts { (q : Progress) → Holds p.old q → GivesStmts result (plain.set_lines (codes.target_of (D.declarations m.now.declared.now) m.now.place (S.scope scope.now).locals (java_view e.now)) (codes.code_of (D.declarations m.now.declared.now) m.now.place (S.scope scope.now).locals (java_view v.now)) q).1 }
{
    match &e.form {
        ExprForm::Name(x) => {
            let meaning = meaning(m.declared, m.place, scope, x);
            set_name(m, scope, p, x, meaning, v)
        }
        ExprForm::Field(o, x) => {
            let class = class_before(m.declared, m.place, scope, o);
            let t = static_type(m.declared, m.place, scope, o);
            match field_assigned(m.declared, &x.name, class, t) {
                None => no_stmts(m.alloc),
                Some(x) => {
                    let object = code_of(m, scope, p, o);
                    one_stmt(
                        m.alloc,
                        write_field(object, x.field, code_of(m, scope, p, v)),
                    )
                }
            }
        }
        ExprForm::Parenthesized(o) => set_stmts(m, scope, p, o, v),
        ExprForm::Index(a, i) => {
            let array = code_of(m, scope, p, a);
            let index = code_of(m, scope, p, i);
            one_stmt(
                m.alloc,
                write_element(array, index, code_of(m, scope, p, v)),
            )
        }
        ExprForm::Integer(_)
        | ExprForm::Boolean(_)
        | ExprForm::Null
        | ExprForm::This
        | ExprForm::Call(_, _)
        | ExprForm::MethodCall(_, _, _)
        | ExprForm::New(_, _)
        | ExprForm::NewArray(_)
        | ExprForm::Prefix(_, _)
        | ExprForm::Postfix(_, _)
        | ExprForm::Cast(_, _)
        | ExprForm::Infix(_, _, _)
        | ExprForm::InstanceOf(_, _)
        | ExprForm::Conditional(_, _, _)
        | ExprForm::Assign(_, _, _) => no_stmts(m.alloc),
    }
}

// The new value is computed of the old one and this, and written.
fn changed(
    alloc: Global,
    operation: BinaryOp,
    r: Result<Reading, NoMemory>,
    value: Result<CodeExpr, NoMemory>,
) -> Result<Vec<CodeStmt>, NoMemory>
    ensures { (y : PlainReading) (x : code.Expr) → GivesReading r y → GivesExpr value x → GivesStmts result (changed_stmts operation y x) }
{
    let (r, value) = both(r, value)?;
    let Reading { begun, old } = r;
    let Begun { stmts, assigned } = begun;
    let new = binary(alloc, operation, variable(Ok(old)), Ok(value));
    with_stmt(Ok(stmts), written(alloc, &assigned, new))
}

// Memory ran out.
fn failed(p: &mut makers::Progress) -> Result<Vec<CodeStmt>, NoMemory>
    ensures progress { (q : Progress) → Holds p.new q }
    ensures stmts { (ss : List code.Stmt) → GivesStmts result ss }
{
    p.fail();
    Err(NoMemory)
}

/// `x += v` and the like.
pub(crate) fn change<D: Declares, S: InScope>(
    m: &Body<'_, D>,
    scope: &S,
    p: &mut makers::Progress,
    operation: BinaryOp,
    e: &Expr,
    v: &Expr,
) -> Result<Vec<CodeStmt>, NoMemory>
    ensures progress { (q : Progress) → Holds p.old q → Holds p.new (plain.change_lines operation (codes.target_of (D.declarations m.now.declared.now) m.now.place (S.scope scope.now).locals (java_view e.now)) (codes.code_of (D.declarations m.now.declared.now) m.now.place (S.scope scope.now).locals (java_view v.now)) q).0 }
    ensures stmts { (q : Progress) → Holds p.old q → GivesStmts result (plain.change_lines operation (codes.target_of (D.declarations m.now.declared.now) m.now.place (S.scope scope.now).locals (java_view e.now)) (codes.code_of (D.declarations m.now.declared.now) m.now.place (S.scope scope.now).locals (java_view v.now)) q).1 }
{
    match begin(m, scope, p, e) {
        Err(NoMemory) => failed(p),
        Ok(None) => no_stmts(m.alloc),
        Ok(Some(b)) => {
            let r = read(m.alloc, p, b);
            changed(m.alloc, operation, r, code_of(m, scope, p, v))
        }
    }
}

/// `x++` and the like.
pub(crate) fn count<D: Declares, S: InScope>(
    m: &Body<'_, D>,
    scope: &S,
    p: &mut makers::Progress,
    operation: BinaryOp,
    e: &Expr,
) -> Result<Vec<CodeStmt>, NoMemory>
    ensures progress { (q : Progress) → Holds p.old q → Holds p.new (plain.change_lines operation (codes.target_of (D.declarations m.now.declared.now) m.now.place (S.scope scope.now).locals (java_view e.now)) codes.one q).0 }
    ensures stmts { (q : Progress) → Holds p.old q → GivesStmts result (plain.change_lines operation (codes.target_of (D.declarations m.now.declared.now) m.now.place (S.scope scope.now).locals (java_view e.now)) codes.one q).1 }
{
    match begin(m, scope, p, e) {
        Err(NoMemory) => failed(p),
        Ok(None) => no_stmts(m.alloc),
        Ok(Some(b)) => {
            let r = read(m.alloc, p, b);
            changed(m.alloc, operation, r, integer(1))
        }
    }
}
