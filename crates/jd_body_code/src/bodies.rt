//! Whole bodies (JLS 8.4.7, 8.8.7).

ghost use Rattle.std.specs.Prelude.{◌≡◌, ◌∷◌, List, map};
ghost use Rattle.jd_bodies.specs.Bodies as plain;
ghost use Rattle.jd_bodies.specs.Refused as refused;
ghost use Rattle.jd_bodies.specs.Scopes.{Local};
ghost use Rattle.jd_bodies.specs.Variables.{Progress};
ghost use Rattle.jd_body_code.specs.Made.{GivesBody};
ghost use Rattle.jd_code_makers.specs.Held.{Holds, Works};
ghost use Rattle.jd_code_makers.specs.Makers.{GivesStmts};
ghost use Rattle.jd_statement_parts.specs.Standing.{Stands};
ghost use Rattle.jd_syntax.specs.Codes as code;
ghost use Rattle.jd_syntax.specs.JavaTrees.{JavaStmt, java_stmt_view, method_view, parameter_view};

use crate::statements::block;
use jd_base::{NoMemory, both};
use jd_bodies::Place;
use jd_code_makers as makers;
use jd_code_makers::{appended_stmts, code_in, no_exprs, no_stmts};
use jd_expression_code::Body;
use jd_judging::type_by;
use jd_locals::{InBody, ListsLocals};
use jd_naming::Declares;
use jd_statement_parts::{called_above, constructor_above, enter, no_exits};
use jd_syntax::{
    Code, CodeStmt, MethodDecl, Parameter, ResultType, Stmt, StmtForm, VarDecl, VarId,
};
use std::alloc::Global;

/// What is made of a body.
#[derive(Drop)]
pub struct Made {
    /// Its variables, `this` and the parameters first.
    pub variables: Vec<VarDecl>,
    /// Its code.
    pub code: Code,
    /// Of each loop, by its number, the parameters and locals in scope where it begins.
    pub scopes: Vec<Vec<VarId>>,
}

// `super(..);`
fn is_super(s: &Stmt) -> bool
    ensures { (ss : List JavaStmt) → result ≡ refused.begins_with_super (java_stmt_view s.now ∷ ss) }
{
    match &s.form {
        StmtForm::Super(_) => true,
        StmtForm::Block(_)
        | StmtForm::Empty
        | StmtForm::Local(_, _)
        | StmtForm::Evaluate(_)
        | StmtForm::Label(_, _, _)
        | StmtForm::If(_, _)
        | StmtForm::IfElse(_, _, _)
        | StmtForm::While(_, _, _)
        | StmtForm::For(_, _, _, _, _)
        | StmtForm::Break(_)
        | StmtForm::Continue(_)
        | StmtForm::Return(_)
        | StmtForm::Throw(_)
        | StmtForm::Try(_, _)
        | StmtForm::TryFinally(_, _, _) => false,
    }
}

// Whether a body says which constructor runs above its own.
fn begins_with_super(body: &[Stmt]) -> bool
    ensures { result ≡ refused.begins_with_super (map java_stmt_view body.now) }
{
    match body {
        [] => false,
        [first, ..] => is_super(first),
    }
}

// What a constructor calls above it, where its body does not say that.
fn unwritten<D: Declares>(
    alloc: Global,
    d: &D,
    class: u32,
    m: &MethodDecl,
) -> Result<Vec<CodeStmt>, NoMemory>
    ensures { GivesStmts result (plain.unwritten (D.declarations d.now) (method_view m.now).result (refused.begins_with_super (method_view m.now).body) class) }
{
    match &m.result {
        ResultType::Constructor => {
            if begins_with_super(&m.body) {
                no_stmts(alloc)
            } else {
                called_above(alloc, constructor_above(d, class), no_exprs(alloc))
            }
        }
        ResultType::Void => no_stmts(alloc),
        ResultType::Gives(_) => no_stmts(alloc),
    }
}

// The parameters, in scope.
fn with_parameters<D: Declares, S: ListsLocals>(
    m: &Body<'_, D>,
    scope: &mut S,
    p: &mut makers::Progress,
    parameters: &[Parameter],
)
    ensures stands { (q : Progress) (ls : List Local) → Stands p.old (S.scope scope.old).locals q ls → Stands p.new (S.scope scope.new).locals (plain.with_parameters (D.declarations m.now.declared.now) (map parameter_view parameters.now) q) (plain.parameter_locals (D.declarations m.now.declared.now) (map parameter_view parameters.now) ls) }
    ensures works { Works p.new → Works p.old }
{
    for x in parameters {
        let t = type_by(m.declared, &x.ty.written);
        enter(m, scope, p, &x.name.name, t);
    }
}

// The variables of a body where it begins.
fn begun(alloc: Global, place: Place) -> makers::Progress
    ensures { Holds result (plain.begun place) }
{
    let mut p = makers::Progress::new(alloc);
    if !place.is_static {
        p.receive(alloc, place.class);
    }
    p
}

// What is made of a body, if all is.
fn whole_body(p: makers::Progress, stmts: Result<Vec<CodeStmt>, NoMemory>) -> Result<Made, NoMemory>
    ensures { (q : Progress) (ss : List code.Stmt) → Holds p q → GivesStmts stmts ss → GivesBody result (record { variables = q.variables; code_ = code.stmts_of ss; scopes = q.scopes }) }
{
    let ((variables, scopes), code) = both(p.finished(), code_in(stmts))?;
    Ok(Made {
        variables,
        code,
        scopes,
    })
}

/// What is made of the body of a method or constructor of a class, by its number (JLS 8.4.7, 8.8.7).
///
/// # Errors
///
/// `NoMemory`, also where a literal is none of 32 bits or a parameter or local is named as one in scope, which no body has of which no token
/// is refused.
pub fn body_of<D: Declares>(
    alloc: Global,
    declared: &D,
    class: u32,
    method: &MethodDecl,
) -> Result<Made, NoMemory>
    ensures { GivesBody result (plain.body_of (D.declarations declared.now) class (method_view method.now)) }
{
    let place = Place {
        class,
        is_static: method.is_static,
    };
    let m = Body {
        alloc,
        declared,
        place,
    };
    let mut scope = InBody::new(alloc);
    let mut p = begun(alloc, place);
    with_parameters(&m, &mut scope, &mut p, &method.parameters);
    let first = unwritten(alloc, declared, class, method);
    let rest = block(&m, &mut scope, &mut p, &no_exits(), &method.body);
    whole_body(p, appended_stmts(first, rest))
}
