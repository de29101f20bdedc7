//! Which token of the members of a class is refused first.

ghost use Rattle.std.specs.Prelude.{◌≡◌, ◌∷◌, IfErr, List, Ok, OnOk, map};
ghost use Rattle.std.specs.Option.{option_copied};
ghost use Rattle.jd_bodies.specs.Declarations.{Declarations};
ghost use Rattle.jd_bodies.specs.Refused as plain;
ghost use Rattle.jd_bodies.specs.Scopes.{Scope, empty_scope};
ghost use Rattle.jd_statements.specs.Judged.{IsStop, keeping};
ghost use Rattle.jd_syntax.specs.JavaTrees.{JavaStmt, java_stmt_view, member_view, method_view, parameter_view, result_view};

use crate::bodies::stmts;
use crate::statements::{Method, with_name};
use crate::stop::Stop;
use jd_bodies::{Cause, Fault, Place, Returns, ValueType};
use jd_judging::{above_parameters, fault, type_by, written_type};
use jd_naming::{Declares, InScope};
use jd_syntax::{Member, MethodDecl, Parameter, ResultType, Stmt, StmtForm};
use std::alloc::Global;

// `super(..);`
fn is_super(s: &Stmt) -> bool
    ensures { (ss : List JavaStmt) → result ≡ plain.begins_with_super (java_stmt_view s.now ∷ ss) }
{
    match &s.form {
        StmtForm::Super(_) => true,
        StmtForm::Block(_)
        | StmtForm::Empty
        | StmtForm::Local(_, _)
        | StmtForm::Evaluate(_)
        | StmtForm::Label(_, _, _)
        | StmtForm::If(_, _)
        | StmtForm::IfElse(_, _, _)
        | StmtForm::While(_, _, _)
        | StmtForm::For(_, _, _, _, _)
        | StmtForm::Break(_)
        | StmtForm::Continue(_)
        | StmtForm::Return(_)
        | StmtForm::Throw(_)
        | StmtForm::Try(_, _)
        | StmtForm::TryFinally(_, _, _) => false,
    }
}

// Whether a body says which constructor runs above its own.
fn begins_with_super(body: &[Stmt]) -> bool
    ensures { result ≡ plain.begins_with_super (map java_stmt_view body.now) }
{
    match body {
        [] => false,
        [first, ..] => is_super(first),
    }
}

// What a method gives.
fn returns_of<D: Declares>(d: &D, given: &ResultType) -> Returns
    ensures { result ≡ plain.returns_of (D.declarations d.now) (result_view given.now) }
{
    match given {
        ResultType::Gives(w) => Returns::Value(type_by(d, &w.written)),
        ResultType::Void => Returns::Nothing,
        ResultType::Constructor => Returns::Nothing,
    }
}

// The written type of the result.
fn result_known<D: Declares>(d: &D, given: &ResultType) -> Result<(), Fault>
    ensures { (s : Scope) → plain.result_known (D.declarations d.now) (result_view given.now) s ≡ keeping s result }
{
    match given {
        ResultType::Gives(w) => {
            let _type = written_type(d, w)?;
            Ok(())
        }
        ResultType::Void => Ok(()),
        ResultType::Constructor => Ok(()),
    }
}

// No arguments fit what runs above.
fn needs_none(at: u32, parameters: Option<&[ValueType]>) -> Result<(), Fault>
    ensures { (d : Declarations) (s : Scope) → plain.needs_none d at (option_copied parameters.entry) s ≡ keeping s result }
{
    match parameters {
        Some([]) => Ok(()),
        Some([_, ..]) => Err(fault(at, Cause::WrongArity)),
        None => Err(fault(at, Cause::WrongArity)),
    }
}

// A constructor that does not say what runs above it calls that without arguments.
fn runs_above<D: Declares>(d: &D, class: u32, m: &MethodDecl) -> Result<(), Fault>
    ensures { (s : Scope) → plain.runs_above (D.declarations d.now) class (method_view m.now).name (method_view m.now).result (plain.begins_with_super (method_view m.now).body) s ≡ keeping s result }
{
    match &m.result {
        ResultType::Constructor => {
            if begins_with_super(&m.body) {
                Ok(())
            } else {
                needs_none(m.name.at, above_parameters(d, d.parent(class)))
            }
        }
        ResultType::Void => Ok(()),
        ResultType::Gives(_) => Ok(()),
    }
}

// The parameters, each with its type and its name.
fn with_parameters<D: Declares, S: InScope>(
    alloc: Global,
    d: &D,
    scope: &mut S,
    parameters: &[Parameter],
) -> Result<(), Stop>
    ensures ok { OnOk result (plain.with_parameters (D.declarations d.now) (map parameter_view parameters.now) (S.scope scope.old) ≡ Ok (S.scope scope.new)) }
    ensures err { IfErr result (IsStop (plain.with_parameters (D.declarations d.now) (map parameter_view parameters.now) (S.scope scope.old))) }
{
    for x in parameters {
        let t = written_type(d, &x.ty)?;
        with_name(alloc, scope, &x.name, t)?;
    }
    Ok(())
}

// A method or constructor.
fn method<D: Declares, S: InScope>(
    alloc: Global,
    d: &D,
    scope: &mut S,
    class: u32,
    m: &MethodDecl,
) -> Result<(), Stop>
    ensures ok { OnOk result (plain.method (D.declarations d.now) class (method_view m.now) (S.scope scope.old) ≡ Ok (S.scope scope.new)) }
    ensures err { IfErr result (IsStop (plain.method (D.declarations d.now) class (method_view m.now) (S.scope scope.old))) }
{
    result_known(d, &m.result)?;
    runs_above(d, class, m)?;
    with_parameters(alloc, d, scope, &m.parameters)?;
    let inside = Method {
        alloc,
        declared: d,
        place: Place {
            class,
            is_static: m.is_static,
        },
        returns: returns_of(d, &m.result),
    };
    stmts(&inside, scope, &m.body)
}

// A member, where nothing is in scope.
fn member<D: Declares, S: InScope>(
    alloc: Global,
    d: &D,
    scope: &mut S,
    class: u32,
    m: &Member,
) -> Result<(), Stop>
    requires { S.scope scope.old ≡ empty_scope }
    ensures ok { OnOk result (plain.member (D.declarations d.now) class (member_view m.now) ≡ Ok (S.scope scope.new)) }
    ensures err { IfErr result (IsStop (plain.member (D.declarations d.now) class (member_view m.now))) }
{
    match m {
        Member::Field(f) => {
            let _type = written_type(d, &f.ty)?;
            Ok(())
        }
        Member::Constant(_) => Ok(()),
        Member::Method(m) => method(alloc, d, scope, class, m),
    }
}

/// Looks for the first refused token of the members of a class. Nothing is in scope before and after.
///
/// # Errors
///
/// The first refused token, and of one token the least number (JLS 6.3, 8, 14, 15); or `NoMemory`.
pub fn judge_members<D: Declares, S: InScope>(
    alloc: Global,
    d: &D,
    scope: &mut S,
    class: u32,
    members: &[Member],
) -> Result<(), Stop>
    requires { S.scope scope.old ≡ empty_scope }
    ensures ok { OnOk result (plain.members (D.declarations d.now) class (map member_view members.now) ≡ Ok empty_scope) }
    ensures empty { OnOk result (S.scope scope.new ≡ empty_scope) }
    ensures err { IfErr result (IsStop (plain.members (D.declarations d.now) class (map member_view members.now))) }
{
    let mark = scope.mark();
    for m in members {
        member(alloc, d, scope, class, m)?;
        scope.leave(mark);
    }
    Ok(())
}
