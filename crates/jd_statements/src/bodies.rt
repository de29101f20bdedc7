//! Which statement of a body is refused first.

ghost use Rattle.std.specs.Prelude.{◌≡◌, IfErr, Ok, OnOk, map};
ghost use Rattle.jd_bodies.specs.Statements as plain;
ghost use Rattle.jd_jcalls.specs.Handlers.{java_handler_view};
ghost use Rattle.jd_statements.specs.Judged.{IsStop};
ghost use Rattle.jd_syntax.specs.JavaTrees.{java_handlers, java_stmt_view, java_stmts};

use crate::statements::{
    Method, broken, caught, constructed, continued, declared, effect, for_head, is_loop, part,
    returned, while_head,
};
use crate::stop::Stop;
use jd_bodies::ValueType;
use jd_naming::{Declares, InScope};
use jd_syntax::{Handler, Stmt, StmtForm};

// A statement.
#[cycle(stmt)]
fn stmt<D: Declares, S: InScope>(m: &Method<'_, D>, scope: &mut S, s: &Stmt) -> Result<(), Stop>
    ensures ok { OnOk result (plain.stmt (D.declarations m.now.declared.now) m.now.place m.now.returns (java_stmt_view s.now) (S.scope scope.old) ≡ Ok (S.scope scope.new)) }
    ensures err { IfErr result (IsStop (plain.stmt (D.declarations m.now.declared.now) m.now.place m.now.returns (java_stmt_view s.now) (S.scope scope.old))) }
{
    match &s.form {
        StmtForm::Block(ss) => {
            let mark = scope.mark();
            stmts(m, scope, ss)?;
            scope.leave(mark);
            Ok(())
        }
        StmtForm::Empty => Ok(()),
        StmtForm::Local(w, xs) => declared(m, scope, w, xs),
        StmtForm::Evaluate(e) => {
            effect(m, scope, e)?;
            Ok(())
        }
        StmtForm::Label(_, l, inner) => {
            let mark = scope.mark();
            scope.enter_label(m.alloc, l, is_loop(inner))?;
            stmt(m, scope, inner)?;
            scope.leave(mark);
            Ok(())
        }
        StmtForm::If(c, inner) => {
            let mark = scope.mark();
            part(m, scope, ValueType::Boolean, c)?;
            stmt(m, scope, inner)?;
            scope.leave(mark);
            Ok(())
        }
        StmtForm::IfElse(c, first, second) => {
            let mark = scope.mark();
            part(m, scope, ValueType::Boolean, c)?;
            stmt(m, scope, first)?;
            stmt(m, scope, second)?;
            scope.leave(mark);
            Ok(())
        }
        StmtForm::While(_, c, inner) => {
            let mark = scope.mark();
            while_head(m, scope, c)?;
            stmt(m, scope, inner)?;
            scope.leave(mark);
            Ok(())
        }
        StmtForm::For(_, start, c, update, inner) => {
            let mark = scope.mark();
            for_head(m, scope, start, c.as_ref(), update)?;
            stmt(m, scope, inner)?;
            scope.leave(mark);
            Ok(())
        }
        StmtForm::Break(l) => {
            broken(scope, s.at, l.as_ref())?;
            Ok(())
        }
        StmtForm::Continue(l) => {
            continued(scope, s.at, l.as_ref())?;
            Ok(())
        }
        StmtForm::Return(e) => {
            returned(m, scope, s.at, e.as_ref())?;
            Ok(())
        }
        StmtForm::Throw(e) => {
            part(m, scope, ValueType::Class(1), e)?;
            Ok(())
        }
        StmtForm::Try(ss, hs) => {
            let mark = scope.mark();
            stmts(m, scope, ss)?;
            scope.leave(mark);
            handlers(m, scope, hs)
        }
        StmtForm::TryFinally(ss, hs, fs) => {
            let mark = scope.mark();
            stmts(m, scope, ss)?;
            scope.leave(mark);
            handlers(m, scope, hs)?;
            stmts(m, scope, fs)?;
            scope.leave(mark);
            Ok(())
        }
        StmtForm::Super(es) => {
            constructed(m, scope, s.at, es)?;
            Ok(())
        }
    }
}

/// Statements, one behind the other.
#[cycle(stmt)]
pub(crate) fn stmts<D: Declares, S: InScope>(
    m: &Method<'_, D>,
    scope: &mut S,
    ss: &[Stmt],
) -> Result<(), Stop>
    ensures ok { OnOk result (plain.stmts (D.declarations m.now.declared.now) m.now.place m.now.returns (java_stmts (map java_stmt_view ss.now)) (S.scope scope.old) ≡ Ok (S.scope scope.new)) }
    ensures err { IfErr result (IsStop (plain.stmts (D.declarations m.now.declared.now) m.now.place m.now.returns (java_stmts (map java_stmt_view ss.now)) (S.scope scope.old))) }
{
    for s in ss {
        stmt(m, scope, s)?;
    }
    Ok(())
}

// The handlers of a `try`.
#[cycle(stmt)]
fn handlers<D: Declares, S: InScope>(
    m: &Method<'_, D>,
    scope: &mut S,
    hs: &[Handler],
) -> Result<(), Stop>
    ensures ok { OnOk result (plain.handlers (D.declarations m.now.declared.now) m.now.place m.now.returns (java_handlers (map java_handler_view hs.now)) (S.scope scope.old) ≡ Ok (S.scope scope.new)) }
    ensures err { IfErr result (IsStop (plain.handlers (D.declarations m.now.declared.now) m.now.place m.now.returns (java_handlers (map java_handler_view hs.now)) (S.scope scope.old))) }
{
    let mark = scope.mark();
    for handler in hs {
        caught(m, scope, &handler.class, &handler.name)?;
        stmts(m, scope, &handler.body)?;
        scope.leave(mark);
    }
    Ok(())
}
