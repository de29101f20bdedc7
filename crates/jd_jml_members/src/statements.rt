//! Which clause of the loops in a statement is refused first.

ghost use Rattle.std.specs.Prelude.{◌≡◌, IfErr, Ok, OnOk, map, option_map};
ghost use Rattle.std.specs.Option.{option_copied};
ghost use Rattle.jd_jcalls.specs.Handlers.{java_handler_view};
ghost use Rattle.jd_jml_judging.specs.Contexts.{said, sofar_view};
ghost use Rattle.jd_jml_judging.specs.Visible.{locals_of};
ghost use Rattle.jd_jml_members.specs.Judged.{IsStop};
ghost use Rattle.jd_specifications.specs.Refused as plain;
ghost use Rattle.jd_syntax.specs.JavaTrees.{java_handlers, java_stmt_view, java_stmts};
ghost use Rattle.jd_syntax.specs.SpecTrees.{spec_block_view};

use crate::entering::{Method, enter_caught, enter_declared, enter_for, enter_loop};
use crate::stop::Stop;
use jd_jml_judging::{Around, MethodNames, Sofar, at_first, clauses};
use jd_judging::type_by;
use jd_naming::Declares;
use jd_specifications::SpecFault;
use jd_syntax::{Handler, SpecBlock, Stmt, StmtForm};

// The clauses of a loop at one place, if there are any.
fn loop_clauses<D: Declares>(
    m: &Method<'_, D>,
    names: &MethodNames,
    sofar: Sofar,
    block: Option<&SpecBlock>,
) -> Result<Sofar, SpecFault>
    ensures { said result ≡ plain.optional_block (D.declarations m.now.declared.now) (plain.around (D.declarations m.now.declared.now) m.now.place (locals_of names.now)) (sofar_view sofar) (option_map spec_block_view (option_copied block.entry)) }
{
    match block {
        None => Ok(sofar),
        Some(b) => {
            let around = Around {
                declared: m.declared,
                names: &*names,
                place: m.place,
                result: None,
            };
            clauses(&around, sofar, &b.clauses)
        }
    }
}

// The loops in a statement; a loop has the clauses before its labels too.
#[cycle(stmt)]
fn stmt<D: Declares>(
    m: &Method<'_, D>,
    names: &mut MethodNames,
    sofar: Sofar,
    s: &Stmt,
) -> Result<(), Stop>
    ensures ok { OnOk result (plain.stmt (D.declarations m.now.declared.now) m.now.place (sofar_view sofar) (java_stmt_view s.now) (locals_of names.old) ≡ Ok (locals_of names.new)) }
    ensures err { IfErr result (IsStop (plain.stmt (D.declarations m.now.declared.now) m.now.place (sofar_view sofar) (java_stmt_view s.now) (locals_of names.old))) }
{
    match &s.form {
        StmtForm::Block(ss) => {
            let mark = names.mark();
            stmts(m, names, ss)?;
            names.leave(mark);
            Ok(())
        }
        StmtForm::Local(w, xs) => {
            let value = type_by(m.declared, &w.written);
            enter_declared(m, names, value, xs)?;
            Ok(())
        }
        StmtForm::Label(block, _, inner) => {
            let mark = names.mark();
            enter_loop(m, names, inner)?;
            let behind = loop_clauses(m, names, sofar, block.as_ref())?;
            names.leave(mark);
            stmt(m, names, behind, inner)?;
            names.leave(mark);
            Ok(())
        }
        StmtForm::If(_, inner) => {
            let mark = names.mark();
            stmt(m, names, at_first(), inner)?;
            names.leave(mark);
            Ok(())
        }
        StmtForm::IfElse(_, first, second) => {
            let mark = names.mark();
            stmt(m, names, at_first(), first)?;
            names.leave(mark);
            stmt(m, names, at_first(), second)?;
            names.leave(mark);
            Ok(())
        }
        StmtForm::While(block, _, inner) => {
            loop_clauses(m, names, sofar, block.as_ref())?;
            let mark = names.mark();
            stmt(m, names, at_first(), inner)?;
            names.leave(mark);
            Ok(())
        }
        StmtForm::For(block, start, _, _, inner) => {
            let mark = names.mark();
            enter_for(m, names, start)?;
            loop_clauses(m, names, sofar, block.as_ref())?;
            stmt(m, names, at_first(), inner)?;
            names.leave(mark);
            Ok(())
        }
        StmtForm::Try(ss, hs) => {
            let mark = names.mark();
            stmts(m, names, ss)?;
            names.leave(mark);
            handlers(m, names, hs)?;
            Ok(())
        }
        StmtForm::TryFinally(ss, hs, fs) => {
            let mark = names.mark();
            stmts(m, names, ss)?;
            names.leave(mark);
            handlers(m, names, hs)?;
            stmts(m, names, fs)?;
            names.leave(mark);
            Ok(())
        }
        StmtForm::Empty
        | StmtForm::Evaluate(_)
        | StmtForm::Break(_)
        | StmtForm::Continue(_)
        | StmtForm::Return(_)
        | StmtForm::Throw(_)
        | StmtForm::Super(_) => Ok(()),
    }
}

/// The loops in statements, one behind the other.
#[cycle(stmt)]
pub(crate) fn stmts<D: Declares>(
    m: &Method<'_, D>,
    names: &mut MethodNames,
    ss: &[Stmt],
) -> Result<(), Stop>
    ensures ok { OnOk result (plain.stmts (D.declarations m.now.declared.now) m.now.place (java_stmts (map java_stmt_view ss.now)) (locals_of names.old) ≡ Ok (locals_of names.new)) }
    ensures err { IfErr result (IsStop (plain.stmts (D.declarations m.now.declared.now) m.now.place (java_stmts (map java_stmt_view ss.now)) (locals_of names.old))) }
{
    for s in ss {
        stmt(m, names, at_first(), s)?;
    }
    Ok(())
}

// The loops in the handlers of a `try`.
#[cycle(stmt)]
fn handlers<D: Declares>(
    m: &Method<'_, D>,
    names: &mut MethodNames,
    hs: &[Handler],
) -> Result<(), Stop>
    ensures ok { OnOk result (plain.handlers (D.declarations m.now.declared.now) m.now.place (java_handlers (map java_handler_view hs.now)) (locals_of names.old) ≡ Ok (locals_of names.new)) }
    ensures err { IfErr result (IsStop (plain.handlers (D.declarations m.now.declared.now) m.now.place (java_handlers (map java_handler_view hs.now)) (locals_of names.old))) }
{
    let mark = names.mark();
    for handler in hs {
        enter_caught(m, names, &handler.class, &handler.name)?;
        stmts(m, names, &handler.body)?;
        names.leave(mark);
    }
    Ok(())
}
