//! The calls in statements.

ghost use Rattle.jd_jcalls.specs.Called.{called_view};
ghost use Rattle.jd_jcalls.specs.Calls.{calls_in_declarators, calls_in_for_start, calls_in_handlers, calls_in_optional, calls_in_stmt, calls_in_stmts};
ghost use Rattle.jd_jcalls.specs.Handlers.{java_handler_view};
ghost use Rattle.jd_syntax.specs.JavaTrees.{declarator_view, for_start_view, java_handlers, java_stmt_view, java_view};
ghost use Rattle.std.specs.Prelude.{◌≡◌, ◌++◌, map, option_map, IfOk, OnOk};

use crate::called::Called;
use crate::expressions::{add_expr_calls, add_exprs_calls};
use jd_base::NoMemory;
use jd_syntax::{Declarator, Expr, ForStart, Handler, Stmt, StmtForm};
use std::alloc::Global;

// Adds the calls in an expression that may be left out.
fn add_optional_calls<'a>(e: &'a Option<Expr>, out: &mut Vec<Called<'a>>) -> Result<(), NoMemory>
    ensures { OnOk result (map called_view out.new.items
        ≡ map called_view out.old.items ++ calls_in_optional (option_map java_view e.now)) }
{
    match e {
        None => Ok(()),
        Some(e) => add_expr_calls(e, out),
    }
}

// Adds the calls in the values of declared variables.
#[tactic(auto, using(jd_syntax::proofs::Lists::rest))]
fn add_declarators_calls<'a>(
    declarators: &'a [Declarator],
    out: &mut Vec<Called<'a>>,
) -> Result<(), NoMemory>
    ensures { OnOk result (map called_view out.new.items
        ≡ map called_view out.old.items ++ calls_in_declarators (map declarator_view declarators.now)) }
{
    for declarator in declarators {
        add_optional_calls(&declarator.value, out)?;
    }
    Ok(())
}

// Adds the calls in what stands before the first `;` of a `for`.
fn add_for_start_calls<'a>(start: &'a ForStart, out: &mut Vec<Called<'a>>) -> Result<(), NoMemory>
    ensures { OnOk result (map called_view out.new.items
        ≡ map called_view out.old.items ++ calls_in_for_start (for_start_view start.now)) }
{
    match start {
        ForStart::Declared(_, declarators) => add_declarators_calls(declarators, out),
        ForStart::Evaluated(exprs) => add_exprs_calls(exprs, out),
    }
}

// Adds the calls in a statement.
#[cycle(stmt_calls)]
fn add_stmt_calls<'a>(s: &'a Stmt, out: &mut Vec<Called<'a>>) -> Result<(), NoMemory>
    ensures { OnOk result (map called_view out.new.items
        ≡ map called_view out.old.items ++ calls_in_stmt (java_stmt_view s.now)) }
{
    match &s.form {
        StmtForm::Empty | StmtForm::Break(_) | StmtForm::Continue(_) => Ok(()),
        StmtForm::Block(stmts) => add_stmts_calls(stmts, out),
        StmtForm::Local(_, declarators) => add_declarators_calls(declarators, out),
        StmtForm::Evaluate(e) | StmtForm::Throw(e) => add_expr_calls(e, out),
        StmtForm::Return(e) => add_optional_calls(e, out),
        StmtForm::Label(_, _, body) => add_stmt_calls(body, out),
        StmtForm::If(condition, body) | StmtForm::While(_, condition, body) => {
            add_expr_calls(condition, out)?;
            add_stmt_calls(body, out)
        }
        StmtForm::IfElse(condition, then, otherwise) => {
            add_expr_calls(condition, out)?;
            add_stmt_calls(then, out)?;
            add_stmt_calls(otherwise, out)
        }
        StmtForm::For(_, start, condition, update, body) => {
            add_for_start_calls(start, out)?;
            add_optional_calls(condition, out)?;
            add_exprs_calls(update, out)?;
            add_stmt_calls(body, out)
        }
        StmtForm::Try(stmts, handlers) => {
            add_stmts_calls(stmts, out)?;
            add_handlers_calls(handlers, out)
        }
        StmtForm::TryFinally(stmts, handlers, last) => {
            add_stmts_calls(stmts, out)?;
            add_handlers_calls(handlers, out)?;
            add_stmts_calls(last, out)
        }
        StmtForm::Super(arguments) => {
            out.push(Called::Super)?;
            add_exprs_calls(arguments, out)
        }
    }
}

// Adds the calls in each of the statements.
#[cycle(stmt_calls)]
#[tactic(auto, using(jd_syntax::proofs::Lists::rest))]
fn add_stmts_calls<'a>(stmts: &'a [Stmt], out: &mut Vec<Called<'a>>) -> Result<(), NoMemory>
    ensures { OnOk result (map called_view out.new.items
        ≡ map called_view out.old.items ++ calls_in_stmts (map java_stmt_view stmts.now)) }
{
    for s in stmts {
        add_stmt_calls(s, out)?;
    }
    Ok(())
}

// Adds the calls in each handler of a `try`.
#[cycle(stmt_calls)]
#[tactic(auto, using(jd_syntax::proofs::Lists::rest))]
fn add_handlers_calls<'a>(
    handlers: &'a [Handler],
    out: &mut Vec<Called<'a>>,
) -> Result<(), NoMemory>
    ensures { OnOk result (map called_view out.new.items
        ≡ map called_view out.old.items ++ calls_in_handlers (java_handlers (map java_handler_view handlers.now))) }
{
    for handler in handlers {
        add_stmts_calls(&handler.body, out)?;
    }
    Ok(())
}

/// The calls in a body (JLS 8.8.7.1, 15.9, 15.12), each at its place in the order in which they are
/// written: a method's object stands before its name, arguments behind it. JML has none.
///
/// # Errors
///
/// `NoMemory` if memory runs out.
pub fn calls_of<'a>(alloc: Global, body: &'a [Stmt]) -> Result<Vec<Called<'a>>, NoMemory>
    ensures { IfOk result (λ v. map called_view v.items ≡ calls_in_stmts (map java_stmt_view body.now)) }
{
    let mut out = Vec::new(alloc);
    add_stmts_calls(body, &mut out)?;
    Ok(out)
}
