//! The clauses of the JML in statements put in.

ghost use Rattle.std.specs.Prelude.{◌≡◌, ℕ, map};
ghost use Rattle.jd_lex.specs.View.{tokens_view};
ghost use Rattle.jd_syntax.specs.JavaTrees.{java_handlers, java_stmt_view, java_stmts};
ghost use Rattle.jd_jcalls.specs.Handlers.{java_handler_view};
ghost use Rattle.jd_jmlparse.specs.Filled.{bare_handler, bare_handlers, bare_stmt, bare_stmts, handler_blocks, handlers_blocks, stmt_blocks, stmts_blocks};
ghost use Rattle.jd_jmlparse.specs.Filling.{Goes, form_view};

use super::blocks::{discard, fill_optional};
use super::refused::Cause;
use jd_lex::Token;
use jd_syntax::{Handler, Stmt, StmtForm};
use std::alloc::Global;
use std::mem;

// The form of a statement with the clauses of its JML put in.
#[cycle(filling)]
fn filled_form(
    alloc: Global,
    form: StmtForm,
    tokens: &[Token],
    first: Option<Cause>,
) -> (StmtForm, Option<Cause>)
    ensures same { (at : ℕ) → bare_stmt (form_view result.0 at) ≡ bare_stmt (form_view form at) }
    ensures goes { (at : ℕ) → Goes (tokens_view tokens.now) first (stmt_blocks (form_view result.0 at)) result.1 }
{
    match form {
        StmtForm::Block(mut stmts) => {
            let first = fill_stmts(alloc, &mut stmts, tokens, first);
            (StmtForm::Block(stmts), first)
        }
        StmtForm::If(condition, mut body) => {
            let first = fill_stmt(alloc, &mut body, tokens, first);
            (StmtForm::If(condition, body), first)
        }
        StmtForm::Label(mut specs, name, mut body) => {
            let first = fill_optional(alloc, &mut specs, tokens, first);
            let first = fill_stmt(alloc, &mut body, tokens, first);
            (StmtForm::Label(specs, name, body), first)
        }
        StmtForm::While(mut specs, condition, mut body) => {
            let first = fill_optional(alloc, &mut specs, tokens, first);
            let first = fill_stmt(alloc, &mut body, tokens, first);
            (StmtForm::While(specs, condition, body), first)
        }
        StmtForm::For(mut specs, start, condition, update, mut body) => {
            let first = fill_optional(alloc, &mut specs, tokens, first);
            let first = fill_stmt(alloc, &mut body, tokens, first);
            (StmtForm::For(specs, start, condition, update, body), first)
        }
        StmtForm::IfElse(condition, mut then, mut otherwise) => {
            let first = fill_stmt(alloc, &mut then, tokens, first);
            let first = fill_stmt(alloc, &mut otherwise, tokens, first);
            (StmtForm::IfElse(condition, then, otherwise), first)
        }
        StmtForm::Try(mut stmts, mut handlers) => {
            let first = fill_stmts(alloc, &mut stmts, tokens, first);
            let first = fill_handlers(alloc, &mut handlers, tokens, first);
            (StmtForm::Try(stmts, handlers), first)
        }
        StmtForm::TryFinally(mut stmts, mut handlers, mut last) => {
            let first = fill_stmts(alloc, &mut stmts, tokens, first);
            let first = fill_handlers(alloc, &mut handlers, tokens, first);
            let first = fill_stmts(alloc, &mut last, tokens, first);
            (StmtForm::TryFinally(stmts, handlers, last), first)
        }
        StmtForm::Empty => (StmtForm::Empty, first),
        StmtForm::Local(ty, declarators) => (StmtForm::Local(ty, declarators), first),
        StmtForm::Evaluate(e) => (StmtForm::Evaluate(e), first),
        StmtForm::Break(label) => (StmtForm::Break(label), first),
        StmtForm::Continue(label) => (StmtForm::Continue(label), first),
        StmtForm::Return(e) => (StmtForm::Return(e), first),
        StmtForm::Throw(e) => (StmtForm::Throw(e), first),
        StmtForm::Super(arguments) => (StmtForm::Super(arguments), first),
    }
}

// Puts the clauses of the JML in a statement in.
#[cycle(filling)]
fn fill_stmt(alloc: Global, s: &mut Stmt, tokens: &[Token], first: Option<Cause>) -> Option<Cause>
    ensures same { bare_stmt (java_stmt_view s.new) ≡ bare_stmt (java_stmt_view s.old) }
    ensures goes { Goes (tokens_view tokens.now) first (stmt_blocks (java_stmt_view s.new)) result }
{
    let form = mem::replace(&mut s.form, StmtForm::Empty);
    let (form, first) = filled_form(alloc, form, tokens, first);
    discard(mem::replace(&mut s.form, form));
    first
}

// Puts the clauses of the JML in statements in.
#[cycle(filling)]
#[tactic(auto, using(crate::proofs::Going::going))]
pub(super) fn fill_stmts(
    alloc: Global,
    stmts: &mut [Stmt],
    tokens: &[Token],
    first: Option<Cause>,
) -> Option<Cause>
    ensures same { bare_stmts (java_stmts (map java_stmt_view stmts.new)) ≡ bare_stmts (java_stmts (map java_stmt_view stmts.old)) }
    ensures goes { Goes (tokens_view tokens.now) first (stmts_blocks (java_stmts (map java_stmt_view stmts.new))) result }
{
    let mut first = first;
    for i in 0..stmts.len() {
        first = fill_stmt(alloc, &mut stmts[i], tokens, first);
    }
    first
}

// Puts the clauses of the JML in a handler in.
#[cycle(filling)]
fn fill_handler(
    alloc: Global,
    handler: &mut Handler,
    tokens: &[Token],
    first: Option<Cause>,
) -> Option<Cause>
    ensures same { bare_handler (java_handler_view handler.new) ≡ bare_handler (java_handler_view handler.old) }
    ensures goes { Goes (tokens_view tokens.now) first (handler_blocks (java_handler_view handler.new)) result }
{
    fill_stmts(alloc, &mut handler.body, tokens, first)
}

// Puts the clauses of the JML in handlers in.
#[cycle(filling)]
#[tactic(auto, using(crate::proofs::Going::going))]
fn fill_handlers(
    alloc: Global,
    handlers: &mut [Handler],
    tokens: &[Token],
    first: Option<Cause>,
) -> Option<Cause>
    ensures same { bare_handlers (java_handlers (map java_handler_view handlers.new)) ≡ bare_handlers (java_handlers (map java_handler_view handlers.old)) }
    ensures goes { Goes (tokens_view tokens.now) first (handlers_blocks (java_handlers (map java_handler_view handlers.new))) result }
{
    let mut first = first;
    for i in 0..handlers.len() {
        first = fill_handler(alloc, &mut handlers[i], tokens, first);
    }
    first
}
