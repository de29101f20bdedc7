//! Whether a variable is named in code: it is read, assigned, bound or allocated to, or takes a result.

ghost use Rattle.std.specs.Prelude.{◌≡◌, map, option_map};
ghost use Rattle.jd_syntax.specs.CodeNames.{is_result, named_in_code, named_in_expr, named_in_exprs, named_in_stmt};
ghost use Rattle.jd_syntax.specs.CodeViews.{code_view, expr_view, stmt_view};
ghost use Rattle.jd_syntax.specs.Codes.{exprs_of, stmts_of};
ghost use Rattle.jd_syntax.specs.Names.{var_view};

use jd_syntax::{Code, CodeExpr, CodeStmt, VarId};
use jd_term::is_same;

fn takes_result(r: &Option<VarId>, v: &VarId) -> bool
    ensures { result ≡ is_result (var_view v.now) (option_map var_view r.now) }
{
    match r {
        None => false,
        Some(w) => is_same(v, w),
    }
}

#[cycle(named)]
fn named_in_expr(e: &CodeExpr, v: &VarId) -> bool
    ensures { result ≡ named_in_expr (var_view v.now) (expr_view e.now) }
{
    match e {
        CodeExpr::IntLiteral(_) | CodeExpr::BoolLiteral(_) | CodeExpr::NullLiteral => false,
        CodeExpr::Variable(w) => is_same(v, w),
        CodeExpr::Unary(_, a)
        | CodeExpr::ReadField(a, _)
        | CodeExpr::LengthOf(a)
        | CodeExpr::Cast(_, a)
        | CodeExpr::InstanceOf(_, a) => named_in_expr(a, v),
        CodeExpr::Binary(_, a, b)
        | CodeExpr::AndAlso(a, b)
        | CodeExpr::OrElse(a, b)
        | CodeExpr::ReadElement(a, b) => named_in_expr(a, v) || named_in_expr(b, v),
        CodeExpr::Conditional(a, b, c) => named_in_expr(a, v)
            || named_in_expr(b, v)
            || named_in_expr(c, v),
        CodeExpr::VirtualCall(_, _, a, es) | CodeExpr::ConstructorCall(_, a, es) => named_in_expr(
            a, v,
        ) || named_in_exprs(es, v),
        CodeExpr::StaticCall(_, es) => named_in_exprs(es, v),
        CodeExpr::DoThen(c, a) => named_in_code(c, v) || named_in_expr(a, v),
    }
}

#[cycle(named)]
#[tactic(auto, using(jd_syntax::proofs::Lists::rest))]
fn named_in_exprs(exprs: &[CodeExpr], v: &VarId) -> bool
    ensures { result ≡ named_in_exprs (var_view v.now) (exprs_of (map expr_view exprs.now)) }
{
    for e in exprs {
        if named_in_expr(e, v) {
            return true;
        }
    }
    false
}

#[cycle(named)]
fn named_in_stmt(s: &CodeStmt, v: &VarId) -> bool
    ensures { result ≡ named_in_stmt (var_view v.now) (stmt_view s.now) }
{
    match s {
        CodeStmt::Break(_) | CodeStmt::ReturnVoid | CodeStmt::Raise(_) | CodeStmt::Stop => false,
        CodeStmt::Evaluate(a)
        | CodeStmt::Throw(a)
        | CodeStmt::ThrowUnchecked(a)
        | CodeStmt::Return(a) => named_in_expr(a, v),
        CodeStmt::Set(w, a) | CodeStmt::AllocArray(w, a) | CodeStmt::NewArray(w, a) => is_same(v, w)
            || named_in_expr(a, v),
        CodeStmt::AllocObject(w, _) => is_same(v, w),
        CodeStmt::WriteField(a, _, b) => named_in_expr(a, v) || named_in_expr(b, v),
        CodeStmt::WriteElement(a, b, c) => named_in_expr(a, v)
            || named_in_expr(b, v)
            || named_in_expr(c, v),
        CodeStmt::If(a, c, d) => named_in_expr(a, v) || named_in_code(c, v) || named_in_code(d, v),
        CodeStmt::While(_, a, c) => named_in_expr(a, v) || named_in_code(c, v),
        CodeStmt::Block(_, c) => named_in_code(c, v),
        CodeStmt::Catch(c, w, d) => named_in_code(c, v) || is_same(v, w) || named_in_code(d, v),
        CodeStmt::Finally(c, d) => named_in_code(c, v) || named_in_code(d, v),
        CodeStmt::Frame(r, c) => takes_result(r, v) || named_in_code(c, v),
    }
}

#[cycle(named)]
#[tactic(auto, using(jd_syntax::proofs::Lists::rest))]
fn named_in_stmts(stmts: &[CodeStmt], v: &VarId) -> bool
    ensures { result ≡ named_in_code (var_view v.now) (stmts_of (map stmt_view stmts.now)) }
{
    for s in stmts {
        if named_in_stmt(s, v) {
            return true;
        }
    }
    false
}

/// Whether the variable is named in the code.
#[cycle(named)]
pub(crate) fn named_in_code(code: &Code, v: &VarId) -> bool
    ensures { result ≡ named_in_code (var_view v.now) (code_view code.now) }
{
    named_in_stmts(&code.stmts, v)
}
