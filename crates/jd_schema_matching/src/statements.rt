//! Patterns of statements against code.

ghost use Rattle.std.specs.Prelude.{◌≡◌, IfOk, map, nat_eq, not};
ghost use Rattle.jd_syntax.specs.CodeViews.{code_view, stmt_view};
ghost use Rattle.jd_syntax.specs.Codes.{stmts_of};
ghost use Rattle.jd_patterns.specs.Matching.{match_code, match_stmt};
ghost use Rattle.jd_schema_trees.specs.CodeViews.{code_pattern, stmt_pattern};
ghost use Rattle.jd_schema_matching.specs.Bound.{answered};
ghost use Rattle.jd_schema_matching.specs.PartViews.{bindings};
ghost use Rattle.jd_schema_matching.specs.Tested.{tests};

use crate::expressions::{is_return, match_expr};
use crate::found::{Found, bind};
use crate::heads::{match_class, match_name, match_result};
use crate::parts::PartRef;
use jd_base::NoMemory;
use jd_schema_trees::{SCode, SStmt};
use jd_syntax::{Code, CodeStmt};

fn differ(k: u32, l: u32) -> bool
    ensures { result ≡ not (nat_eq k l) }
{
    k != l
}

/// Whether the pattern can stand for the statement, with what was found.
#[cycle(match_code)]
#[tactic(auto, using(jd_syntax::proofs::CodeLemmas::code_of))]
pub fn match_stmt<'t>(
    p: &'t SStmt,
    s: &'t CodeStmt,
    found: &mut Found<'t>,
) -> Result<bool, NoMemory>
    ensures { IfOk result (λ b. answered b (bindings found.new) ≡ match_stmt tests (stmt_pattern p.now) (stmt_view s.now) (bindings found.old)) }
{
    match p {
        SStmt::AnyReturn(n) => Ok(is_return(s) && bind(n, PartRef::Return(s), found)?),
        SStmt::Set(x, e) => match s {
            CodeStmt::Set(y, a) => Ok(match_name(x, y, found)? && match_expr(e, a, found)?),
            _ => Ok(false),
        },
        SStmt::WriteField(e, n, f) => match s {
            CodeStmt::WriteField(a, g, b) => Ok(
                match_expr(e, a, found)?
                    && bind(n, PartRef::Field(*g), found)?
                    && match_expr(f, b, found)?,
            ),
            _ => Ok(false),
        },
        SStmt::WriteElement(e, f, g) => match s {
            CodeStmt::WriteElement(a, b, c) => Ok(
                match_expr(e, a, found)? && match_expr(f, b, found)? && match_expr(g, c, found)?,
            ),
            _ => Ok(false),
        },
        SStmt::Evaluate(e) => match s {
            CodeStmt::Evaluate(a) => match_expr(e, a, found),
            _ => Ok(false),
        },
        SStmt::If(e, c, d) => match s {
            CodeStmt::If(a, b, f) => Ok(
                match_expr(e, a, found)?
                    && match_code(c, &b.stmts, found)?
                    && match_code(d, &f.stmts, found)?,
            ),
            _ => Ok(false),
        },
        SStmt::Block(n, c) => match s {
            CodeStmt::Block(l, b) => Ok(
                bind(n, PartRef::Label(*l), found)? && match_code(c, &b.stmts, found)?,
            ),
            _ => Ok(false),
        },
        SStmt::BlockPast(n, m, c) => match s {
            CodeStmt::Block(l, b) => match b.stmts.split_first() {
                None => Ok(false),
                Some((first, rest)) => match first {
                    CodeStmt::Break(k) => Ok(
                        differ(*k, *l)
                            && bind(n, PartRef::Label(*l), found)?
                            && bind(m, PartRef::Label(*k), found)?
                            && match_code(c, rest, found)?,
                    ),
                    _ => Ok(false),
                },
            },
            _ => Ok(false),
        },
        SStmt::Break(n) => match s {
            CodeStmt::Break(l) => bind(n, PartRef::Label(*l), found),
            _ => Ok(false),
        },
        SStmt::Catch(c, x, d) => match s {
            CodeStmt::Catch(a, y, b) => Ok(
                match_code(c, &a.stmts, found)?
                    && match_name(x, y, found)?
                    && match_code(d, &b.stmts, found)?,
            ),
            _ => Ok(false),
        },
        SStmt::Finally(c, d) => match s {
            CodeStmt::Finally(a, b) => Ok(
                match_code(c, &a.stmts, found)? && match_code(d, &b.stmts, found)?,
            ),
            _ => Ok(false),
        },
        SStmt::Throw(e) => match s {
            CodeStmt::Throw(a) => match_expr(e, a, found),
            _ => Ok(false),
        },
        SStmt::ThrowUnchecked(e) => match s {
            CodeStmt::ThrowUnchecked(a) => match_expr(e, a, found),
            _ => Ok(false),
        },
        SStmt::Return(e) => match s {
            CodeStmt::Return(a) => match_expr(e, a, found),
            _ => Ok(false),
        },
        SStmt::ReturnVoid => match s {
            CodeStmt::ReturnVoid => Ok(true),
            _ => Ok(false),
        },
        SStmt::Frame(r, c) => match s {
            CodeStmt::Frame(q, b) => Ok(
                match_result(r, q, found)? && match_code(c, &b.stmts, found)?,
            ),
            _ => Ok(false),
        },
        SStmt::Raise(c) => match s {
            CodeStmt::Raise(d) => match_class(c, *d, found),
            _ => Ok(false),
        },
        SStmt::NewArray(x, e) => match s {
            CodeStmt::NewArray(y, a) => Ok(match_name(x, y, found)? && match_expr(e, a, found)?),
            _ => Ok(false),
        },
        SStmt::AllocObject(_, _) | SStmt::AllocArray(_, _) => Ok(false),
        SStmt::Stop => match s {
            CodeStmt::Stop => Ok(true),
            _ => Ok(false),
        },
    }
}

/// Whether the pattern can stand for the statements, with what was found.
#[cycle(match_code)]
pub fn match_code<'t>(
    p: &'t SCode,
    c: &'t [CodeStmt],
    found: &mut Found<'t>,
) -> Result<bool, NoMemory>
    ensures { IfOk result (λ b. answered b (bindings found.new) ≡ match_code tests (code_pattern p.now) (stmts_of (map stmt_view c.now)) (bindings found.old)) }
{
    match p {
        SCode::Done => match c.split_first() {
            None => Ok(true),
            Some(_more) => Ok(false),
        },
        SCode::Then(s, d) => match c.split_first() {
            None => Ok(false),
            Some((t, rest)) => Ok(match_stmt(s, t, found)? && match_code(d, rest, found)?),
        },
        SCode::AnyThen(n, d) => match &**d {
            SCode::Done => bind(n, PartRef::Code(c), found),
            _ => Ok(false),
        },
    }
}

/// Whether the pattern can stand for the code, with what was found.
#[tactic(auto, using(jd_syntax::proofs::CodeLemmas::code_of))]
pub fn match_whole<'t>(p: &'t SCode, c: &'t Code, found: &mut Found<'t>) -> Result<bool, NoMemory>
    ensures { IfOk result (λ b. answered b (bindings found.new) ≡ match_code tests (code_pattern p.now) (code_view c.now) (bindings found.old)) }
{
    match_code(p, &c.stmts, found)
}
