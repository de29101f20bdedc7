//! Straight code.

ghost use Rattle.std.specs.Prelude.{◌≡◌, map, nat_le};
ghost use Rattle.jd_first_form.specs.Forms as forms;
ghost use Rattle.jd_first_form.specs.Steps as plain;
ghost use Rattle.jd_syntax.specs.Codes.{stmts_of};
ghost use Rattle.jd_syntax.specs.CodeViews.{code_view, expr_view, stmt_view};

use jd_base::Sort;
use jd_syntax::{Code, CodeExpr, CodeStmt};

/// How many statements a body has at most.
const STEP_LIMIT: usize = 100;

// Whether an expression is a literal or a variable of the sort.
fn is_simple(s: Sort, e: &CodeExpr) -> bool
    ensures { result ≡ plain.is_simple s (expr_view e.now) }
{
    match e {
        CodeExpr::IntLiteral(_) => Sort::Int == s,
        CodeExpr::BoolLiteral(_) => Sort::Bool == s,
        CodeExpr::NullLiteral => Sort::Ref == s,
        CodeExpr::Variable(x) => x.sort == s,
        _ => false,
    }
}

// Whether a statement assigns or returns such a one.
fn is_step(s: &CodeStmt) -> bool
    ensures { result ≡ plain.is_step (stmt_view s.now) }
{
    match s {
        CodeStmt::Set(x, e) => is_simple(x.sort, e),
        CodeStmt::Return(e) => is_simple(Sort::Int, e),
        _ => false,
    }
}

fn are_steps(ss: &[CodeStmt]) -> bool
    ensures { result ≡ forms.all_steps (stmts_of (map stmt_view ss.now)) }
{
    for s in ss {
        if !is_step(s) {
            return false;
        }
    }
    true
}

// Whether there are so many at most.
#[tactic(auto, using(crate::proofs::Counts::counted))]
fn are_short(ss: &[CodeStmt]) -> bool
    ensures { result ≡ nat_le (forms.statement_count (stmts_of (map stmt_view ss.now))) forms.step_limit }
{
    ss.len() <= STEP_LIMIT
}

/// Whether code is straight, of so many statements at most.
pub(crate) fn is_straight(code: &Code) -> bool
    ensures { result ≡ forms.is_straight (code_view code.now) }
{
    are_short(&code.stmts) && are_steps(&code.stmts)
}
