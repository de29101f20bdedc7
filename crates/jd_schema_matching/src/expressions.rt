//! Patterns of code against code.

ghost use Rattle.std.specs.Prelude.{◌≡◌, IfOk};
ghost use Rattle.jd_syntax.specs.CodeNames as names;
ghost use Rattle.jd_syntax.specs.CodeViews.{expr_view, stmt_view};
ghost use Rattle.jd_patterns.specs.Instances.{is_return, is_simple, is_simple_of};
ghost use Rattle.jd_patterns.specs.Matching.{match_expr};
ghost use Rattle.jd_schema_trees.specs.CodeViews.{expr_pattern};
ghost use Rattle.jd_schema_matching.specs.Bound.{answered};
ghost use Rattle.jd_schema_matching.specs.PartViews.{bindings};
ghost use Rattle.jd_schema_matching.specs.Tested.{tests};

use crate::found::{Found, bind};
use crate::heads::{match_kind, match_name};
use crate::parts::PartRef;
use crate::tests::{same_binary, same_unary};
use jd_base::{NoMemory, Sort};
use jd_schema_trees::SExpr;
use jd_syntax::{CodeExpr, CodeStmt};

fn is_sort(s: Sort, r: Sort) -> bool
    ensures { result ≡ names.same_sort s r }
{
    match (s, r) {
        (Sort::Int, Sort::Int)
        | (Sort::Bool, Sort::Bool)
        | (Sort::Ref, Sort::Ref)
        | (Sort::Heap, Sort::Heap)
        | (Sort::Field, Sort::Field) => true,
        _ => false,
    }
}

// Whether it is a literal or a variable.
fn is_simple(e: &CodeExpr) -> bool
    ensures { result ≡ is_simple (expr_view e.now) }
{
    match e {
        CodeExpr::IntLiteral(_)
        | CodeExpr::BoolLiteral(_)
        | CodeExpr::NullLiteral
        | CodeExpr::Variable(_) => true,
        _ => false,
    }
}

// Whether it is a literal or a variable of the sort.
fn is_simple_of(s: Sort, e: &CodeExpr) -> bool
    ensures { result ≡ is_simple_of s (expr_view e.now) }
{
    match e {
        CodeExpr::IntLiteral(_) => is_sort(s, Sort::Int),
        CodeExpr::BoolLiteral(_) => is_sort(s, Sort::Bool),
        CodeExpr::NullLiteral => is_sort(s, Sort::Ref),
        CodeExpr::Variable(x) => is_sort(s, x.sort),
        _ => false,
    }
}

// Whether it is a `return` of a simple expression or of no value.
pub(crate) fn is_return(s: &CodeStmt) -> bool
    ensures { result ≡ is_return (stmt_view s.now) }
{
    match s {
        CodeStmt::Return(e) => is_simple(e),
        CodeStmt::ReturnVoid => true,
        _ => false,
    }
}

/// Whether the pattern can stand for the expression, with what was found.
pub fn match_expr<'t>(
    p: &'t SExpr,
    e: &'t CodeExpr,
    found: &mut Found<'t>,
) -> Result<bool, NoMemory>
    ensures { IfOk result (λ b. answered b (bindings found.new) ≡ match_expr tests (expr_pattern p.now) (expr_view e.now) (bindings found.old)) }
{
    match p {
        SExpr::Simple(n) => Ok(is_simple(e) && bind(n, PartRef::Simple(e), found)?),
        SExpr::SimpleOf(s, n) => Ok(is_simple_of(*s, e) && bind(n, PartRef::Simple(e), found)?),
        SExpr::Variable(x) => match e {
            CodeExpr::Variable(y) => match_name(x, y, found),
            _ => Ok(false),
        },
        SExpr::Unary(op, p) => match e {
            CodeExpr::Unary(o, a) => Ok(same_unary(*op, *o) && match_expr(p, a, found)?),
            _ => Ok(false),
        },
        SExpr::Binary(op, p, q) => match e {
            CodeExpr::Binary(o, a, b) => Ok(
                same_binary(*op, *o) && match_expr(p, a, found)? && match_expr(q, b, found)?,
            ),
            _ => Ok(false),
        },
        SExpr::ReadField(p, n) => match e {
            CodeExpr::ReadField(a, f) => Ok(
                match_expr(p, a, found)? && bind(n, PartRef::Field(*f), found)?,
            ),
            _ => Ok(false),
        },
        SExpr::ReadElement(p, q) => match e {
            CodeExpr::ReadElement(a, b) => Ok(match_expr(p, a, found)? && match_expr(q, b, found)?),
            _ => Ok(false),
        },
        SExpr::LengthOf(p) => match e {
            CodeExpr::LengthOf(a) => match_expr(p, a, found),
            _ => Ok(false),
        },
        SExpr::Cast(k, p) => match e {
            CodeExpr::Cast(l, a) => Ok(match_kind(k, *l, found)? && match_expr(p, a, found)?),
            _ => Ok(false),
        },
        SExpr::InstanceOf(k, p) => match e {
            CodeExpr::InstanceOf(l, a) => Ok(match_kind(k, *l, found)? && match_expr(p, a, found)?),
            _ => Ok(false),
        },
    }
}
