//! The focus of code, and the code around it.

ghost use Rattle.std.specs.Prelude.{◌≡◌, ◌↔◌, IsTrue, map, option_map};
ghost use Rattle.jd_syntax.specs.CodeViews.{code_view, stmt_view};
ghost use Rattle.jd_syntax.specs.Codes.{Done, stmts_of};
ghost use Rattle.jd_model.specs.Contexts.{Here};
ghost use Rattle.jd_syntax.specs.CodeNames.{is_empty};
ghost use Rattle.jd_patterns.specs.Foci.{first_in, inside, is_bare, is_outer};
ghost use Rattle.jd_schema_matching.specs.Foci.{begins, context_at, context_in, has_list, test_of};
ghost use Rattle.jd_schema_matching.specs.Tested.{tests};

use crate::tests::{equal_codes, equal_results};
use jd_syntax::{Code, CodeStmt};

/// Which statement is looked for at a focus.
#[derive(Clone, Copy, PartialEq, Eq)]
pub enum FocusTest {
    /// One in which no statement is a focus.
    Bare,
    /// One whose first statement is a focus, and bare.
    Outer,
}

// Whether there is no statement.
#[tactic(auto, using(jd_syntax::proofs::CodeLemmas::code_of))]
fn is_empty(c: &Code) -> bool
    ensures { result ≡ is_empty (code_view c.now) }
{
    match c.stmts.first() {
        None => true,
        Some(_first) => false,
    }
}

// Whether a list of statements stands in it that can have a focus.
fn has_list(s: &CodeStmt) -> bool
    ensures { result ≡ has_list (stmt_view s.now) }
{
    match s {
        CodeStmt::Block(_, _)
        | CodeStmt::Frame(_, _)
        | CodeStmt::Catch(_, _, _)
        | CodeStmt::Finally(_, _) => true,
        _ => false,
    }
}

// Whether no statement inside it is a focus.
pub(crate) fn is_bare(s: &CodeStmt) -> bool
    ensures { result ≡ is_bare (stmt_view s.now) }
{
    match s {
        CodeStmt::Block(_, c)
        | CodeStmt::Frame(_, c)
        | CodeStmt::Catch(c, _, _)
        | CodeStmt::Finally(c, _) => is_empty(c),
        _ => true,
    }
}

// Whether there is a first statement, and it is bare.
#[tactic(auto, using(jd_syntax::proofs::CodeLemmas::code_of))]
fn begins(c: &Code) -> bool
    ensures { result ≡ begins (code_view c.now) }
{
    match c.stmts.first() {
        None => false,
        Some(s) => is_bare(s),
    }
}

// Whether its first statement is a focus, and bare.
fn is_outer(s: &CodeStmt) -> bool
    ensures { result ≡ is_outer (stmt_view s.now) }
{
    match s {
        CodeStmt::Block(_, c)
        | CodeStmt::Frame(_, c)
        | CodeStmt::Catch(c, _, _)
        | CodeStmt::Finally(c, _) => begins(c),
        _ => false,
    }
}

/// Whether the statement is looked for.
pub fn passes(test: FocusTest, s: &CodeStmt) -> bool
    ensures { result ≡ test_of test (stmt_view s.now) }
{
    match test {
        FocusTest::Bare => is_bare(s),
        FocusTest::Outer => is_outer(s),
    }
}

/// The statement at the first focus from outside at which one is looked for.
#[cycle(first_focus)]
pub fn first_focus<'t>(stmts: &'t [CodeStmt], test: FocusTest) -> Option<&'t CodeStmt>
    ensures { option_map (λ s. (context_at test (stmts_of (map stmt_view stmts.now)), stmt_view s.now)) result ≡ first_in (test_of test) (stmts_of (map stmt_view stmts.now)) }
{
    match stmts.split_first() {
        None => None,
        Some((s, rest)) => {
            if passes(test, s) {
                Some(s)
            } else {
                focus_inside(s, rest, test)
            }
        }
    }
}

#[cycle(first_focus)]
fn focus_inside<'t>(s: &'t CodeStmt, rest: &'t [CodeStmt], test: FocusTest) -> Option<&'t CodeStmt>
    ensures { option_map (λ t. (context_in test (stmt_view s.now) (stmts_of (map stmt_view rest.now)), stmt_view t.now)) result ≡ inside (test_of test) (stmt_view s.now) (stmts_of (map stmt_view rest.now)) }
{
    let _behind = rest;
    match s {
        CodeStmt::Block(_, c)
        | CodeStmt::Frame(_, c)
        | CodeStmt::Catch(c, _, _)
        | CodeStmt::Finally(c, _) => first_focus(&c.stmts, test),
        _ => None,
    }
}

// Whether the focus is at the first statement, and what is behind it are these statements.
fn is_here(rest: &[CodeStmt], b: &[CodeStmt], other: FocusTest) -> bool
    ensures { IsTrue result ↔ Here (stmts_of (map stmt_view rest.now)) ≡ context_at other (stmts_of (map stmt_view b.now)) }
{
    match b.split_first() {
        None => equal_codes(rest, b),
        Some((t, further)) => (passes(other, t) || !has_list(t)) && equal_codes(rest, further),
    }
}

#[cycle(equal_contexts)]
fn equal_contexts(a: &[CodeStmt], test: FocusTest, b: &[CodeStmt], other: FocusTest) -> bool
    ensures { IsTrue result ↔ context_at test (stmts_of (map stmt_view a.now)) ≡ context_at other (stmts_of (map stmt_view b.now)) }
{
    match a.split_first() {
        None => is_here(a, b, other),
        Some((s, rest)) => {
            if passes(test, s) || !has_list(s) {
                is_here(rest, b, other)
            } else {
                match b.split_first() {
                    None => false,
                    Some((t, further)) => !passes(other, t)
                        && equal_codes(rest, further)
                        && equal_lists(s, test, t, other),
                }
            }
        }
    }
}

#[cycle(equal_contexts)]
fn equal_lists(s: &CodeStmt, test: FocusTest, t: &CodeStmt, other: FocusTest) -> bool
    ensures { IsTrue result ↔ context_in test (stmt_view s.now) Done ≡ context_in other (stmt_view t.now) Done }
{
    match s {
        CodeStmt::Block(l, c) => match t {
            CodeStmt::Block(k, d) => *l == *k && equal_contexts(&c.stmts, test, &d.stmts, other),
            _ => false,
        },
        CodeStmt::Frame(r, c) => match t {
            CodeStmt::Frame(q, d) => equal_results(r, q)
                && equal_contexts(&c.stmts, test, &d.stmts, other),
            _ => false,
        },
        CodeStmt::Catch(c, x, h) => match t {
            CodeStmt::Catch(d, y, i) => x.equals(y)
                && h.equals(i)
                && equal_contexts(&c.stmts, test, &d.stmts, other),
            _ => false,
        },
        CodeStmt::Finally(c, h) => match t {
            CodeStmt::Finally(d, i) => h.equals(i)
                && equal_contexts(&c.stmts, test, &d.stmts, other),
            _ => false,
        },
        _ => !has_list(t),
    }
}

/// Whether what is around the focus is the same.
pub(crate) fn same_context(
    a: &[CodeStmt],
    test: FocusTest,
    b: &[CodeStmt],
    other: FocusTest,
) -> bool
    ensures { result ≡ tests.context.same (context_at test (stmts_of (map stmt_view a.now))) (context_at other (stmts_of (map stmt_view b.now))) }
{
    equal_contexts(a, test, b, other)
}
