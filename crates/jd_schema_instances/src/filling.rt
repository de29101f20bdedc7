//! The code around a focus, with statements for the focus.

ghost use Rattle.std.specs.Prelude.{map};
ghost use Rattle.jd_code_makers.specs.Makers.{GivesCode, GivesStmt};
ghost use Rattle.jd_model.specs.Contexts.{fill};
ghost use Rattle.jd_schema_matching.specs.Foci.{context_at, context_in};
ghost use Rattle.jd_syntax.specs.Codes.{Catch, PlainCode, stmts_of};
ghost use Rattle.jd_syntax.specs.CodeViews.{code_view, stmt_view};
ghost use Rattle.jd_syntax.specs.Names.{var_view};

use crate::makers::{block, caught, chained, copied, finally, followed, framed};
use crate::parts::copy_result;
use jd_base::NoMemory;
use jd_schema_matching::{FocusTest, passes};
use jd_syntax::{Code, CodeStmt, VarId};
use std::alloc::Global;

// What the code throws is caught by a copy of the handler.
fn caught_by(
    alloc: Global,
    c: Result<Code, NoMemory>,
    v: &VarId,
    handler: &Code,
) -> Result<CodeStmt, NoMemory>
    ensures { (x : PlainCode) → GivesCode c x → GivesStmt result (Catch x (var_view v.now) (code_view handler.now)) }
{
    caught(c, v.copy(alloc), handler.copy(alloc))
}

/// The code with these statements at the first focus from outside whose statement passes the test, and a copy of what is around it.
#[cycle(filled)]
pub(crate) fn filled(
    alloc: Global,
    stmts: &[CodeStmt],
    test: FocusTest,
    inner: Result<Code, NoMemory>,
) -> Result<Code, NoMemory>
    ensures { (x : PlainCode) → GivesCode inner x → GivesCode result (fill (context_at test (stmts_of (map stmt_view stmts.now))) x) }
{
    match stmts.split_first() {
        None => chained(inner, copied(alloc, stmts)),
        Some((s, rest)) => {
            if passes(test, s) {
                chained(inner, copied(alloc, rest))
            } else {
                filled_inside(alloc, s, rest, test, inner)
            }
        }
    }
}

#[cycle(filled)]
fn filled_inside(
    alloc: Global,
    s: &CodeStmt,
    rest: &[CodeStmt],
    test: FocusTest,
    inner: Result<Code, NoMemory>,
) -> Result<Code, NoMemory>
    ensures { (x : PlainCode) → GivesCode inner x → GivesCode result (fill (context_in test (stmt_view s.now) (stmts_of (map stmt_view rest.now))) x) }
{
    match s {
        CodeStmt::Block(l, c) => followed(
            alloc,
            block(*l, filled(alloc, &c.stmts, test, inner)),
            copied(alloc, rest),
        ),
        CodeStmt::Frame(r, c) => followed(
            alloc,
            framed(copy_result(alloc, r), filled(alloc, &c.stmts, test, inner)),
            copied(alloc, rest),
        ),
        CodeStmt::Catch(c, v, d) => followed(
            alloc,
            caught_by(alloc, filled(alloc, &c.stmts, test, inner), v, d),
            copied(alloc, rest),
        ),
        CodeStmt::Finally(c, d) => followed(
            alloc,
            finally(filled(alloc, &c.stmts, test, inner), d.copy(alloc)),
            copied(alloc, rest),
        ),
        _ => chained(inner, copied(alloc, rest)),
    }
}
