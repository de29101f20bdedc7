//! Makers of code: each takes the results of its parts and gives the result of the whole. The error is `NoMemory` alone.

ghost use Rattle.std.specs.Prelude.{map, Option};
ghost use Rattle.jd_code_makers.specs.Makers.{GivesCode, GivesExpr, GivesName, GivesStmt};
ghost use Rattle.jd_model.specs.Contexts.{chain};
ghost use Rattle.jd_schema_instances.specs.Made.{GivesResult};
ghost use Rattle.jd_syntax.specs.Codes as plain;
ghost use Rattle.jd_syntax.specs.Codes.{Expr, PlainCode, Stmt, Then, stmts_of};
ghost use Rattle.jd_syntax.specs.CodeViews.{code_view, stmt_view};
ghost use Rattle.jd_syntax.specs.Names.{Name};

use jd_base::{NoMemory, both};
use jd_code_makers::{appended_stmts, code_in, no_stmts, one_stmt, with_stmt};
use jd_syntax::{Code, CodeExpr, CodeStmt, VarId};
use std::alloc::Global;

/// No statement.
pub(crate) fn no_code(alloc: Global) -> Result<Code, NoMemory>
    ensures { GivesCode result plain.Done }
{
    code_in(no_stmts(alloc))
}

/// A copy of the statements.
pub(crate) fn copied(alloc: Global, stmts: &[CodeStmt]) -> Result<Code, NoMemory>
    ensures { GivesCode result (stmts_of (map stmt_view stmts.now)) }
{
    let mut made = no_stmts(alloc);
    for s in stmts {
        made = with_stmt(made, s.copy(alloc));
    }
    code_in(made)
}

fn joined(a: Code, b: Code) -> Result<Code, NoMemory>
    ensures { GivesCode result (chain (code_view a) (code_view b)) }
{
    code_in(appended_stmts(Ok(a.stmts), Ok(b.stmts)))
}

/// One code after another.
pub(crate) fn chained(
    a: Result<Code, NoMemory>,
    b: Result<Code, NoMemory>,
) -> Result<Code, NoMemory>
    ensures { (x y : PlainCode) → GivesCode a x → GivesCode b y → GivesCode result (chain x y) }
{
    let (a, b) = both(a, b)?;
    joined(a, b)
}

/// A statement alone.
pub(crate) fn alone(alloc: Global, s: Result<CodeStmt, NoMemory>) -> Result<Code, NoMemory>
    ensures { (x : Stmt) → GivesStmt s x → GivesCode result (Then x plain.Done) }
{
    code_in(one_stmt(alloc, s))
}

/// A statement, and others behind it.
pub(crate) fn followed(
    alloc: Global,
    s: Result<CodeStmt, NoMemory>,
    c: Result<Code, NoMemory>,
) -> Result<Code, NoMemory>
    ensures { (x : Stmt) (y : PlainCode) → GivesStmt s x → GivesCode c y → GivesCode result (Then x y) }
{
    chained(alone(alloc, s), c)
}

/// `(if a (s..) (s..))`
pub(crate) fn choice(
    a: Result<CodeExpr, NoMemory>,
    c: Result<Code, NoMemory>,
    d: Result<Code, NoMemory>,
) -> Result<CodeStmt, NoMemory>
    ensures { (x : Expr) (y z : PlainCode) → GivesExpr a x → GivesCode c y → GivesCode d z → GivesStmt result (plain.If x y z) }
{
    let (a, (c, d)) = both(a, both(c, d))?;
    Ok(CodeStmt::If(a, c, d))
}

/// `(block l (s..))`
pub(crate) fn block(label: u32, c: Result<Code, NoMemory>) -> Result<CodeStmt, NoMemory>
    ensures { (y : PlainCode) → GivesCode c y → GivesStmt result (plain.Block label y) }
{
    Ok(CodeStmt::Block(label, c?))
}

/// `(break l)`
pub(crate) fn break_to(label: u32) -> Result<CodeStmt, NoMemory>
    ensures { GivesStmt result (plain.Break label) }
{
    Ok(CodeStmt::Break(label))
}

/// `(catch (s..) x (s..))`
pub(crate) fn caught(
    c: Result<Code, NoMemory>,
    v: Result<VarId, NoMemory>,
    d: Result<Code, NoMemory>,
) -> Result<CodeStmt, NoMemory>
    ensures { (x : PlainCode) (n : Name) (y : PlainCode) → GivesCode c x → GivesName v n → GivesCode d y → GivesStmt result (plain.Catch x n y) }
{
    let (c, (v, d)) = both(c, both(v, d))?;
    Ok(CodeStmt::Catch(c, v, d))
}

/// `(finally (s..) (s..))`
pub(crate) fn finally(
    c: Result<Code, NoMemory>,
    d: Result<Code, NoMemory>,
) -> Result<CodeStmt, NoMemory>
    ensures { (x y : PlainCode) → GivesCode c x → GivesCode d y → GivesStmt result (plain.Finally x y) }
{
    let (c, d) = both(c, d)?;
    Ok(CodeStmt::Finally(c, d))
}

/// `(frame r (s..))`
pub(crate) fn framed(
    r: Result<Option<VarId>, NoMemory>,
    c: Result<Code, NoMemory>,
) -> Result<CodeStmt, NoMemory>
    ensures { (x : Option Name) (y : PlainCode) → GivesResult r x → GivesCode c y → GivesStmt result (plain.Frame x y) }
{
    let (r, c) = both(r, c)?;
    Ok(CodeStmt::Frame(r, c))
}

/// `(alloc x (arr a))`
pub(crate) fn alloc_array(
    v: Result<VarId, NoMemory>,
    a: Result<CodeExpr, NoMemory>,
) -> Result<CodeStmt, NoMemory>
    ensures { (n : Name) (x : Expr) → GivesName v n → GivesExpr a x → GivesStmt result (plain.AllocArray n x) }
{
    let (v, a) = both(v, a)?;
    Ok(CodeStmt::AllocArray(v, a))
}
