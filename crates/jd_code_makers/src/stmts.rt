//! Statements.

ghost use Rattle.std.specs.Prelude.{ℕ, List};
ghost use Rattle.jd_code_makers.specs.Makers.{GivesExpr, GivesName, GivesNumber, GivesStmt, GivesStmts};
ghost use Rattle.jd_syntax.specs.Codes as plain;
ghost use Rattle.jd_syntax.specs.Codes.{Expr, Stmt, stmts_of};
ghost use Rattle.jd_syntax.specs.Names.{Name};

use crate::lists::code_in;
use jd_base::{ClassId, FieldId, NoMemory, both};
use jd_syntax::{CodeExpr, CodeStmt, VarId};

/// `(set v a)`
pub fn set(v: Result<VarId, NoMemory>, a: Result<CodeExpr, NoMemory>) -> Result<CodeStmt, NoMemory>
    ensures { (n : Name) (x : Expr) → GivesName v n → GivesExpr a x → GivesStmt result (plain.Set n x) }
{
    let (v, a) = both(v, a)?;
    Ok(CodeStmt::Set(v, a))
}

/// A field of an object, by its number, takes a value: `(put a C.f b)`.
pub fn write_field(
    a: Result<CodeExpr, NoMemory>,
    field: u32,
    b: Result<CodeExpr, NoMemory>,
) -> Result<CodeStmt, NoMemory>
    ensures { (x y : Expr) → GivesExpr a x → GivesExpr b y → GivesStmt result (plain.WriteField x field y) }
{
    let (a, b) = both(a, b)?;
    Ok(CodeStmt::WriteField(a, FieldId(field), b))
}

/// `(aput a b c)`
pub fn write_element(
    a: Result<CodeExpr, NoMemory>,
    b: Result<CodeExpr, NoMemory>,
    c: Result<CodeExpr, NoMemory>,
) -> Result<CodeStmt, NoMemory>
    ensures { (x y z : Expr) → GivesExpr a x → GivesExpr b y → GivesExpr c z → GivesStmt result (plain.WriteElement x y z) }
{
    let (a, (b, c)) = both(a, both(b, c))?;
    Ok(CodeStmt::WriteElement(a, b, c))
}

/// `(eval a)`
pub fn evaluate(a: Result<CodeExpr, NoMemory>) -> Result<CodeStmt, NoMemory>
    ensures { (x : Expr) → GivesExpr a x → GivesStmt result (plain.Evaluate x) }
{
    Ok(CodeStmt::Evaluate(a?))
}

/// `(if a (s..) (s..))`
pub fn choice(
    a: Result<CodeExpr, NoMemory>,
    first: Result<Vec<CodeStmt>, NoMemory>,
    second: Result<Vec<CodeStmt>, NoMemory>,
) -> Result<CodeStmt, NoMemory>
    ensures { (x : Expr) (ss ts : List Stmt) → GivesExpr a x → GivesStmts first ss → GivesStmts second ts → GivesStmt result (plain.If x (stmts_of ss) (stmts_of ts)) }
{
    let (a, (first, second)) = both(a, both(code_in(first), code_in(second)))?;
    Ok(CodeStmt::If(a, first, second))
}

/// The loop of a number: `(while k a (s..))`.
pub fn repeated(
    number: Result<u32, NoMemory>,
    a: Result<CodeExpr, NoMemory>,
    stmts: Result<Vec<CodeStmt>, NoMemory>,
) -> Result<CodeStmt, NoMemory>
    ensures { (k : ℕ) (x : Expr) (ss : List Stmt) → GivesNumber number k → GivesExpr a x → GivesStmts stmts ss → GivesStmt result (plain.While k x (stmts_of ss)) }
{
    let (number, (a, code)) = both(number, both(a, code_in(stmts)))?;
    Ok(CodeStmt::While(number, a, code))
}

/// The block of a label: `(block l (s..))`.
pub fn block(
    label: Result<u32, NoMemory>,
    stmts: Result<Vec<CodeStmt>, NoMemory>,
) -> Result<CodeStmt, NoMemory>
    ensures { (l : ℕ) (ss : List Stmt) → GivesNumber label l → GivesStmts stmts ss → GivesStmt result (plain.Block l (stmts_of ss)) }
{
    let (label, code) = both(label, code_in(stmts))?;
    Ok(CodeStmt::Block(label, code))
}

/// `(break l)`
pub fn break_to(label: Result<u32, NoMemory>) -> Result<CodeStmt, NoMemory>
    ensures { (l : ℕ) → GivesNumber label l → GivesStmt result (plain.Break l) }
{
    Ok(CodeStmt::Break(label?))
}

/// `(catch (s..) v (s..))`
pub fn caught(
    stmts: Result<Vec<CodeStmt>, NoMemory>,
    v: Result<VarId, NoMemory>,
    handler: Result<Vec<CodeStmt>, NoMemory>,
) -> Result<CodeStmt, NoMemory>
    ensures { (ss : List Stmt) (n : Name) (ts : List Stmt) → GivesStmts stmts ss → GivesName v n → GivesStmts handler ts → GivesStmt result (plain.Catch (stmts_of ss) n (stmts_of ts)) }
{
    let (code, (v, handler)) = both(code_in(stmts), both(v, code_in(handler)))?;
    Ok(CodeStmt::Catch(code, v, handler))
}

/// `(finally (s..) (s..))`
pub fn finally(
    stmts: Result<Vec<CodeStmt>, NoMemory>,
    last: Result<Vec<CodeStmt>, NoMemory>,
) -> Result<CodeStmt, NoMemory>
    ensures { (ss ts : List Stmt) → GivesStmts stmts ss → GivesStmts last ts → GivesStmt result (plain.Finally (stmts_of ss) (stmts_of ts)) }
{
    let (code, last) = both(code_in(stmts), code_in(last))?;
    Ok(CodeStmt::Finally(code, last))
}

/// `(throw a)`
pub fn thrown(a: Result<CodeExpr, NoMemory>) -> Result<CodeStmt, NoMemory>
    ensures { (x : Expr) → GivesExpr a x → GivesStmt result (plain.Throw x) }
{
    Ok(CodeStmt::Throw(a?))
}

/// `(throwx a)`
pub fn thrown_unchecked(a: Result<CodeExpr, NoMemory>) -> Result<CodeStmt, NoMemory>
    ensures { (x : Expr) → GivesExpr a x → GivesStmt result (plain.ThrowUnchecked x) }
{
    Ok(CodeStmt::ThrowUnchecked(a?))
}

/// `(return a)`
pub fn returned(a: Result<CodeExpr, NoMemory>) -> Result<CodeStmt, NoMemory>
    ensures { (x : Expr) → GivesExpr a x → GivesStmt result (plain.Return x) }
{
    Ok(CodeStmt::Return(a?))
}

/// `(return)`
pub fn returned_nothing() -> Result<CodeStmt, NoMemory>
    ensures { GivesStmt result plain.ReturnVoid }
{
    Ok(CodeStmt::ReturnVoid)
}

/// An object of the class of this number is allocated: `(alloc v C)`.
pub fn alloc_object(v: Result<VarId, NoMemory>, class: u32) -> Result<CodeStmt, NoMemory>
    ensures { (n : Name) → GivesName v n → GivesStmt result (plain.AllocObject n class) }
{
    Ok(CodeStmt::AllocObject(v?, ClassId(class)))
}

/// `(allocarr v a)`
pub fn new_array(
    v: Result<VarId, NoMemory>,
    a: Result<CodeExpr, NoMemory>,
) -> Result<CodeStmt, NoMemory>
    ensures { (n : Name) (x : Expr) → GivesName v n → GivesExpr a x → GivesStmt result (plain.NewArray n x) }
{
    let (v, a) = both(v, a)?;
    Ok(CodeStmt::NewArray(v, a))
}
