//! Expressions.

ghost use Rattle.std.specs.Prelude.{List};
ghost use Rattle.jd_code_makers.specs.Makers.{GivesBoxed, GivesExpr, GivesExprs, GivesName, GivesStmts};
ghost use Rattle.jd_bodies.specs.Variables as variables;
ghost use Rattle.jd_syntax.specs.CodeViews.{kind_view};
ghost use Rattle.jd_syntax.specs.Codes as plain;
ghost use Rattle.jd_syntax.specs.Codes.{Expr, Stmt, exprs_of, stmts_of};
ghost use Rattle.jd_syntax.specs.Names.{Name};

use crate::lists::code_in;
use crate::names::this_id;
use jd_base::{ClassId, FieldId, MethodId, NoMemory, both};
use jd_syntax::{BinaryOp, CodeExpr, CodeStmt, Kind, UnaryOp, VarId};
use std::alloc::Global;

/// The expression in a box.
#[inline(never)]
fn boxed(alloc: Global, e: Result<CodeExpr, NoMemory>) -> Result<Box<CodeExpr>, NoMemory>
    ensures { (x : Expr) → GivesExpr e x → GivesBoxed result x }
{
    Ok(Box::new(alloc, e?)?)
}

/// A literal; want of memory for one that 32 bits cannot hold, which no code has.
pub fn integer(n: i128) -> Result<CodeExpr, NoMemory>
    ensures { GivesExpr result (plain.IntLiteral n) }
{
    if n < -2147483648 || n > 2147483647 {
        return Err(NoMemory);
    }
    Ok(CodeExpr::IntLiteral(n as i32))
}

/// `true` or `false`
pub fn boolean(truth: bool) -> Result<CodeExpr, NoMemory>
    ensures { GivesExpr result (plain.BoolLiteral truth) }
{
    Ok(CodeExpr::BoolLiteral(truth))
}

/// `null`
pub fn null() -> Result<CodeExpr, NoMemory>
    ensures { GivesExpr result plain.NullLiteral }
{
    Ok(CodeExpr::NullLiteral)
}

/// A variable.
pub fn variable(v: Result<VarId, NoMemory>) -> Result<CodeExpr, NoMemory>
    ensures { (x : Name) → GivesName v x → GivesExpr result (plain.Variable x) }
{
    Ok(CodeExpr::Variable(v?))
}

/// `this`
pub fn this(alloc: Global) -> Result<CodeExpr, NoMemory>
    ensures { GivesExpr result (plain.Variable variables.this_name) }
{
    Ok(CodeExpr::Variable(this_id(alloc)?))
}

/// An operation on one value: `(neg a)` and the like.
pub fn unary(
    alloc: Global,
    operation: UnaryOp,
    a: Result<CodeExpr, NoMemory>,
) -> Result<CodeExpr, NoMemory>
    ensures { (x : Expr) → GivesExpr a x → GivesExpr result (plain.Unary operation x) }
{
    Ok(CodeExpr::Unary(operation, boxed(alloc, a)?))
}

/// An operation on two values: `(add a b)` and the like.
pub fn binary(
    alloc: Global,
    operation: BinaryOp,
    a: Result<CodeExpr, NoMemory>,
    b: Result<CodeExpr, NoMemory>,
) -> Result<CodeExpr, NoMemory>
    ensures { (x y : Expr) → GivesExpr a x → GivesExpr b y → GivesExpr result (plain.Binary operation x y) }
{
    let (a, b) = both(boxed(alloc, a), boxed(alloc, b))?;
    Ok(CodeExpr::Binary(operation, a, b))
}

/// `(and a b)`
pub fn and_also(
    alloc: Global,
    a: Result<CodeExpr, NoMemory>,
    b: Result<CodeExpr, NoMemory>,
) -> Result<CodeExpr, NoMemory>
    ensures { (x y : Expr) → GivesExpr a x → GivesExpr b y → GivesExpr result (plain.AndAlso x y) }
{
    let (a, b) = both(boxed(alloc, a), boxed(alloc, b))?;
    Ok(CodeExpr::AndAlso(a, b))
}

/// `(or a b)`
pub fn or_else(
    alloc: Global,
    a: Result<CodeExpr, NoMemory>,
    b: Result<CodeExpr, NoMemory>,
) -> Result<CodeExpr, NoMemory>
    ensures { (x y : Expr) → GivesExpr a x → GivesExpr b y → GivesExpr result (plain.OrElse x y) }
{
    let (a, b) = both(boxed(alloc, a), boxed(alloc, b))?;
    Ok(CodeExpr::OrElse(a, b))
}

/// `(cond a b c)`
pub fn conditional(
    alloc: Global,
    a: Result<CodeExpr, NoMemory>,
    b: Result<CodeExpr, NoMemory>,
    c: Result<CodeExpr, NoMemory>,
) -> Result<CodeExpr, NoMemory>
    ensures { (x y z : Expr) → GivesExpr a x → GivesExpr b y → GivesExpr c z → GivesExpr result (plain.Conditional x y z) }
{
    let (a, (b, c)) = both(boxed(alloc, a), both(boxed(alloc, b), boxed(alloc, c)))?;
    Ok(CodeExpr::Conditional(a, b, c))
}

/// A field of an object, by its number: `(get a C.f)`.
pub fn read_field(
    alloc: Global,
    a: Result<CodeExpr, NoMemory>,
    field: u32,
) -> Result<CodeExpr, NoMemory>
    ensures { (x : Expr) → GivesExpr a x → GivesExpr result (plain.ReadField x field) }
{
    Ok(CodeExpr::ReadField(boxed(alloc, a)?, FieldId(field)))
}

/// An element of an array: `(aget a b)`.
pub fn read_element(
    alloc: Global,
    a: Result<CodeExpr, NoMemory>,
    b: Result<CodeExpr, NoMemory>,
) -> Result<CodeExpr, NoMemory>
    ensures { (x y : Expr) → GivesExpr a x → GivesExpr b y → GivesExpr result (plain.ReadElement x y) }
{
    let (a, b) = both(boxed(alloc, a), boxed(alloc, b))?;
    Ok(CodeExpr::ReadElement(a, b))
}

/// The length of an array: `(len a)`.
pub fn length_of(alloc: Global, a: Result<CodeExpr, NoMemory>) -> Result<CodeExpr, NoMemory>
    ensures { (x : Expr) → GivesExpr a x → GivesExpr result (plain.LengthOf x) }
{
    Ok(CodeExpr::LengthOf(boxed(alloc, a)?))
}

/// `(cast K a)`
pub fn cast(alloc: Global, kind: Kind, a: Result<CodeExpr, NoMemory>) -> Result<CodeExpr, NoMemory>
    ensures { (x : Expr) → GivesExpr a x → GivesExpr result (plain.Cast (kind_view kind) x) }
{
    Ok(CodeExpr::Cast(kind, boxed(alloc, a)?))
}

/// `(inst K a)`
pub fn instance_of(
    alloc: Global,
    kind: Kind,
    a: Result<CodeExpr, NoMemory>,
) -> Result<CodeExpr, NoMemory>
    ensures { (x : Expr) → GivesExpr a x → GivesExpr result (plain.InstanceOf (kind_view kind) x) }
{
    Ok(CodeExpr::InstanceOf(kind, boxed(alloc, a)?))
}

/// A call of the method that a class sees, by their numbers, on an object: `(call C.m a b..)`.
#[tactic(auto, using(jd_syntax::proofs::CodeLemmas::calls))]
pub fn virtual_call(
    alloc: Global,
    class: u32,
    method: u32,
    a: Result<CodeExpr, NoMemory>,
    operands: Result<Vec<CodeExpr>, NoMemory>,
) -> Result<CodeExpr, NoMemory>
    ensures { (x : Expr) (xs : List Expr) → GivesExpr a x → GivesExprs operands xs → GivesExpr result (plain.VirtualCall class method x (exprs_of xs)) }
{
    let (a, operands) = both(boxed(alloc, a), operands)?;
    Ok(CodeExpr::VirtualCall(ClassId(class), MethodId(method), a, operands))
}

/// A call of a static method, by its number: `(scall C.m b..)`.
#[tactic(auto, using(jd_syntax::proofs::CodeLemmas::calls))]
pub fn static_call(
    method: u32,
    operands: Result<Vec<CodeExpr>, NoMemory>,
) -> Result<CodeExpr, NoMemory>
    ensures { (xs : List Expr) → GivesExprs operands xs → GivesExpr result (plain.StaticCall method (exprs_of xs)) }
{
    Ok(CodeExpr::StaticCall(MethodId(method), operands?))
}

/// A call of a constructor, by its number, on an object: `(ctor C a b..)`.
#[tactic(auto, using(jd_syntax::proofs::CodeLemmas::calls))]
pub fn constructor_call(
    alloc: Global,
    constructor: u32,
    a: Result<CodeExpr, NoMemory>,
    operands: Result<Vec<CodeExpr>, NoMemory>,
) -> Result<CodeExpr, NoMemory>
    ensures { (x : Expr) (xs : List Expr) → GivesExpr a x → GivesExprs operands xs → GivesExpr result (plain.ConstructorCall constructor x (exprs_of xs)) }
{
    let (a, operands) = both(boxed(alloc, a), operands)?;
    Ok(CodeExpr::ConstructorCall(MethodId(constructor), a, operands))
}

/// A value behind statements: `(do (s..) a)`.
pub fn do_then(
    alloc: Global,
    stmts: Result<Vec<CodeStmt>, NoMemory>,
    a: Result<CodeExpr, NoMemory>,
) -> Result<CodeExpr, NoMemory>
    ensures { (ss : List Stmt) (x : Expr) → GivesStmts stmts ss → GivesExpr a x → GivesExpr result (plain.DoThen (stmts_of ss) x) }
{
    let (code, a) = both(code_in(stmts), boxed(alloc, a))?;
    Ok(CodeExpr::DoThen(code, a))
}
