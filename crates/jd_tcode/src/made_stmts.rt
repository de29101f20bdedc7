//! Statements, made of what was read of their parts.

ghost use Rattle.std.specs.Prelude.{◌≡◌, ℕ, [], Option, Some, option_map};
ghost use Rattle.std.specs.Option.{option_or};
ghost use Rattle.jd_syntax.specs.CodeViews.{code_view, expr_view, stmt_view};
ghost use Rattle.jd_syntax.specs.Codes as trees;
ghost use Rattle.jd_syntax.specs.Codes.{Expr, PlainCode};
ghost use Rattle.jd_syntax.specs.Names.{Name, var_view};
ghost use Rattle.jd_tgrammar.specs.NameTables.{NameTable};
ghost use Rattle.jd_tforms.specs.Reading as plain;
ghost use Rattle.jd_tcode.specs.Pairing.{Gives};
ghost use Rattle.jd_tcode.specs.Makers as makers;

use crate::parts::{Part, both_there, three_there};
use jd_base::{ClassId, FieldId};
use jd_syntax::{Code, CodeExpr, CodeStmt, VarId};
use jd_tforms::StmtHead;

// `(eval a)` and the like; of a head that has not one expression, `(return a)`.
pub(crate) fn one_expr(head: StmtHead, a: Part<CodeExpr>) -> Part<CodeStmt>
    ensures { (p : Option Expr) → Gives expr_view a p → Gives stmt_view result (option_map (makers.one_expr head) p) }
{
    match a? {
        None => Ok(None),
        Some(a) => match head {
            StmtHead::Evaluate => Ok(Some(CodeStmt::Evaluate(a))),
            StmtHead::Throw => Ok(Some(CodeStmt::Throw(a))),
            StmtHead::ThrowUnchecked => Ok(Some(CodeStmt::ThrowUnchecked(a))),
            _ => Ok(Some(CodeStmt::Return(a))),
        },
    }
}

// `(set x a)`; of another head, `(allocarr x a)`.
pub(crate) fn assigned(head: StmtHead, variable: Part<VarId>, a: Part<CodeExpr>) -> Part<CodeStmt>
    ensures { (p : Option Name) (q : Option Expr) → Gives var_view variable p → Gives expr_view a q → Gives stmt_view result (plain.both (makers.assigned head) p q) }
{
    match both_there(variable, a)? {
        None => Ok(None),
        Some((variable, a)) => match head {
            StmtHead::Set => Ok(Some(CodeStmt::Set(variable, a))),
            _ => Ok(Some(CodeStmt::NewArray(variable, a))),
        },
    }
}

// An assignment to a field.
pub(crate) fn write_field(
    a: Part<CodeExpr>,
    field: Option<FieldId>,
    b: Part<CodeExpr>,
) -> Part<CodeStmt>
    ensures { (p : Option Expr) (q : Option ℕ) (r : Option Expr) → Gives expr_view a p → option_map (λ f. f.0) field ≡ q → Gives expr_view b r → Gives stmt_view result (plain.three trees.WriteField p q r) }
{
    match three_there(a, Ok(field), b)? {
        None => Ok(None),
        Some((a, field, b)) => Ok(Some(CodeStmt::WriteField(a, field, b))),
    }
}

// An assignment to an element.
pub(crate) fn write_element(
    a: Part<CodeExpr>,
    b: Part<CodeExpr>,
    c: Part<CodeExpr>,
) -> Part<CodeStmt>
    ensures { (p : Option Expr) (q : Option Expr) (r : Option Expr) → Gives expr_view a p → Gives expr_view b q → Gives expr_view c r → Gives stmt_view result (plain.three trees.WriteElement p q r) }
{
    match three_there(a, b, c)? {
        None => Ok(None),
        Some((a, b, c)) => Ok(Some(CodeStmt::WriteElement(a, b, c))),
    }
}

// A choice.
pub(crate) fn if_then(a: Part<CodeExpr>, then: Part<Code>, other: Part<Code>) -> Part<CodeStmt>
    ensures { (p : Option Expr) (q : Option PlainCode) (r : Option PlainCode) → Gives expr_view a p → Gives code_view then q → Gives code_view other r → Gives stmt_view result (plain.three trees.If p q r) }
{
    match three_there(a, then, other)? {
        None => Ok(None),
        Some((a, then, other)) => Ok(Some(CodeStmt::If(a, then, other))),
    }
}

// A loop.
pub(crate) fn while_loop(number: Option<u32>, a: Part<CodeExpr>, body: Part<Code>) -> Part<CodeStmt>
    ensures { (p : Option ℕ) (q : Option Expr) (r : Option PlainCode) → number ≡ p → Gives expr_view a q → Gives code_view body r → Gives stmt_view result (plain.three trees.While p q r) }
{
    match three_there(Ok(number), a, body)? {
        None => Ok(None),
        Some((number, a, body)) => Ok(Some(CodeStmt::While(number, a, body))),
    }
}

// A block with a label.
pub(crate) fn block(label: Option<u32>, body: Part<Code>) -> Part<CodeStmt>
    ensures { (p : Option ℕ) (q : Option PlainCode) → label ≡ p → Gives code_view body q → Gives stmt_view result (plain.both trees.Block p q) }
{
    match both_there(Ok(label), body)? {
        None => Ok(None),
        Some((label, body)) => Ok(Some(CodeStmt::Block(label, body))),
    }
}

// A block that catches what is thrown.
pub(crate) fn catch(body: Part<Code>, variable: Part<VarId>, handler: Part<Code>) -> Part<CodeStmt>
    ensures { (p : Option PlainCode) (q : Option Name) (r : Option PlainCode) → Gives code_view body p → Gives var_view variable q → Gives code_view handler r → Gives stmt_view result (plain.three trees.Catch p q r) }
{
    match three_there(body, variable, handler)? {
        None => Ok(None),
        Some((body, variable, handler)) => Ok(Some(CodeStmt::Catch(body, variable, handler))),
    }
}

// A block with statements that are always run.
pub(crate) fn finally(body: Part<Code>, last: Part<Code>) -> Part<CodeStmt>
    ensures { (p : Option PlainCode) (q : Option PlainCode) → Gives code_view body p → Gives code_view last q → Gives stmt_view result (plain.both trees.Finally p q) }
{
    match both_there(body, last)? {
        None => Ok(None),
        Some((body, last)) => Ok(Some(CodeStmt::Finally(body, last))),
    }
}

// The body of a method.
pub(crate) fn frame(variable: Part<Option<VarId>>, body: Part<Code>) -> Part<CodeStmt>
    ensures { (p : Option (Option Name)) (q : Option PlainCode) → Gives (option_map var_view) variable p → Gives code_view body q → Gives stmt_view result (plain.both trees.Frame p q) }
{
    match both_there(variable, body)? {
        None => Ok(None),
        Some((variable, body)) => Ok(Some(CodeStmt::Frame(variable, body))),
    }
}

// An object that is allocated.
pub(crate) fn object(variable: Part<VarId>, class: Option<ClassId>) -> Part<CodeStmt>
    ensures { (p : Option Name) (q : Option ℕ) → Gives var_view variable p → option_map (λ c. c.0) class ≡ q → Gives stmt_view result (plain.both trees.AllocObject p q) }
{
    match both_there(variable, Ok(class))? {
        None => Ok(None),
        Some((variable, class)) => Ok(Some(CodeStmt::AllocObject(variable, class))),
    }
}

// An array that is allocated.
pub(crate) fn array(variable: Part<VarId>, a: Part<CodeExpr>) -> Part<CodeStmt>
    ensures { (p : Option Name) (q : Option Expr) → Gives var_view variable p → Gives expr_view a q → Gives stmt_view result (plain.both trees.AllocArray p q) }
{
    match both_there(variable, a)? {
        None => Ok(None),
        Some((variable, a)) => Ok(Some(CodeStmt::AllocArray(variable, a))),
    }
}

// An object or an array that is allocated.
pub(crate) fn allocated(
    variable: Part<VarId>,
    class: Option<ClassId>,
    a: Part<CodeExpr>,
) -> Part<CodeStmt>
    ensures { (p : Option Name) (q : Option ℕ) (r : Option Expr) → Gives var_view variable p → option_map (λ c. c.0) class ≡ q → Gives expr_view a r → Gives stmt_view result (option_or (plain.both trees.AllocObject p q) (plain.both trees.AllocArray p r)) }
{
    match class {
        Some(class) => object(variable, Some(class)),
        None => array(variable, a),
    }
}

// The end of a block.
pub(crate) fn break_of(label: Option<u32>) -> Part<CodeStmt>
    ensures { (p : Option ℕ) → label ≡ p → Gives stmt_view result (option_map trees.Break p) }
{
    match label {
        None => Ok(None),
        Some(label) => Ok(Some(CodeStmt::Break(label))),
    }
}

// An exception of a class that is made and thrown.
pub(crate) fn raised(class: Option<ClassId>) -> Part<CodeStmt>
    ensures { (p : Option ℕ) → option_map (λ c. c.0) class ≡ p → Gives stmt_view result (option_map trees.Raise p) }
{
    match class {
        None => Ok(None),
        Some(class) => Ok(Some(CodeStmt::Raise(class))),
    }
}

// `(return)` and `(stop)`, which are a word alone.
pub(crate) fn alone(head: StmtHead) -> Option<CodeStmt>
    ensures { (names : NameTable) → option_map stmt_view result ≡ plain.stmt_of names (Some head) [] }
{
    match head {
        StmtHead::Return => Some(CodeStmt::ReturnVoid),
        StmtHead::Stop => Some(CodeStmt::Stop),
        _ => None,
    }
}
