//! Expressions, made of what was read of their parts.

ghost use Rattle.std.specs.Prelude.{◌≡◌, ℕ, IfOk, Option, option_map};
ghost use Rattle.jd_syntax.specs.CodeViews.{code_view, expr_view, kind_view};
ghost use Rattle.jd_syntax.specs.Codes as trees;
ghost use Rattle.jd_syntax.specs.Codes.{Expr, Exprs, PlainCode, PlainKind};
ghost use Rattle.jd_tforms.specs.Reading as plain;
ghost use Rattle.jd_tcode.specs.Pairing.{Gives};
ghost use Rattle.jd_tcode.specs.Makers as makers;
ghost use Rattle.jd_tcode.specs.Makers.{boxed_view, operands_view};
ghost use Rattle.jd_tcode.specs.Words.{seen_call, seen_view};

use crate::parts::{Part, both_there, three_there};
use jd_base::{ClassId, FieldId, MethodId, NoMemory};
use jd_syntax::{BinaryOp, Code, CodeExpr, Kind, UnaryOp};
use jd_tforms::ExprHead;
use std::alloc::Global;

/// An expression that is a part.
pub(crate) type Inside = Part<Box<CodeExpr>>;

fn in_box(alloc: Global, expr: CodeExpr) -> Result<Box<CodeExpr>, NoMemory>
    ensures { IfOk result (λ b. b.value ≡ expr) }
{
    Ok(Box::new(alloc, expr)?)
}

pub(crate) fn boxed(alloc: Global, part: Part<CodeExpr>) -> Inside
    ensures { (p : Option Expr) → Gives expr_view part p → Gives boxed_view result p }
{
    match part? {
        None => Ok(None),
        Some(expr) => Ok(Some(in_box(alloc, expr)?)),
    }
}

// An operation on one value.
pub(crate) fn unary(operation: UnaryOp, a: Inside) -> Part<CodeExpr>
    ensures { (p : Option Expr) → Gives boxed_view a p → Gives expr_view result (option_map (trees.Unary operation) p) }
{
    match a? {
        None => Ok(None),
        Some(a) => Ok(Some(CodeExpr::Unary(operation, a))),
    }
}

// The length of an array.
pub(crate) fn length_of(a: Inside) -> Part<CodeExpr>
    ensures { (p : Option Expr) → Gives boxed_view a p → Gives expr_view result (option_map trees.LengthOf p) }
{
    match a? {
        None => Ok(None),
        Some(a) => Ok(Some(CodeExpr::LengthOf(a))),
    }
}

// An operation on two values.
pub(crate) fn binary(operation: BinaryOp, a: Inside, b: Inside) -> Part<CodeExpr>
    ensures { (p : Option Expr) (q : Option Expr) → Gives boxed_view a p → Gives boxed_view b q → Gives expr_view result (plain.both (trees.Binary operation) p q) }
{
    match both_there(a, b)? {
        None => Ok(None),
        Some((a, b)) => Ok(Some(CodeExpr::Binary(operation, a, b))),
    }
}

// `(and a b)` and `(or a b)`; of another head, `(aget a b)`.
pub(crate) fn two_exprs(head: ExprHead, a: Inside, b: Inside) -> Part<CodeExpr>
    ensures { (p : Option Expr) (q : Option Expr) → Gives boxed_view a p → Gives boxed_view b q → Gives expr_view result (plain.both (makers.two_exprs head) p q) }
{
    match both_there(a, b)? {
        None => Ok(None),
        Some((a, b)) => match head {
            ExprHead::AndAlso => Ok(Some(CodeExpr::AndAlso(a, b))),
            ExprHead::OrElse => Ok(Some(CodeExpr::OrElse(a, b))),
            _ => Ok(Some(CodeExpr::ReadElement(a, b))),
        },
    }
}

// One of two values, by a third.
pub(crate) fn conditional(a: Inside, b: Inside, c: Inside) -> Part<CodeExpr>
    ensures { (p : Option Expr) (q : Option Expr) (r : Option Expr) → Gives boxed_view a p → Gives boxed_view b q → Gives boxed_view c r → Gives expr_view result (plain.three trees.Conditional p q r) }
{
    match three_there(a, b, c)? {
        None => Ok(None),
        Some((a, b, c)) => Ok(Some(CodeExpr::Conditional(a, b, c))),
    }
}

// A field of an object.
pub(crate) fn read_field(a: Inside, field: Option<FieldId>) -> Part<CodeExpr>
    ensures { (p : Option Expr) (q : Option ℕ) → Gives boxed_view a p → option_map (λ f. f.0) field ≡ q → Gives expr_view result (plain.both trees.ReadField p q) }
{
    match both_there(a, Ok(field))? {
        None => Ok(None),
        Some((a, field)) => Ok(Some(CodeExpr::ReadField(a, field))),
    }
}

// `(cast k a)`; of another head, `(inst k a)`.
pub(crate) fn of_kind(head: ExprHead, kind: Option<Kind>, a: Inside) -> Part<CodeExpr>
    ensures { (p : Option PlainKind) (q : Option Expr) → option_map kind_view kind ≡ p → Gives boxed_view a q → Gives expr_view result (plain.both (makers.of_kind head) p q) }
{
    match both_there(Ok(kind), a)? {
        None => Ok(None),
        Some((kind, a)) => match head {
            ExprHead::Cast => Ok(Some(CodeExpr::Cast(kind, a))),
            _ => Ok(Some(CodeExpr::InstanceOf(kind, a))),
        },
    }
}

// A call of a method of an object.
#[tactic(auto, using(jd_syntax::proofs::CodeLemmas::calls))]
pub(crate) fn virtual_call(
    method: Option<(ClassId, MethodId)>,
    a: Inside,
    operands: Part<Vec<CodeExpr>>,
) -> Part<CodeExpr>
    ensures { (p : Option (ℕ × ℕ)) (q : Option Expr) (r : Option Exprs) → option_map seen_view method ≡ p → Gives boxed_view a q → Gives operands_view operands r → Gives expr_view result (plain.three seen_call p q r) }
{
    match three_there(Ok(method), a, operands)? {
        None => Ok(None),
        Some((method, a, operands)) => Ok(Some(CodeExpr::VirtualCall(
            method.0, method.1, a, operands,
        ))),
    }
}

// A call of a static method.
#[tactic(auto, using(jd_syntax::proofs::CodeLemmas::calls))]
pub(crate) fn static_call(method: Option<MethodId>, operands: Part<Vec<CodeExpr>>) -> Part<CodeExpr>
    ensures { (p : Option ℕ) (q : Option Exprs) → option_map (λ m. m.0) method ≡ p → Gives operands_view operands q → Gives expr_view result (plain.both trees.StaticCall p q) }
{
    match both_there(Ok(method), operands)? {
        None => Ok(None),
        Some((method, operands)) => Ok(Some(CodeExpr::StaticCall(method, operands))),
    }
}

// A call of a constructor.
#[tactic(auto, using(jd_syntax::proofs::CodeLemmas::calls))]
pub(crate) fn constructor_call(
    method: Option<MethodId>,
    a: Inside,
    operands: Part<Vec<CodeExpr>>,
) -> Part<CodeExpr>
    ensures { (p : Option ℕ) (q : Option Expr) (r : Option Exprs) → option_map (λ m. m.0) method ≡ p → Gives boxed_view a q → Gives operands_view operands r → Gives expr_view result (plain.three trees.ConstructorCall p q r) }
{
    match three_there(Ok(method), a, operands)? {
        None => Ok(None),
        Some((method, a, operands)) => Ok(Some(CodeExpr::ConstructorCall(method, a, operands))),
    }
}

// A value behind statements.
pub(crate) fn do_then(code: Part<Code>, a: Inside) -> Part<CodeExpr>
    ensures { (p : Option PlainCode) (q : Option Expr) → Gives code_view code p → Gives boxed_view a q → Gives expr_view result (plain.both trees.DoThen p q) }
{
    match both_there(code, a)? {
        None => Ok(None),
        Some((code, a)) => Ok(Some(CodeExpr::DoThen(code, a))),
    }
}
