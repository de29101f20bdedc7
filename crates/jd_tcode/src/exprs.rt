//! Expressions, read from bracketed expressions.

ghost use Rattle.std.specs.Prelude.{◌≡◌, [], ◌∷◌, IfOk, Some, map, option_map};
ghost use Rattle.jd_syntax.specs.CodeViews.{expr_view};
ghost use Rattle.jd_syntax.specs.Sxs.{bracketed_list, sx_view};
ghost use Rattle.jd_tforms.specs.Reading as plain;
ghost use Rattle.jd_tcode.specs.Behind.{rest_of};
ghost use Rattle.jd_tcode.specs.Pairing.{Gives};
ghost use Rattle.jd_tcode.specs.Makers as makers;
ghost use Rattle.jd_tcode.specs.Makers.{boxed_view, operands_view};

use crate::made_exprs::{
    Inside, binary, boxed, conditional, constructor_call, do_then, length_of, of_kind, read_field,
    static_call, two_exprs, unary, virtual_call,
};
use crate::parts::Part;
use crate::reader::{Reader, first_word};
use crate::stmts::read_code;
use crate::words::{constructor_in, field_in, kind_in, method_in, static_in};
use jd_syntax::{CodeExpr, Sx};
use jd_tforms::ExprHead;
use jd_twords::{NameMeanings, expr_head, word_expr};

// An expression that is a part.
#[cycle(read_code)]
fn read_boxed<N: NameMeanings>(at: &Reader<'_, N>, x: &Sx) -> Inside
    ensures { Gives boxed_view result (plain.read (N.table at.now.names.now) (sx_view x.now)).expr }
{
    boxed(at.alloc, read_expr(at, x))
}

// The operands of a call.
#[cycle(read_code)]
fn read_operands<N: NameMeanings>(at: &Reader<'_, N>, parts: &[Sx]) -> Part<Vec<CodeExpr>>
    ensures { IfOk result (λ o. option_map operands_view o ≡ plain.operands (N.table at.now.names.now) (plain.reads (N.table at.now.names.now) (bracketed_list (map sx_view parts.now)))) }
{
    let mut operands = Vec::with_capacity(at.alloc, parts.len())?;
    for part in parts {
        let Some(operand) = read_expr(at, part)? else {
            return Ok(None)
        };
        operands.push(operand)?;
    }
    Ok(Some(operands))
}

// An expression of one part behind its head.
#[cycle(read_code)]
fn expr_of_one<N: NameMeanings>(at: &Reader<'_, N>, head: ExprHead, a: &Sx) -> Part<CodeExpr>
    ensures { Gives expr_view result (makers.one_or_two (N.table at.now.names.now) head (plain.read (N.table at.now.names.now) (sx_view a.now) ∷ [])) }
{
    match head {
        ExprHead::Unary(operation) => unary(operation, read_boxed(at, a)),
        ExprHead::LengthOf => length_of(read_boxed(at, a)),
        _ => Ok(None),
    }
}

// An expression of two parts.
#[cycle(read_code)]
fn expr_of_two<N: NameMeanings>(
    at: &Reader<'_, N>,
    head: ExprHead,
    a: &Sx,
    b: &Sx,
) -> Part<CodeExpr>
    ensures { Gives expr_view result (makers.one_or_two (N.table at.now.names.now) head (plain.read (N.table at.now.names.now) (sx_view a.now) ∷ plain.read (N.table at.now.names.now) (sx_view b.now) ∷ [])) }
{
    match head {
        ExprHead::Binary(operation) => binary(operation, read_boxed(at, a), read_boxed(at, b)),
        ExprHead::AndAlso | ExprHead::OrElse | ExprHead::ReadElement => {
            two_exprs(head, read_boxed(at, a), read_boxed(at, b))
        }
        ExprHead::ReadField => read_field(read_boxed(at, a), field_in(at.names, b)),
        ExprHead::Cast | ExprHead::InstanceOf => {
            of_kind(head, kind_in(at.names, a), read_boxed(at, b))
        }
        ExprHead::DoThen => do_then(read_code(at, a), read_boxed(at, b)),
        _ => Ok(None),
    }
}

// What stands behind the head of an expression.
#[cycle(read_code)]
#[tactic(auto, using(crate::proofs::Counts::counts, crate::proofs::Ends::short))]
fn expr_behind<N: NameMeanings>(at: &Reader<'_, N>, head: ExprHead, parts: &[Sx]) -> Part<CodeExpr>
    ensures { Gives expr_view result (plain.expr_of (N.table at.now.names.now) (Some head) (rest_of (plain.reads (N.table at.now.names.now) (bracketed_list (map sx_view parts.now))))) }
{
    match head {
        ExprHead::Conditional => match parts {
            [_, a, b, c] => conditional(read_boxed(at, a), read_boxed(at, b), read_boxed(at, c)),
            _ => Ok(None),
        },
        ExprHead::VirtualCall => match parts {
            [_, method, a, operands @ ..] => {
                let operands = read_operands(at, operands);
                virtual_call(method_in(at.names, method), read_boxed(at, a), operands)
            }
            _ => Ok(None),
        },
        ExprHead::StaticCall => match parts {
            [_, method, operands @ ..] => {
                static_call(static_in(at.names, method), read_operands(at, operands))
            }
            _ => Ok(None),
        },
        ExprHead::ConstructorCall => match parts {
            [_, method, a, operands @ ..] => {
                let operands = read_operands(at, operands);
                constructor_call(
                    constructor_in(at.names, method),
                    read_boxed(at, a),
                    operands,
                )
            }
            _ => Ok(None),
        },
        _ => match parts {
            [_, a] => expr_of_one(at, head, a),
            [_, a, b] => expr_of_two(at, head, a, b),
            [_, _, _, _, ..] => Ok(None),
            [] => Ok(None),
            [_] => Ok(None),
        },
    }
}

/// An expression, whatever sorts its parts have; `None` where it has no form or a name in it stands for nothing.
#[cycle(read_code)]
pub fn read_expr<N: NameMeanings>(at: &Reader<'_, N>, x: &Sx) -> Part<CodeExpr>
    ensures { Gives expr_view result (plain.read (N.table at.now.names.now) (sx_view x.now)).expr }
{
    match x {
        Sx::Atom(word) => word_expr(at.alloc, at.names, word),
        Sx::List(parts) => match first_word(parts) {
            None => Ok(None),
            Some(word) => match expr_head(word) {
                None => Ok(None),
                Some(head) => expr_behind(at, head, parts),
            },
        },
    }
}
