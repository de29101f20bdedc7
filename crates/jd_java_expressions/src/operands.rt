//! Nodes of operands with what stands behind them, from what their parts are.

ghost use Rattle.std.specs.Prelude.{◌≡◌, List, map, option_map};
ghost use Rattle.jd_java_tokens.specs.Heads as heads;
ghost use Rattle.jd_java_tokens.specs.Lexemes.{lexeme_view};
ghost use Rattle.jd_syntax.specs.JavaTrees as java;
ghost use Rattle.jd_syntax.specs.JavaTrees.{JavaExpr, java_view};
ghost use Rattle.jd_java_values.specs.Values.{Expression, PlainSuffix};
ghost use Rattle.jd_java_values.specs.Views.{Gives, backwards, in_order, start_view, suffix_view, value_view};
ghost use Rattle.jd_java_expressions.specs.Applying as plain;
ghost use Rattle.jd_java_expressions.specs.Meaning as nodes;

use crate::applying::{all_applied, applied_name, name_or_call};
use crate::chains::Behind;
use crate::forms;
use jd_base::{NoMemory, both};
use jd_java_tokens::{Lexeme, place_of, text_of};
use jd_java_values::{Start, Value, discard};
use jd_syntax::{Expr, ExprForm, PrefixOperator};
use std::alloc::Global;

// An expression as what a node stands for.
fn given(e: Result<Expr, NoMemory>) -> Result<Value, NoMemory>
    ensures { (x : JavaExpr) → Gives java_view e x → Gives value_view result (Expression x) }
{
    Ok(Value::Expression(e?))
}

// An operand with what stands behind it.
fn continued(alloc: Global, e: Result<Expr, NoMemory>, behind: Behind) -> Result<Value, NoMemory>
    ensures { (x : JavaExpr) (ss : List PlainSuffix) → Gives java_view e x → Gives (backwards suffix_view) behind ss → Gives value_view result (Expression (plain.all_applied x ss)) }
{
    let (e, behind) = both(e, behind)?;
    given(all_applied(alloc, Ok(e), behind))
}

/// An operand.
pub fn operand(alloc: Global, parts: (Expr, Behind)) -> Result<Value, NoMemory>
    ensures { (ss : List PlainSuffix) → Gives (backwards suffix_view) parts.1 ss → Gives value_view result (Expression (plain.all_applied (java_view parts.0) ss)) }
{
    let (e, behind) = parts;
    continued(alloc, Ok(e), behind)
}

/// A name, or its call where there are arguments.
pub fn name(
    alloc: Global,
    tokens: &[Lexeme<'_>],
    parts: (Option<Vec<Expr>>, Behind),
) -> Result<Value, NoMemory>
    ensures { (ss : List PlainSuffix) → Gives (backwards suffix_view) parts.1 ss → Gives value_view result (Expression (plain.all_applied (plain.named (heads.place_of 0 (map lexeme_view tokens.now)) (heads.text_of (map lexeme_view tokens.now)) (option_map (in_order java_view) parts.0)) ss)) }
{
    let (arguments, behind) = parts;
    let e = name_or_call(alloc, place_of(0, tokens), text_of(tokens), arguments);
    continued(alloc, e, behind)
}

/// `this`
pub fn this(alloc: Global, tokens: &[Lexeme<'_>], behind: Behind) -> Result<Value, NoMemory>
    ensures { (ss : List PlainSuffix) → Gives (backwards suffix_view) behind ss → Gives value_view result (Expression (plain.all_applied (java.This (heads.place_of 0 (map lexeme_view tokens.now))) ss)) }
{
    let at = place_of(0, tokens);
    let form = ExprForm::This;
    continued(alloc, Ok(Expr { at, form }), behind)
}

/// `(e)`
pub fn inside(
    alloc: Global,
    tokens: &[Lexeme<'_>],
    parts: (Expr, Behind),
) -> Result<Value, NoMemory>
    ensures { (ss : List PlainSuffix) → Gives (backwards suffix_view) parts.1 ss → Gives value_view result (Expression (plain.all_applied (java.Parenthesized (heads.place_of 0 (map lexeme_view tokens.now)) (java_view parts.0)) ss)) }
{
    let (e, behind) = parts;
    let operand = forms::parenthesized(alloc, place_of(0, tokens), e);
    continued(alloc, operand, behind)
}

/// `-e`
pub fn prefix(
    alloc: Global,
    op: PrefixOperator,
    tokens: &[Lexeme<'_>],
    e: Expr,
) -> Result<Value, NoMemory>
    ensures { Gives value_view result (Expression (java.Prefix (heads.place_of 0 (map lexeme_view tokens.now)) op (java_view e))) }
{
    given(forms::prefix(alloc, place_of(0, tokens), op, e))
}

// An operand that begins at that place.
fn started(alloc: Global, at: u32, start: Start) -> Result<Expr, NoMemory>
    ensures { Gives java_view result (plain.begun at (start_view start)) }
{
    match start {
        Start::Inside(e) => forms::parenthesized(alloc, at, e),
        Start::Cast(written, e) => forms::cast(alloc, at, written, e),
        Start::Object(class, arguments) => Ok(forms::new_object(at, class, arguments)),
        Start::Array(e) => forms::new_array(alloc, at, e),
    }
}

// The same with what stands behind it.
fn begun_at(alloc: Global, at: u32, value: Value) -> Result<Expr, NoMemory>
    ensures { Gives java_view result (nodes.begun_at at (value_view value)) }
{
    match value {
        Value::Started(start, behind) => all_applied(alloc, started(alloc, at, start), behind),
        other => {
            discard(other);
            Ok(Expr {
                at,
                form: ExprForm::Null,
            })
        }
    }
}

/// What begins with `(` or `new`.
pub fn begun(alloc: Global, tokens: &[Lexeme<'_>], part: Value) -> Result<Value, NoMemory>
    ensures { Gives value_view result (Expression (nodes.begun_at (heads.place_of 0 (map lexeme_view tokens.now)) (value_view part))) }
{
    given(begun_at(alloc, place_of(0, tokens), part))
}

// A name with what makes it a statement.
fn effect_of(alloc: Global, at: u32, text: &[u8], value: Value) -> Result<Expr, NoMemory>
    ensures { Gives java_view result (nodes.effect_of_name at text.now (value_view value)) }
{
    match value {
        Value::BehindName(arguments, behind, others) => {
            discard(others);
            applied_name(alloc, at, text, arguments, behind)
        }
        other => {
            discard(other);
            name_or_call(alloc, at, text, None)
        }
    }
}

/// A name, and what makes it a statement.
pub fn name_effect(alloc: Global, tokens: &[Lexeme<'_>], part: Value) -> Result<Value, NoMemory>
    ensures { Gives value_view result (Expression (nodes.effect_of_name (heads.place_of 0 (map lexeme_view tokens.now)) (heads.text_of (map lexeme_view tokens.now)) (value_view part))) }
{
    given(effect_of(alloc, place_of(0, tokens), text_of(tokens), part))
}
