//! What a node's rule makes of the attributes of its parts.

ghost use Rattle.std.specs.Prelude.{◌≡◌, ℕ, IfSome, List, map, true};
ghost use Rattle.jd_java_tokens.specs.Lexemes.{lexeme_view};
ghost use Rattle.jd_java_tokens.specs.Contents.{PlainLexeme};
ghost use Rattle.jd_java_attributes.specs.Folding as folding;
ghost use Rattle.jd_java_attributes.specs.Folding.{IsBlank, IsSettled, alone};
ghost use Rattle.jd_java_attributes.specs.Forms.{inside as inside_of};
ghost use Rattle.jd_java_attributes.specs.Rules as plain;

use crate::form::{
    Asked, EMPTY, Form, Kind, first_of, in_order, inside, is_target, tokens_of_both, up,
};
use crate::rows::{Row, Rule};
use jd_grammar::NodeParts;
use jd_java_tokens::{Lexeme, place_of};

fn all_in_order(form: Form, parts: NodeParts<Form>) -> Form
    ensures { result ≡ plain.all_in_order form parts }
{
    let form = in_order(in_order(form, parts.first), parts.second);
    in_order(in_order(form, parts.third), parts.fourth)
}

fn rest(parts: NodeParts<Form>) -> NodeParts<Form>
    ensures { result ≡ plain.rest parts }
{
    NodeParts {
        first: parts.second,
        second: parts.third,
        third: parts.fourth,
        fourth: EMPTY,
    }
}

fn operands(count: u8, form: Form, parts: NodeParts<Form>) -> Form
    ensures { result ≡ plain.operands count form parts }
{
    match count {
        0 => form,
        1 => in_order(form, parts.first),
        _ => in_order(in_order(form, parts.first), parts.second),
    }
}

fn behind_operands(count: u8, parts: NodeParts<Form>) -> NodeParts<Form>
    ensures { result ≡ plain.behind_operands count parts }
{
    match count {
        0 => parts,
        1 => rest(parts),
        _ => rest(rest(parts)),
    }
}

fn only_tokens(count: u8) -> Form
    ensures { result ≡ plain.only_tokens count }
{
    Form {
        tokens: count as u32,
        ..EMPTY
    }
}

fn operand(kind: Kind, form: Form) -> Form
    ensures { result ≡ plain.operand kind form }
{
    Form { kind, ..form }
}

fn above(kind: Kind, form: Form) -> Form
    ensures { result ≡ plain.above kind form }
{
    Form {
        height: up(form.height),
        adds: 0,
        kind,
        asked: Asked::Nothing,
        ..form
    }
}

fn suffix(kind: Kind, asked: Asked, form: Form) -> Form
    ensures { result ≡ plain.suffix kind asked form }
{
    Form {
        height: up(form.height),
        adds: 1,
        kind,
        asked,
        ..form
    }
}

fn closed(form: Form) -> Form
    ensures { result ≡ plain.closed form }
{
    Form {
        adds: 0,
        asked: Asked::Nothing,
        ..form
    }
}

fn asked_at(tokens: &[Lexeme<'_>], number: u32, holds: bool, form: Form) -> Form
    ensures { result ≡ plain.asked_at (map lexeme_view tokens.now) number holds form }
{
    let place = if holds {
        None
    } else {
        Some(place_of(number, tokens))
    };
    Form {
        fault: first_of(form.fault, place),
        ..form
    }
}

fn is_effect(kind: Kind) -> bool
    ensures { result ≡ plain.is_effect kind }
{
    match kind {
        Kind::Effect => true,
        _ => false,
    }
}

fn nested(form: Form) -> Form
    ensures { result ≡ plain.nested form }
{
    Form {
        nesting: up(form.nesting),
        ..form
    }
}

fn high_at(tokens: &[Lexeme<'_>], form: Form) -> Option<u32>
    ensures { result ≡ plain.high_at (map lexeme_view tokens.now) form form.high }
{
    match form.high {
        Some(at) => Some(at),
        None => {
            if form.height > 200 || form.nesting > 200 {
                Some(place_of(0, tokens))
            } else {
                None
            }
        }
    }
}

fn counted(start: Form, tokens: &[Lexeme<'_>], parts: NodeParts<Form>) -> Form
    ensures { result ≡ plain.counted start (map lexeme_view tokens.now) parts }
{
    let form = in_order(start, parts.first);
    asked_at(
        tokens,
        form.tokens,
        is_target(parts.first.kind),
        above(Kind::Effect, form),
    )
}

fn cast_operand(start: Form, tokens: &[Lexeme<'_>], parts: NodeParts<Form>) -> Form
    ensures { result ≡ plain.cast_operand start (map lexeme_view tokens.now) parts }
{
    Form {
        asked: Asked::Class(place_of(0, tokens)),
        ..above(Kind::Other, in_order(start, parts.first))
    }
}

fn name_effect(start: Form, tokens: &[Lexeme<'_>], parts: NodeParts<Form>) -> Form
    ensures { result ≡ plain.name_effect start (map lexeme_view tokens.now) parts }
{
    let form = all_in_order(start, parts);
    asked_at(tokens, form.tokens, is_effect(form.kind), form)
}

fn made(rule: Rule, count: u8, tokens: &[Lexeme<'_>], parts: NodeParts<Form>) -> Form
    ensures { result ≡ plain.made rule count (map lexeme_view tokens.now) parts }
{
    let start = only_tokens(count);
    match rule {
        Rule::Expression => closed(all_in_order(start, parts)),
        Rule::Operand(kind) => closed(all_in_order(operand(kind, start), parts)),
        Rule::Above(n, kind) => {
            let form = above(kind, operands(n, start, parts));
            closed(all_in_order(form, behind_operands(n, parts)))
        }
        Rule::Parenthesized => {
            let form = above(inside(parts.first.kind), in_order(start, parts.first));
            closed(all_in_order(form, rest(parts)))
        }
        Rule::Count => counted(start, tokens, parts),
        Rule::CastOperand => cast_operand(start, tokens, parts),
        Rule::Suffix(n, kind) => {
            let form = suffix(kind, Asked::Nothing, operands(n, start, parts));
            all_in_order(form, behind_operands(n, parts))
        }
        Rule::TargetSuffix(n) => {
            let asked = Asked::Target(place_of(0, tokens));
            let form = suffix(Kind::Effect, asked, operands(n, start, parts));
            all_in_order(form, behind_operands(n, parts))
        }
        Rule::EffectFirst => {
            let is_effect = is_effect(parts.first.kind);
            asked_at(
                tokens,
                parts.first.tokens,
                is_effect,
                all_in_order(start, parts),
            )
        }
        Rule::NameEffect => name_effect(start, tokens, parts),
        Rule::Nested => nested(all_in_order(start, parts)),
        Rule::Statements => {
            let first = nested(parts.first);
            all_in_order(start, NodeParts { first, ..parts })
        }
        _ => all_in_order(start, parts),
    }
}

// The form of a node of this rule, with so many tokens beside its parts.
fn form_of(rule: Rule, count: u8, tokens: &[Lexeme<'_>], parts: NodeParts<Form>) -> Form
    ensures { result ≡ plain.with_high (map lexeme_view tokens.now) (plain.made rule count (map lexeme_view tokens.now) parts) }
{
    let form = made(rule, count, tokens, parts);
    Form {
        high: high_at(tokens, form),
        ..form
    }
}

// Whether it is not too high.
#[tactic(auto, using(crate::proofs::Settled::not_too_high))]
fn is_low(form: Form) -> bool
    ensures { result ≡ true → (ts : List PlainLexeme) → plain.high_at ts form form.high ≡ form.high }
{
    if form.height > 200 {
        return false;
    }
    form.nesting <= 200
}

// Whether the place of what is too high in it is known, if something is.
#[tactic(auto, using(crate::proofs::Settled::already_marked))]
fn is_marked(form: Form) -> bool
    ensures { result ≡ true → (ts : List PlainLexeme) → plain.high_at ts form form.high ≡ form.high }
{
    match form.high {
        Some(_) => true,
        None => is_low(form),
    }
}

/// Whether an expression of this form alone has this form.
pub(crate) fn is_settled(form: Form) -> bool
    ensures { result ≡ true → IsSettled form }
{
    if form.adds != 0 {
        return false;
    }
    if form.height > 201 {
        return false;
    }
    if !is_marked(form) {
        return false;
    }
    form.asked == Asked::Nothing
}

// Whether a node's form is that of its first part behind its tokens, where nothing stands behind that, as of a level of expressions
// without an operator of that level.
#[tactic(auto, using(crate::proofs::Settled::stays_behind, crate::proofs::Settled::stays_whole_behind))]
fn is_first(rule: Rule, count: u8, first: Form) -> bool
    ensures { result ≡ true → (ts : List PlainLexeme) → plain.with_high ts (plain.made rule count ts (alone first)) ≡ folding.behind_tokens count first }
{
    if !is_settled(first) {
        return false;
    }
    match rule {
        Rule::Expression | Rule::Parts => true,
        _ => false,
    }
}

// Whether a node is an operand of its first part in parentheses.
#[tactic(auto, using(crate::proofs::Settled::encloses))]
fn is_enclosed(rule: Rule, first: Form) -> bool
    ensures { result ≡ true → (ts : List PlainLexeme) (n : ℕ) → plain.with_high ts (plain.made rule n ts (alone first)) ≡ plain.with_high ts (plain.above (inside_of first.kind) (folding.behind_tokens n first)) }
{
    if !is_settled(first) {
        return false;
    }
    match rule {
        Rule::Parenthesized => true,
        _ => false,
    }
}

fn behind_tokens(count: u8, form: Form) -> Form
    ensures { result ≡ folding.behind_tokens count form }
{
    Form {
        tokens: tokens_of_both(count as u32, form.tokens),
        ..form
    }
}

// In parentheses, behind so many tokens.
fn enclosed(count: u8, tokens: &[Lexeme<'_>], form: Form) -> Form
    ensures { result ≡ plain.with_high (map lexeme_view tokens.now) (plain.above (inside_of form.kind) (folding.behind_tokens count form)) }
{
    let form = above(inside(form.kind), behind_tokens(count, form));
    Form {
        high: high_at(tokens, form),
        ..form
    }
}

// The form of an operand with nothing in it or behind it, as of a name.
#[tactic(auto, using(crate::proofs::Settled::stands_alone))]
fn operand_alone(rule: Rule, count: u8, first: Form) -> Option<Form>
    ensures { IfSome result (λ f. (ts : List PlainLexeme) → plain.with_high ts (plain.made rule count ts (alone first)) ≡ f) }
{
    let Rule::Operand(kind) = rule else {
        return None;
    };
    if first != EMPTY {
        return None;
    }
    Some(Form {
        tokens: count as u32,
        kind,
        ..EMPTY
    })
}

/// Whether nodes of this row have the form of nothing where their parts do.
pub(crate) fn is_blank(row: Row) -> bool
    ensures { result ≡ true → IsBlank row }
{
    match row {
        (0, _, Rule::Parts) => true,
        _ => false,
    }
}

/// The form of a node of this row, behind whose first part nothing stands.
pub(crate) fn form_alone(row: Row, tokens: &[Lexeme<'_>], first: Form) -> Form
    ensures { result ≡ plain.with_high (map lexeme_view tokens.now) (plain.made row.2 row.0 (map lexeme_view tokens.now) (alone first)) }
{
    let (count, _, rule) = row;
    if is_first(rule, count, first) {
        return behind_tokens(count, first);
    }
    if is_enclosed(rule, first) {
        return enclosed(count, tokens, first);
    }
    if let Some(form) = operand_alone(rule, count, first) {
        return form;
    }
    let parts = NodeParts {
        first,
        second: EMPTY,
        third: EMPTY,
        fourth: EMPTY,
    };
    form_of(rule, count, tokens, parts)
}

/// The form of a node of this row.
pub(crate) fn form_by(row: Row, tokens: &[Lexeme<'_>], parts: NodeParts<Form>) -> Form
    ensures { result ≡ plain.with_high (map lexeme_view tokens.now) (plain.made row.2 row.0 (map lexeme_view tokens.now) parts) }
{
    let (count, _, rule) = row;
    form_of(rule, count, tokens, parts)
}
