//! What a node's rule makes of the attributes of its parts.

ghost use Rattle.std.specs.Prelude.{◌≡◌, map};
ghost use Rattle.jd_jml_tokens.specs.Lexemes.{lexeme_view};
ghost use Rattle.jd_jml_attributes.specs.Forms.{form_view, kind_view};
ghost use Rattle.jd_jml_attributes.specs.Judging.{form_by, forms_view};
ghost use Rattle.jd_jml_attributes.specs.Rules as plain;

use crate::form::{EMPTY, Form, Kind, first_of, in_order, inside, is_range, linked, up};
use crate::rows::Rule;
use jd_grammar::NodeParts;
use jd_jml_tokens::{Lexeme, place_of, text_of};

fn all_in_order<'a>(form: Form<'a>, parts: NodeParts<Form<'a>>) -> Form<'a>
    ensures { form_view result ≡ plain.all_in_order (form_view form.entry) (forms_view parts.entry) }
{
    let form = in_order(in_order(form, parts.first), parts.second);
    in_order(in_order(form, parts.third), parts.fourth)
}

fn rest<'a>(parts: NodeParts<Form<'a>>) -> NodeParts<Form<'a>>
    ensures { forms_view result ≡ plain.rest (forms_view parts.entry) }
{
    NodeParts {
        first: parts.second,
        second: parts.third,
        third: parts.fourth,
        fourth: EMPTY,
    }
}

fn operands<'a>(count: u8, parts: NodeParts<Form<'a>>) -> Form<'a>
    ensures { form_view result ≡ plain.operands count (forms_view parts.entry) }
{
    match count {
        0 => EMPTY,
        1 => in_order(EMPTY, parts.first),
        _ => in_order(in_order(EMPTY, parts.first), parts.second),
    }
}

fn behind_operands<'a>(count: u8, parts: NodeParts<Form<'a>>) -> NodeParts<Form<'a>>
    ensures { forms_view result ≡ plain.behind_operands count (forms_view parts.entry) }
{
    match count {
        0 => parts,
        1 => rest(parts),
        _ => rest(rest(parts)),
    }
}

fn of_kind<'a>(kind: Kind<'a>) -> Form<'a>
    ensures { form_view result ≡ plain.of_kind (kind_view kind.entry) }
{
    Form { kind, ..EMPTY }
}

fn above<'a>(kind: Kind<'a>, form: Form<'a>) -> Form<'a>
    ensures { form_view result ≡ plain.above (kind_view kind.entry) (form_view form.entry) }
{
    Form {
        height: up(form.height),
        adds: 0,
        kind,
        cast: None,
        ..form
    }
}

fn suffix<'a>(kind: Kind<'a>, form: Form<'a>) -> Form<'a>
    ensures { form_view result ≡ plain.suffix (kind_view kind.entry) (form_view form.entry) }
{
    Form {
        height: up(form.height),
        adds: 1,
        kind,
        cast: None,
        ..form
    }
}

fn closed<'a>(form: Form<'a>) -> Form<'a>
    ensures { form_view result ≡ plain.closed (form_view form.entry) }
{
    Form {
        adds: 0,
        cast: None,
        ..form
    }
}

fn asked_at<'a>(tokens: &[Lexeme<'_>], number: u32, holds: bool, form: Form<'a>) -> Form<'a>
    ensures { form_view result ≡ plain.asked_at (map lexeme_view tokens.now) number holds (form_view form.entry) }
{
    let place = if holds {
        None
    } else {
        Some(place_of(number, tokens))
    };
    Form {
        fault: first_of(form.fault, place),
        ..form
    }
}

fn parenthesized<'a>(parts: NodeParts<Form<'a>>) -> Form<'a>
    ensures { form_view result ≡ plain.parenthesized (forms_view parts.entry) }
{
    let form = above(inside(parts.first.kind), in_order(EMPTY, parts.first));
    closed(all_in_order(form, rest(parts)))
}

fn cast_operand<'a>(tokens: &[Lexeme<'_>], parts: NodeParts<Form<'a>>) -> Form<'a>
    ensures { form_view result ≡ plain.cast_operand (map lexeme_view tokens.now) (forms_view parts.entry) }
{
    Form {
        cast: Some(place_of(0, tokens)),
        ..above(Kind::Other, in_order(EMPTY, parts.first))
    }
}

fn sum<'a>(tokens: &[Lexeme<'_>], parts: NodeParts<Form<'a>>) -> Form<'a>
    ensures { form_view result ≡ plain.sum (map lexeme_view tokens.now) (forms_view parts.entry) }
{
    let is_range = is_range(parts.first.kind, parts.second.kind);
    let form = above(Kind::Other, all_in_order(EMPTY, parts));
    asked_at(tokens, 4, is_range, form)
}

fn step<'a>(parts: NodeParts<Form<'a>>) -> Form<'a>
    ensures { let p = forms_view parts.entry in form_view result ≡ plain.step_before p.second.kind p }
{
    match parts.second.kind {
        Kind::Same => Form {
            adds: 0,
            kind: Kind::Other,
            cast: None,
            ..in_order(parts.first, parts.second)
        },
        _ => in_order(
            suffix(Kind::Other, in_order(EMPTY, parts.first)),
            parts.second,
        ),
    }
}

fn last<'a>(parts: NodeParts<Form<'a>>) -> Form<'a>
    ensures { form_view result ≡ plain.last (forms_view parts.entry) }
{
    Form {
        adds: 0,
        kind: Kind::Same,
        cast: None,
        ..in_order(EMPTY, parts.first)
    }
}

fn made<'a>(rule: Rule, tokens: &[Lexeme<'a>], parts: NodeParts<Form<'a>>) -> Form<'a>
    ensures { form_view result ≡ plain.made rule (map lexeme_view tokens.now) (forms_view parts.entry) }
{
    match rule {
        Rule::Parts => all_in_order(EMPTY, parts),
        Rule::Expression => closed(all_in_order(EMPTY, parts)),
        Rule::Operand => of_kind(Kind::Other),
        Rule::Identifier => of_kind(Kind::Name(text_of(tokens))),
        Rule::Above => above(Kind::Other, all_in_order(EMPTY, parts)),
        Rule::Parenthesized => parenthesized(parts),
        Rule::CastOperand => cast_operand(tokens, parts),
        Rule::Suffix(count, link) => {
            let form = suffix(linked(link, parts.first.kind), operands(count, parts));
            all_in_order(form, behind_operands(count, parts))
        }
        Rule::Sum => sum(tokens, parts),
        Rule::Step => step(parts),
        Rule::Last => last(parts),
    }
}

fn high_at(tokens: &[Lexeme<'_>], height: u8, high: Option<u32>) -> Option<u32>
    ensures { result ≡ plain.high_at (map lexeme_view tokens.now) height high }
{
    match high {
        Some(at) => Some(at),
        None => {
            if height > 200 {
                Some(place_of(0, tokens))
            } else {
                None
            }
        }
    }
}

/// The form of a node of this rule.
pub(crate) fn form_of<'a>(rule: Rule, tokens: &[Lexeme<'a>], parts: NodeParts<Form<'a>>) -> Form<'a>
    ensures { form_view result ≡ form_by rule (map lexeme_view tokens.now) (forms_view parts.entry) }
{
    let form = made(rule, tokens, parts);
    Form {
        high: high_at(tokens, form.height, form.high),
        ..form
    }
}
