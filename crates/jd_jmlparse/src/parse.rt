ghost use Rattle.std.specs.Prelude.{◌≡◌, length, map, min, IfOk, IfErr, true};
ghost use Rattle.jd_grammar.specs.Grammars.{Spells as SpellsOrder};
ghost use Rattle.jd_grammar.specs.Readings.{IsRefusal};
ghost use Rattle.jd_lex.specs.View.{tokens_view};
ghost use Rattle.jd_jml_attributes.specs.Judging.{names_of};
ghost use Rattle.jd_jml_grammar.specs.Jml.{is_place};
ghost use Rattle.jd_jml_grammar.specs.Productions.{jml_productions};
ghost use Rattle.jd_jml_tokens.specs.Lexemes.{kinds_of as the_kinds, lexeme_view, lexemes_of};
ghost use Rattle.jd_jml_values.specs.Views.{in_order};
ghost use Rattle.jd_syntax.specs.SpecTrees.{clause_view};
ghost use Rattle.jd_jmlparse.specs.Parses as parses;
ghost use Rattle.jd_jmlparse.specs.Parses.{Reads, Refuses};
ghost use Rattle.jd_jmlparse.specs.Places as places;

use jd_base::NoMemory;
use jd_grammar::Refusal;
use jd_jml_attributes::{judge, rows_fit};
use jd_jml_grammar::{names, one_derivation, parse_jml};
use jd_jml_tokens::{Lexeme, kinds_of, lexemes};
use jd_jml_trees::clauses_of;
use jd_jparse::ParseRefusal;
use jd_lex::Token;
use jd_syntax::{SpecClause, SpecPlace};
use std::alloc::Global;

// The name of the grammar that the JML of a place is of.
fn name_of(place: SpecPlace) -> u8
    ensures is { result ≡ places.name_of place }
    ensures starts { is_place result ≡ true }
{
    match place {
        SpecPlace::Field => names::FIELD_SPECS,
        SpecPlace::Method => names::METHOD_SPECS,
        SpecPlace::Modifier => names::MODIFIER_SPECS,
        SpecPlace::Loop => names::LOOP_SPECS,
        SpecPlace::ClassEnd => names::CLASS_END_SPECS,
    }
}

// The offset behind the last token.
fn end_of(tokens: &[Token]) -> u32
    ensures { result ≡ parses.end_of (tokens_view tokens.now) }
{
    match tokens.last() {
        Some(token) => token.to,
        None => 0,
    }
}

// The place of the token of that number, or the end.
fn place_of_token(tokens: &[Token], number: usize) -> u32
    ensures { result ≡ parses.place_of_token (tokens_view tokens.now) number }
{
    let end = end_of(tokens);
    match tokens.get(number) {
        Some(token) => token.from.min(end),
        None => end,
    }
}

// The derivation of the JML of a place that tokens are.
fn derivation(alloc: Global, place: SpecPlace, lexemes: &[Lexeme<'_>]) -> Result<Vec<u16>, Refusal>
    ensures ok { IfOk result (λ order. SpellsOrder jml_productions (places.name_of place) (the_kinds (map lexeme_view lexemes.now)) order.items) }
    ensures err { IfErr result (IsRefusal jml_productions (places.name_of place) (the_kinds (map lexeme_view lexemes.now))) }
{
    let Ok(kinds) = kinds_of(alloc, lexemes) else {
        return Err(Refusal::NoMemory);
    };
    parse_jml(alloc, name_of(place), &kinds)
}

// The clauses of the JML that has this derivation, if all in it is as it is asked to be and nothing is too high.
fn judged(
    alloc: Global,
    place: SpecPlace,
    tokens: &[Token],
    lexemes: &[Lexeme<'_>],
    order: &[u16],
) -> Result<Vec<SpecClause>, ParseRefusal>
    requires seen { map lexeme_view lexemes.now ≡ lexemes_of (tokens_view tokens.now) }
    requires derived { SpellsOrder jml_productions (places.name_of place) (the_kinds (map lexeme_view lexemes.now)) order.now }
    ensures read { IfOk result (λ cs. Reads place (tokens_view tokens.now) (in_order clause_view cs)) }
    ensures refused { IfErr result (λ e. Refuses place (tokens_view tokens.now) e) }
{
    rows_fit();
    one_derivation();
    let Ok(form) = judge(alloc, order, lexemes) else {
        return Err(ParseRefusal::NoMemory);
    };
    if let Some(at) = form.fault {
        let at = at.min(end_of(tokens));
        return Err(ParseRefusal::Syntax { file: 0, at });
    }
    if let Some(at) = form.high {
        let at = at.min(end_of(tokens));
        return Err(ParseRefusal::TooDeep { file: 0, at });
    }
    match clauses_of(alloc, order, lexemes) {
        Ok(clauses) => Ok(clauses),
        Err(_) => Err(ParseRefusal::NoMemory),
    }
}

/// The clauses that tokens spell at a place where JML stands (JML Reference Manual, appendix A). Refused are, in this order, tokens
/// that are no JML of that place, and an expression that is higher than 200.
pub fn parse_spec(
    alloc: Global,
    place: SpecPlace,
    tokens: &[Token],
) -> Result<Vec<SpecClause>, ParseRefusal>
    ensures read { IfOk result (λ cs. Reads place (tokens_view tokens.now) (in_order clause_view cs)) }
    ensures refused { IfErr result (λ e. Refuses place (tokens_view tokens.now) e) }
{
    let Ok(lexemes) = lexemes(alloc, tokens) else {
        return Err(ParseRefusal::NoMemory);
    };
    match derivation(alloc, place, &lexemes) {
        Ok(order) => judged(alloc, place, tokens, &lexemes, &order),
        Err(Refusal::Syntax { at }) => {
            let at = place_of_token(tokens, at);
            Err(ParseRefusal::Syntax { file: 0, at })
        }
        Err(Refusal::NoMemory) => Err(ParseRefusal::NoMemory),
    }
}
