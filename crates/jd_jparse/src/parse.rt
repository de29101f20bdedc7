ghost use Rattle.std.specs.Prelude.{◌≡◌, ◌≤◌, ◌<◌, length, map, min, IfOk, IfErr, IfSome, Some, None};
ghost use Rattle.jd_grammar.specs.Grammars.{Spells as SpellsOrder};
ghost use Rattle.jd_grammar.specs.Readings.{IsRefusal};
ghost use Rattle.jd_syntax.specs.JavaTrees.{unit_view};
ghost use Rattle.jd_lex.specs.View.{token_view, tokens_view};
ghost use Rattle.jd_java_attributes.specs.Judging.{attributes_view, names_of};
ghost use Rattle.jd_java_grammar.specs.Productions.{java_productions};
ghost use Rattle.jd_java_grammar.specs.declared.names.TheConstants.{COMPILATION_UNIT};
ghost use Rattle.jd_java_tokens.specs.Lexemes.{lexeme_view};
ghost use Rattle.jd_jparse.specs.Parses as parses;
ghost use Rattle.jd_jparse.specs.Parses.{IsNoFile, Reads, Refuses, kinds, seen};

use crate::refusal::ParseRefusal;
use jd_base::{NoMemory, copy_bytes};
use jd_grammar::Refusal;
use jd_java_attributes::{judge, rows_fit};
use jd_java_grammar::{one_derivation, parse_java};
use jd_java_tokens::{Lexeme, first_unsupported, kinds_of, lexemes};
use jd_java_trees::tree_of;
use jd_lex::{Token, TokenKind};
use jd_syntax::Unit;
use std::alloc::Global;

// The bytes of a word or a sign.
fn text_of(alloc: Global, token: &Token) -> Result<Vec<u8>, NoMemory>
    ensures { IfOk result (λ v. v.items ≡ parses.text_of (token_view token.now).kind) }
{
    match &token.kind {
        TokenKind::Word(text) | TokenKind::Sign(text) => {
            let text = copy_bytes(alloc, text)?;
            Ok(text)
        }
        TokenKind::Number(_) => Ok(Vec::new(alloc)),
    }
}

// The token of that number, which no file may have.
fn unsupported(alloc: Global, tokens: &[Token], number: usize) -> ParseRefusal
    requires within { number < length tokens.now }
    requires first { parses.first_unsupported (tokens_view tokens.now) ≡ Some number }
    ensures { Refuses (tokens_view tokens.now) result }
{
    let token = &tokens[number];
    match text_of(alloc, token) {
        Ok(what) => ParseRefusal::Unsupported {
            file: 0,
            at: token.from,
            what,
        },
        Err(_) => ParseRefusal::NoMemory,
    }
}

// The offset behind the last token.
fn end_of(tokens: &[Token]) -> u32
    ensures { result ≡ parses.end_of (tokens_view tokens.now) }
{
    match tokens.last() {
        Some(token) => token.to,
        None => 0,
    }
}

// The place of the token of the grammar of that number, or the end.
fn place_of_token(tokens: &[Token], lexemes: &[Lexeme<'_>], number: usize) -> u32
    requires { map lexeme_view lexemes.now ≡ seen (tokens_view tokens.now) }
    ensures { result ≡ parses.place_of_token (tokens_view tokens.now) number }
{
    let end = end_of(tokens);
    match lexemes.get(number) {
        Some(lexeme) => lexeme.at.min(end),
        None => end,
    }
}

// The derivation of the file that the tokens of the grammar are.
fn derivation(alloc: Global, lexemes: &[Lexeme<'_>]) -> Result<Vec<u16>, Refusal>
    ensures ok { IfOk result (λ order. SpellsOrder java_productions COMPILATION_UNIT (kinds (map lexeme_view lexemes.now)) order.items) }
    ensures err { IfErr result (IsRefusal java_productions COMPILATION_UNIT (kinds (map lexeme_view lexemes.now))) }
{
    let Ok(kinds) = kinds_of(alloc, lexemes) else {
        return Err(Refusal::NoMemory);
    };
    parse_java(alloc, &kinds)
}

// The tree of a file that has this derivation, if all in it is as it is asked to be and nothing is too high.
fn judged(
    alloc: Global,
    tokens: &[Token],
    lexemes: &[Lexeme<'_>],
    order: &[u16],
) -> Result<Unit, ParseRefusal>
    requires supported { parses.first_unsupported (tokens_view tokens.now) ≡ None }
    requires seen { map lexeme_view lexemes.now ≡ seen (tokens_view tokens.now) }
    requires derived { SpellsOrder java_productions COMPILATION_UNIT (kinds (map lexeme_view lexemes.now)) order.now }
    ensures read { IfOk result (λ u. Reads (tokens_view tokens.now) (unit_view u)) }
    ensures refused { IfErr result (λ e. Refuses (tokens_view tokens.now) e) }
{
    rows_fit();
    one_derivation();
    let Ok(attributes) = judge(alloc, order, lexemes) else {
        return Err(ParseRefusal::NoMemory);
    };
    if let Some(at) = attributes.fault() {
        let at = at.min(end_of(tokens));
        return Err(ParseRefusal::Syntax { file: 0, at });
    }
    if let Some(at) = attributes.form.high {
        let at = at.min(end_of(tokens));
        return Err(ParseRefusal::TooDeep { file: 0, at });
    }
    match tree_of(alloc, order, lexemes) {
        Ok(unit) => Ok(unit),
        Err(_) => Err(ParseRefusal::NoMemory),
    }
}

// The file of tokens of which none is unsupported.
fn parse_supported(alloc: Global, tokens: &[Token]) -> Result<Unit, ParseRefusal>
    requires within { length tokens.now ≤ 4294967295 }
    requires supported { parses.first_unsupported (tokens_view tokens.now) ≡ None }
    ensures read { IfOk result (λ u. Reads (tokens_view tokens.now) (unit_view u)) }
    ensures refused { IfErr result (λ e. Refuses (tokens_view tokens.now) e) }
{
    let Ok(lexemes) = lexemes(alloc, tokens) else {
        return Err(ParseRefusal::NoMemory);
    };
    match derivation(alloc, &lexemes) {
        Ok(order) => judged(alloc, tokens, &lexemes, &order),
        Err(Refusal::Syntax { at }) => {
            let at = place_of_token(tokens, &lexemes, at);
            Err(ParseRefusal::Syntax { file: 0, at })
        }
        Err(Refusal::NoMemory) => Err(ParseRefusal::NoMemory),
    }
}

/// The file that tokens spell (JLS 7.3), with the JML at its places as blocks whose clauses are read later. Refused are,
/// in this order: a token outside JML that no file may have, tokens that are no file's, and a statement or an expression
/// that is higher than 200.
pub fn parse_unit(alloc: Global, tokens: &[Token]) -> Result<Unit, ParseRefusal>
    requires { length tokens.now ≤ 4294967295 }
    ensures read { IfOk result (λ u. Reads (tokens_view tokens.now) (unit_view u)) }
    ensures refused { IfErr result (λ e. Refuses (tokens_view tokens.now) e) }
{
    if let Some(number) = first_unsupported(tokens) {
        return Err(unsupported(alloc, tokens, number));
    }
    parse_supported(alloc, tokens)
}
