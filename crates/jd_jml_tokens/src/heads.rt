//! What the first of some tokens tell.

ghost use Rattle.std.specs.Prelude.{◌≡◌, map};
ghost use Rattle.jd_lex.specs.View.{kind_view};
ghost use Rattle.jd_jml_tokens.specs.Lexemes as plain;
ghost use Rattle.jd_jml_tokens.specs.Lexemes.{lexeme_view};

use crate::lexeme::Lexeme;
use jd_lex::TokenKind;

/// The place of the token of that number, from 0; 0 where there is none.
pub fn place_of(number: u32, tokens: &[Lexeme<'_>]) -> u32
    ensures { result ≡ plain.place_of number (map lexeme_view tokens.now) }
{
    match tokens.get(number as usize) {
        Some(lexeme) => lexeme.token.from,
        None => 0,
    }
}

fn word_in(kind: &TokenKind) -> &[u8]
    ensures { result.now ≡ plain.word_in (kind_view kind.now) }
{
    match kind {
        TokenKind::Word(text) => text,
        _ => b"",
    }
}

/// The text of the word that the first token is; none where it is no word.
pub fn text_of<'a>(tokens: &[Lexeme<'a>]) -> &'a [u8]
    ensures { result.now ≡ plain.text_of (map lexeme_view tokens.now) }
{
    match tokens.first() {
        Some(lexeme) => word_in(&lexeme.token.kind),
        None => b"",
    }
}

fn number_in(kind: &TokenKind) -> i128
    ensures { result ≡ plain.number_in (kind_view kind.now) }
{
    match kind {
        TokenKind::Number(value) => *value,
        _ => 0,
    }
}

/// The value of the literal that the first token is; 0 where it is none.
pub fn number_of(tokens: &[Lexeme<'_>]) -> i128
    ensures { result ≡ plain.number_of (map lexeme_view tokens.now) }
{
    match tokens.first() {
        Some(lexeme) => number_in(&lexeme.token.kind),
        None => 0,
    }
}
