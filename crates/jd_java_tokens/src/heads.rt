//! What the first of some tokens tell.

ghost use Rattle.std.specs.Prelude.{◌≡◌, map};
ghost use Rattle.jd_java_tokens.specs.Heads as plain;
ghost use Rattle.jd_java_tokens.specs.Lexemes.{content_view, lexeme_view};

use crate::lexeme::{Content, Lexeme};

/// The place of the token of that number, from 0; 0 where there is none.
pub fn place_of(number: u32, tokens: &[Lexeme<'_>]) -> u32
    ensures { result ≡ plain.place_of number (map lexeme_view tokens.now) }
{
    match tokens.get(number as usize) {
        Some(token) => token.at,
        None => 0,
    }
}

// What the first token says.
fn first_content<'a>(tokens: &[Lexeme<'a>]) -> Content<'a>
    ensures { content_view result ≡ plain.content_of (map lexeme_view tokens.now) }
{
    match tokens.first() {
        Some(token) => token.content,
        None => Content::Nothing,
    }
}

/// The text of the word that the first token is; none where it is no word.
pub fn text_of<'a>(tokens: &[Lexeme<'a>]) -> &'a [u8]
    ensures { result.now ≡ plain.text_of (map lexeme_view tokens.now) }
{
    match first_content(tokens) {
        Content::Word(text) => text,
        _ => b"",
    }
}

/// The value of the literal that the first token is; 0 where it is none.
pub fn number_of(tokens: &[Lexeme<'_>]) -> u32
    ensures { result ≡ plain.number_of (map lexeme_view tokens.now) }
{
    match first_content(tokens) {
        Content::Number(value) => value,
        _ => 0,
    }
}

/// Whether the first token is a run of JML.
pub fn begins_with_run(tokens: &[Lexeme<'_>]) -> bool
    ensures { result ≡ plain.begins_with_run (map lexeme_view tokens.now) }
{
    match first_content(tokens) {
        Content::Specs(_, _) => true,
        _ => false,
    }
}

/// The numbers of the first token of the run of JML that the first token is, and of that behind its last.
pub fn run_of(tokens: &[Lexeme<'_>]) -> (u32, u32)
    ensures { result ≡ plain.run_of (map lexeme_view tokens.now) }
{
    match first_content(tokens) {
        Content::Specs(from, to) => (from, to),
        _ => (0, 0),
    }
}
