ghost use Rattle.std.specs.Prelude.{◌≡◌, ◌<◌, ◌≤◌, ◌∷◌, length, map, drop, IfOk};
ghost use Rattle.jd_lex.specs.View.{tokens_view};
ghost use Rattle.jd_java_tokens.specs.Lexemes.{jml_length, lexemes_of, lexeme_view};

use crate::lexeme::{Content, Lexeme};
use crate::words::{content_of, kind_of};
use jd_base::NoMemory;
use jd_java_grammar::kinds;
use jd_lex::Token;
use jd_lists::put;
use std::alloc::Global;

/// How many JML tokens stand at the head.
fn jml_len(tokens: &[Token]) -> usize
    ensures within { result ≤ length tokens.now }
    ensures counted { result ≡ jml_length (tokens_view tokens.now) }
{
    for (number, token) in tokens.iter().enumerate() {
        if !token.jml {
            return number;
        }
    }
    tokens.len()
}

/// The lexeme that begins at the token of that number, and the number of the token behind it.
fn lexeme_at<'a>(tokens: &'a [Token], number: usize) -> (Lexeme<'a>, usize)
    requires within { number < length tokens.now }
    requires small { length tokens.now ≤ 4294967295 }
    ensures further { number < result.1 }
    ensures whole { result.1 ≤ length tokens.now }
    ensures first { lexemes_of number (tokens_view (drop number tokens.now))
        ≡ lexeme_view result.0 ∷ lexemes_of result.1 (tokens_view (drop result.1 tokens.now)) }
{
    let token = &tokens[number];
    let at = token.from;
    if token.jml {
        let end = number + jml_len(&tokens[number..]);
        let kind = kinds::SPECS;
        let content = Content::Specs(number as u32, end as u32);
        (Lexeme { kind, at, content }, end)
    } else {
        let kind = kind_of(&token.kind);
        let content = content_of(&token.kind);
        (Lexeme { kind, at, content }, number + 1)
    }
}

/// The lexemes of a file's tokens; each longest run of JML tokens is one.
pub fn lexemes<'a>(alloc: Global, tokens: &'a [Token]) -> Result<Vec<Lexeme<'a>>, NoMemory>
    requires { length tokens.now ≤ 4294967295 }
    ensures { IfOk result (λ v. map lexeme_view v.items ≡ lexemes_of 0 (tokens_view tokens.now)) }
{
    let mut out = Vec::with_capacity(alloc, tokens.len())?;
    let mut number = 0;
    while number < tokens.len() {
        let (lexeme, behind) = lexeme_at(tokens, number);
        put(&mut out, lexeme)?;
        number = behind;
    }
    Ok(out)
}

/// The kinds of lexemes.
pub fn kinds_of(alloc: Global, lexemes: &[Lexeme<'_>]) -> Result<Vec<u8>, NoMemory>
    ensures { IfOk result (λ v. v.items ≡ map (λ l. l.kind) (map lexeme_view lexemes.now)) }
{
    let mut out = Vec::with_capacity(alloc, lexemes.len())?;
    for lexeme in lexemes {
        put(&mut out, lexeme.kind)?;
    }
    Ok(out)
}
