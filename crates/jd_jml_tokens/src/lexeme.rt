//! Tokens with their kinds.

ghost use Rattle.std.specs.Prelude.{◌≡◌, map, IfOk};
ghost use Rattle.jd_lex.specs.View.{tokens_view};
ghost use Rattle.jd_jml_tokens.specs.Lexemes as plain;
ghost use Rattle.jd_jml_tokens.specs.Lexemes.{lexeme_view, lexemes_of};

use crate::words::kind_of;
use jd_base::NoMemory;
use jd_lex::Token;
use jd_lists::put;
use std::alloc::Global;

/// A token of the grammar of JML.
#[derive(Clone, Copy)]
pub struct Lexeme<'a> {
    /// Its kind, of `jd_jml_grammar::kinds`.
    pub kind: u8,
    /// The token.
    pub token: &'a Token,
}

/// The tokens with their kinds.
pub fn lexemes<'a>(alloc: Global, tokens: &'a [Token]) -> Result<Vec<Lexeme<'a>>, NoMemory>
    ensures { IfOk result (λ v. map lexeme_view v.items ≡ lexemes_of (tokens_view tokens.now)) }
{
    let mut out = Vec::with_capacity(alloc, tokens.len())?;
    for token in tokens {
        let kind = kind_of(&token.kind);
        put(&mut out, Lexeme { kind, token })?;
    }
    Ok(out)
}

/// The kinds of lexemes.
pub fn kinds_of(alloc: Global, lexemes: &[Lexeme<'_>]) -> Result<Vec<u8>, NoMemory>
    ensures { IfOk result (λ v. v.items ≡ plain.kinds_of (map lexeme_view lexemes.now)) }
{
    let mut out = Vec::with_capacity(alloc, lexemes.len())?;
    for lexeme in lexemes {
        put(&mut out, lexeme.kind)?;
    }
    Ok(out)
}
