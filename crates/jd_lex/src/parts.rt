ghost use Rattle.std.specs.Prelude.{◌≡◌, ◌<◌, ◌≤◌, ◌+◌, ◌++◌, ◌∷◌, [], length, ◌^◌, OnOk, IfErr};
ghost use Rattle.jd_lex.specs.Parts.{start_of, IsPlain, IsPlainFault};
ghost use Rattle.jd_lex.specs.View.{kind_view, tokens_view, StepGives};
ghost use Rattle.jd_lex.specs.declared.starts.Start.TheVariants.{WordStart, NumberStart, SignStart};
ghost use Rattle.jd_lex.specs.declared.token.LexRefusal.TheVariants as Refusal;

use crate::runs::{numeral_len, value_of, word_len};
use crate::signs::sign_len;
use crate::token::{LexRefusal, Token, TokenKind};
use jd_base::copy_bytes;
use jd_lists::put;
use std::alloc::Global;

/// The greatest `int` literal, behind a minus sign (JLS 3.10.1).
const JAVA_LIMIT: u128 = 2147483648;

/// The greatest number in JML.
const JML_LIMIT: u128 = 170141183460469231731687303715884105727;

/// Adds the token of n bytes at that place.
fn push(
    out: &mut Vec<Token>,
    kind: TokenKind,
    jml: bool,
    at: usize,
    n: usize,
) -> Result<(), LexRefusal>
    requires { at + n ≤ 1048576 }
    ensures ok { OnOk result (tokens_view out.new.items ≡ tokens_view out.old.items ++ record { kind = kind_view kind; begins = at; ends = at + n; jml = jml } ∷ []) }
    ensures err { IfErr result (λ e. e ≡ Refusal.NoMemory) }
{
    put(
        out,
        Token {
            kind,
            from: at as u32,
            to: (at + n) as u32,
            jml,
        },
    )?;
    Ok(())
}

/// Adds the word at the head, and answers its length.
pub fn word_part(
    alloc: Global,
    out: &mut Vec<Token>,
    jml: bool,
    bytes: &[u8],
    at: usize,
) -> Result<usize, LexRefusal>
    requires some { 0 < length bytes.now }
    requires small { at + length bytes.now ≤ 1048576 }
    ensures { StepGives (IsPlain WordStart jml) (λ _. ⊥) at bytes.now out.old.items out.new.items result }
{
    let n = word_len(bytes);
    let (text, _behind) = bytes.split_at(n);
    push(out, TokenKind::Word(copy_bytes(alloc, text)?), jml, at, n)?;
    Ok(n)
}

fn limit_of(jml: bool) -> u128
    ensures is { result ≡ Rattle.jd_lex.specs.Parts.limit jml }
    ensures small { result < 2 ^ 127 }
{
    if jml { JML_LIMIT } else { JAVA_LIMIT }
}

/// Adds the number at the head, and answers its length.
pub fn number_part(
    out: &mut Vec<Token>,
    jml: bool,
    bytes: &[u8],
    at: usize,
) -> Result<usize, LexRefusal>
    requires some { 0 < length bytes.now }
    requires digit { start_of jml bytes.now ≡ NumberStart }
    requires small { at + length bytes.now ≤ 1048576 }
    ensures { StepGives (IsPlain NumberStart jml) (IsPlainFault NumberStart jml at bytes.now) at bytes.now out.old.items out.new.items result }
{
    let n = numeral_len(bytes);
    let (text, _behind) = bytes.split_at(n);
    match value_of(text, limit_of(jml)) {
        None => Err(LexRefusal::BigLiteral {
            file: 0,
            at: at as u32,
        }),
        Some(value) => {
            push(out, TokenKind::Number(value as i128), jml, at, n)?;
            Ok(n)
        }
    }
}

/// Adds the sign at the head, and answers its length.
pub fn sign_part(
    alloc: Global,
    out: &mut Vec<Token>,
    jml: bool,
    bytes: &[u8],
    at: usize,
) -> Result<usize, LexRefusal>
    requires some { 0 < length bytes.now }
    requires small { at + length bytes.now ≤ 1048576 }
    ensures { StepGives (IsPlain SignStart jml) (IsPlainFault SignStart jml at bytes.now) at bytes.now out.old.items out.new.items result }
{
    let n = sign_len(jml, bytes);
    if n == 0 {
        return Err(LexRefusal::BadByte {
            file: 0,
            at: at as u32,
        });
    }
    let (text, _behind) = bytes.split_at(n);
    push(out, TokenKind::Sign(copy_bytes(alloc, text)?), jml, at, n)?;
    Ok(n)
}
