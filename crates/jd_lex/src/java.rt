ghost use Rattle.std.specs.Prelude.{◌≡◌, ◌<◌, ◌≤◌, ◌+◌, ℕ, false, length, IfSome, IfNone};
ghost use Rattle.jd_lex.specs.Parts.{start_of, jml_text, Token};
ghost use Rattle.jd_lex.specs.Lexing.{IsJavaPart, JavaPart, JavaFault, IsJavaFault, IsEscape};
ghost use Rattle.jd_lex.specs.View.{earlier_of, StepGives, CommentAdds, Lexes, Answers};
ghost use Rattle.jd_lex.specs.declared.starts.Start.TheVariants.{LineComment, BlockComment};

use crate::jml::{block_len, jml_tokens, line_len};
use crate::parts::{number_part, sign_part, word_part};
use crate::runs::{trimmed_len, white_len};
use crate::starts::{Start, start_of};
use crate::token::{LexRefusal, Token};
use std::alloc::Global;

/// Adds the tokens of the JML text of a comment at that place, where it is JML.
fn comment_tokens(
    alloc: Global,
    out: &mut Vec<Token>,
    block: bool,
    body: &[u8],
    at: usize,
) -> Result<(), LexRefusal>
    requires { at + 2 + length body.now ≤ 1048576 }
    ensures { CommentAdds at (jml_text block body.now) out.old.items out.new.items result }
{
    if body.is_empty() {
        return Ok(());
    }
    if body[0] != b'@' {
        return Ok(());
    }
    let (_at, text) = body.split_at(1);
    if block {
        let (text, _ats) = text.split_at(trimmed_len(text));
        jml_tokens(alloc, out, text, at + 3)
    } else {
        jml_tokens(alloc, out, text, at + 3)
    }
}

/// A comment to the line's end, and the tokens of its JML text.
fn line_comment(
    alloc: Global,
    out: &mut Vec<Token>,
    bytes: &[u8],
    at: usize,
) -> Result<usize, LexRefusal>
    requires start { start_of false bytes.now ≡ LineComment }
    requires some { 2 ≤ length bytes.now }
    requires small { at + length bytes.now ≤ 1048576 }
    ensures { StepGives (JavaPart LineComment) (JavaFault LineComment at bytes.now) at bytes.now out.old.items out.new.items result }
{
    let n = line_len(bytes);
    let (_opening, behind) = bytes.split_at(2);
    let (body, _after) = behind.split_at(n);
    match comment_tokens(alloc, out, false, body, at) {
        Ok(_) => Ok(n + 2),
        Err(e) => Err(e),
    }
}

/// A comment up to `*/`, and the tokens of its JML text.
fn block_comment(
    alloc: Global,
    out: &mut Vec<Token>,
    bytes: &[u8],
    at: usize,
) -> Result<usize, LexRefusal>
    requires start { start_of false bytes.now ≡ BlockComment }
    requires some { 2 ≤ length bytes.now }
    requires small { at + length bytes.now ≤ 1048576 }
    ensures { StepGives (JavaPart BlockComment) (JavaFault BlockComment at bytes.now) at bytes.now out.old.items out.new.items result }
{
    match block_len(bytes) {
        None => Err(LexRefusal::OpenComment {
            file: 0,
            at: at as u32,
        }),
        Some(n) => {
            let (_opening, behind) = bytes.split_at(2);
            let (body, _after) = behind.split_at(n);
            match comment_tokens(alloc, out, true, body, at) {
                Ok(_) => Ok(n + 4),
                Err(e) => Err(e),
            }
        }
    }
}

/// The part at the head of a Java text.
fn java_part(
    alloc: Global,
    out: &mut Vec<Token>,
    bytes: &[u8],
    at: usize,
) -> Result<usize, LexRefusal>
    requires some { 0 < length bytes.now }
    requires small { at + length bytes.now ≤ 1048576 }
    ensures { StepGives IsJavaPart (IsJavaFault at bytes.now) at bytes.now out.old.items out.new.items result }
{
    match start_of(false, bytes) {
        Start::White => Ok(white_len(false, bytes)),
        Start::WordStart => word_part(alloc, out, false, bytes, at),
        Start::NumberStart => number_part(out, false, bytes, at),
        Start::LineComment => line_comment(alloc, out, bytes, at),
        Start::BlockComment => block_comment(alloc, out, bytes, at),
        Start::SignStart => sign_part(alloc, out, false, bytes, at),
    }
}

/// The tokens of a text, whatever Unicode escapes stand in it.
fn java_tokens(alloc: Global, bytes: &[u8]) -> Result<Vec<Token>, LexRefusal>
    requires { length bytes.now ≤ 1048576 }
    ensures { Lexes bytes.now result }
{
    let mut out = Vec::with_capacity(alloc, bytes.len())?;
    let mut rest = bytes;
    let mut here = 0;
    while !rest.is_empty() {
        match java_part(alloc, &mut out, rest, here) {
            Ok(n) => {
                let (_part, behind) = rest.split_at(n);
                rest = behind;
                here += n;
            }
            Err(e) => return Err(e),
        }
    }
    Ok(out)
}

/// Where the first Unicode escape stands (JLS 3.3).
fn first_escape(bytes: &[u8]) -> Option<usize>
    ensures some { IfSome result (λ at. IsEscape bytes.now at × ((k : ℕ) → k < at → IsEscape bytes.now k → ⊥)) }
    ensures none { IfNone result ((k : ℕ) → IsEscape bytes.now k → ⊥) }
{
    let mut odd = false;
    let mut n = 0;
    while n + 1 < bytes.len() {
        let backslash = bytes[n] == b'\\';
        if backslash && !odd && bytes[n + 1] == b'u' {
            return Some(n);
        }
        odd = backslash && !odd;
        n += 1;
    }
    None
}

/// The refusal, or that of the escape where it stands before.
fn earlier(refusal: LexRefusal, escape: usize) -> LexRefusal
    requires { escape ≤ 1048576 }
    ensures { result ≡ earlier_of refusal escape }
{
    let at = match refusal {
        LexRefusal::BadByte { at, .. } => at,
        LexRefusal::OpenComment { at, .. } => at,
        LexRefusal::BigLiteral { at, .. } => at,
        LexRefusal::NoMemory => return LexRefusal::NoMemory,
    };
    if at as usize <= escape {
        refusal
    } else {
        LexRefusal::BadByte {
            file: 0,
            at: escape as u32,
        }
    }
}

/// The tokens of a Java source text and of its JML comments (JLS 3, JML Reference Manual 4), of at most
/// 1 MiB; else its first fault.
pub fn tokens(alloc: Global, bytes: &[u8]) -> Result<Vec<Token>, LexRefusal>
    requires { length bytes.now ≤ 1048576 }
    ensures { Answers bytes.now result }
{
    match java_tokens(alloc, bytes) {
        Ok(found) => match first_escape(bytes) {
            None => Ok(found),
            Some(at) => Err(LexRefusal::BadByte {
                file: 0,
                at: at as u32,
            }),
        },
        Err(e) => match first_escape(bytes) {
            None => Err(e),
            Some(at) => Err(earlier(e, at)),
        },
    }
}
