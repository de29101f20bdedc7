ghost use Rattle.std.specs.Prelude.{◌≡◌, ◌<◌, ◌≤◌, ◌+◌, length, drop, true, IsTrue, MatchOption};
ghost use Rattle.jd_lex.specs.Bytes.{in_line, IsRun};
ghost use Rattle.jd_lex.specs.Parts.{start_of, NoClose};
ghost use Rattle.jd_lex.specs.Lexing.{IsJmlPart, IsJmlFault, JmlPart};
ghost use Rattle.jd_lex.specs.Lens.{Head, ClosesAt};
ghost use Rattle.jd_lex.specs.View.{StepGives, Adds};
ghost use Rattle.jd_lex.specs.declared.starts.Start.{Start};
ghost use Rattle.jd_lex.specs.declared.starts.Start.TheVariants.{LineComment, BlockComment};

use crate::parts::{number_part, sign_part, word_part};
use crate::runs::{ByteKind, close_at, run_len, white_len};
use crate::starts::{Start, start_of};
use crate::token::{LexRefusal, Token};
use std::alloc::Global;

/// The length of the text of the comment to the line's end that stands at the head.
pub fn line_len(bytes: &[u8]) -> usize
    requires { 2 ≤ length bytes.now }
    ensures { Head (IsRun in_line) (drop 2 bytes.now) result }
{
    let (_opening, behind) = bytes.split_at(2);
    run_len(ByteKind::InLine, behind)
}

/// The length of the text of the comment up to `*/` that stands at the head; none where it is not closed.
pub fn block_len(bytes: &[u8]) -> Option<usize>
    requires { 2 ≤ length bytes.now }
    ensures { MatchOption result (NoClose (drop 2 bytes.now)) (λ n. ClosesAt (drop 2 bytes.now) n) }
{
    let (_opening, behind) = bytes.split_at(2);
    close_at(behind)
}

/// The same in JML, where `unclosed` says that nothing is closed any more.
fn known_block_len(bytes: &[u8], unclosed: &mut bool) -> Option<usize>
    requires two { 2 ≤ length bytes.now }
    requires known { IsTrue unclosed.old → NoClose (drop 2 bytes.now) }
    ensures len { MatchOption result (NoClose (drop 2 bytes.now)) (λ n. ClosesAt (drop 2 bytes.now) n) }
    ensures known { IsTrue unclosed.new → NoClose (drop 2 bytes.now) }
{
    if *unclosed {
        return None;
    }
    match block_len(bytes) {
        Some(n) => Some(n),
        None => {
            *unclosed = true;
            None
        }
    }
}

/// A comment up to `*/`, or the first sign of what opens one that is not closed.
fn jml_block(
    alloc: Global,
    out: &mut Vec<Token>,
    bytes: &[u8],
    at: usize,
    unclosed: &mut bool,
) -> Result<usize, LexRefusal>
    requires start { start_of true bytes.now ≡ BlockComment }
    requires some { 2 ≤ length bytes.now }
    requires small { at + length bytes.now ≤ 1048576 }
    requires known { IsTrue unclosed.old → NoClose (drop 2 bytes.now) }
    ensures step { StepGives (JmlPart BlockComment) (λ _. ⊥) at bytes.now out.old.items out.new.items result }
    ensures known { IsTrue unclosed.new → NoClose (drop 2 bytes.now) }
{
    match known_block_len(bytes, unclosed) {
        Some(n) => Ok(n + 4),
        None => sign_part(alloc, out, true, bytes, at),
    }
}

/// The part at the head of a JML text.
fn jml_part(
    alloc: Global,
    out: &mut Vec<Token>,
    bytes: &[u8],
    at: usize,
    unclosed: &mut bool,
) -> Result<usize, LexRefusal>
    requires some { 0 < length bytes.now }
    requires small { at + length bytes.now ≤ 1048576 }
    requires known { IsTrue unclosed.old → NoClose (drop 2 bytes.now) }
    ensures step { StepGives IsJmlPart (IsJmlFault at bytes.now) at bytes.now out.old.items out.new.items result }
    ensures known { IsTrue unclosed.new → NoClose (drop 2 bytes.now) }
{
    match start_of(true, bytes) {
        Start::White => Ok(white_len(true, bytes)),
        Start::WordStart => word_part(alloc, out, true, bytes, at),
        Start::NumberStart => number_part(out, true, bytes, at),
        Start::LineComment => Ok(line_len(bytes) + 2),
        Start::BlockComment => jml_block(alloc, out, bytes, at, unclosed),
        Start::SignStart => sign_part(alloc, out, true, bytes, at),
    }
}

/// Adds the tokens of a JML text that stands at that place.
pub fn jml_tokens(
    alloc: Global,
    out: &mut Vec<Token>,
    text: &[u8],
    at: usize,
) -> Result<(), LexRefusal>
    requires { at + length text.now ≤ 1048576 }
    ensures { Adds IsJmlPart IsJmlFault at text.now out.old.items out.new.items result }
{
    let mut rest = text;
    let mut here = at;
    let mut unclosed = false;
    while !rest.is_empty() {
        match jml_part(alloc, out, rest, here, &mut unclosed) {
            Ok(n) => {
                let (_part, behind) = rest.split_at(n);
                rest = behind;
                here += n;
            }
            Err(e) => return Err(e),
        }
    }
    Ok(())
}
