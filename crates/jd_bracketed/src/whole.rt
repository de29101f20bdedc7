ghost use Rattle.std.specs.Prelude.{◌≤◌, length};
ghost use Rattle.jd_bracketed.specs.Tokens.{tokens_of};
ghost use Rattle.jd_bracketed.specs.Answers.{Answers, most_levels};

use crate::reading::{Reading, Stop, stepped};
use crate::refusal::SxRefusal;
use crate::tokens::Tokens;
use jd_syntax::Sx;
use std::alloc::Global;

// How many levels of brackets an expression may have.
const MOST_LEVELS: usize = 1000;

// The expression that a text is, with at most that many levels of brackets.
fn read_within(alloc: Global, bytes: &[u8], limit: usize) -> Result<Sx, SxRefusal>
    requires { length bytes.now ≤ 4294967295 }
    ensures { Answers limit (tokens_of bytes.now) result }
{
    let mut tokens = Tokens::new(bytes);
    let mut reading = Reading::Before;
    while let Some(token) = tokens.next() {
        let at = token.at;
        match stepped(alloc, limit, reading, token.kind) {
            Ok(next) => reading = next,
            Err(Stop::Syntax) => return Err(SxRefusal::Syntax { file: 0, at }),
            Err(Stop::TooDeep) => return Err(SxRefusal::TooDeep { file: 0, at }),
            Err(Stop::NoMemory) => return Err(SxRefusal::NoMemory),
        }
    }
    match reading {
        Reading::Whole(x) => Ok(x),
        _ => Err(SxRefusal::Truncated),
    }
}

/// The bracketed expression that a text is: one word, or a list in round brackets of at most 1,000 levels, with white space
/// and comments around it. Square brackets have no place in it.
///
/// # Errors
///
/// The first of these in the text: `Syntax` at the first token with which no expression goes on though those before it begin
/// one, `TooDeep` at the bracket that opens level 1,001, `Truncated` where the text ends before the expression does.
/// `NoMemory` if memory runs out.
pub fn read_sx(alloc: Global, bytes: &[u8]) -> Result<Sx, SxRefusal>
    requires { length bytes.now ≤ 4294967295 }
    ensures { Answers most_levels (tokens_of bytes.now) result }
{
    read_within(alloc, bytes, MOST_LEVELS)
}
