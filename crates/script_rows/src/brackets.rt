//! Tokens and bracketed expressions.

ghost use Rattle.std.specs.Prelude.{◌≤◌, length};

use jd_base::NoMemory;
use jd_bracketed::{Kind, SxRefusal, Token, Tokens, read_sx};
use jd_syntax::Sx;
use jd_written::Written;
use std::alloc::Global;
use std::str::from_utf8;

/// How a token is written.
#[derive(Clone, Copy)]
pub(crate) enum Form {
    /// As a word, behind its offset.
    Placed,
    /// As it stands.
    Plain,
    /// A word as the integer that it is.
    Integer,
    /// A word as the number of 64 bits that it is.
    Number,
}

fn write_word(out: &mut Written, form: Form, word: &[u8]) -> Result<(), NoMemory> {
    let digits = from_utf8(word).unwrap_or("");
    match form {
        Form::Placed | Form::Plain => out.word(word),
        Form::Integer => match digits.parse::<i128>() {
            Ok(n) => out.integer(n),
            Err(_) => out.word(b"no-integer"),
        },
        Form::Number => match digits.parse::<u64>() {
            Ok(n) => out.number(n),
            Err(_) => out.word(b"no-number"),
        },
    }
}

fn write_token(out: &mut Written, form: Form, kind: Kind<'_>) -> Result<(), NoMemory> {
    match kind {
        Kind::Open => out.open(),
        Kind::Close => out.close(),
        Kind::OpenSquare => out.open_square(),
        Kind::CloseSquare => out.close_square(),
        Kind::Word(word) => write_word(out, form, word),
        Kind::Bad => out.word(b"bad"),
    }
}

fn write_placed(out: &mut Written, token: Token<'_>) -> Result<(), NoMemory> {
    out.number(u64::from(token.at))?;
    match token.kind {
        Kind::Open => out.word(b"("),
        Kind::Close => out.word(b")"),
        Kind::OpenSquare => out.word(b"["),
        Kind::CloseSquare => out.word(b"]"),
        Kind::Word(word) => out.word(word),
        Kind::Bad => out.word(b"bad"),
    }
}

/// The tokens of the text.
pub(crate) fn tokens(out: &mut Written, form: Form, text: &[u8]) -> Result<(), NoMemory>
    requires { length text.now ≤ 4294967295 }
{
    let mut tokens = Tokens::new(text);
    for _ in 0..text.len() {
        let Some(token) = tokens.next() else { break };
        match form {
            Form::Placed => write_placed(out, token)?,
            _ => write_token(out, form, token.kind)?,
        }
    }
    Ok(())
}

// Writes a word, or opens a list.
fn write_first<'a>(out: &mut Written, open: &mut Vec<&'a [Sx]>, x: &'a Sx) -> Result<(), NoMemory> {
    match x {
        Sx::Atom(word) => out.word(word),
        Sx::List(parts) => {
            open.push(parts.as_slice())?;
            out.open()
        }
    }
}

// Writes the next token of the lists that are open, by their parts to come, the innermost last; whether there was one.
fn write_next<'a>(out: &mut Written, open: &mut Vec<&'a [Sx]>) -> Result<bool, NoMemory> {
    match open.pop() {
        None => return Ok(false),
        Some([]) => out.close()?,
        Some([part, rest @ ..]) => {
            open.push(rest)?;
            write_first(out, open, part)?;
        }
    }
    Ok(true)
}

// Writes an expression of at most so many tokens.
fn write_sx<'a>(
    out: &mut Written,
    open: &mut Vec<&'a [Sx]>,
    x: &'a Sx,
    most: usize,
) -> Result<(), NoMemory> {
    write_first(out, open, x)?;
    for _ in 0..most {
        if !write_next(out, open)? {
            break;
        }
    }
    Ok(())
}

/// Writes a refusal and its offset.
pub(crate) fn write_at(out: &mut Written, refusal: &[u8], at: u32) -> Result<(), NoMemory> {
    out.word(refusal)?;
    out.number(u64::from(at))
}

// Writes the tokens of an expression of at most so many.
fn write_tokens(alloc: Global, out: &mut Written, x: &Sx, most: usize) -> Result<(), NoMemory> {
    let mut open = Vec::new(alloc);
    write_sx(out, &mut open, x, most)
}

/// The expression that the text is.
pub(crate) fn sx(alloc: Global, out: &mut Written, text: &[u8]) -> Result<(), NoMemory>
    requires { length text.now ≤ 4294967295 }
{
    match &read_sx(alloc, text) {
        Ok(x) => write_tokens(alloc, out, x, text.len()),
        Err(SxRefusal::Syntax { at, .. }) => write_at(out, b"Syntax", *at),
        Err(SxRefusal::Truncated) => out.word(b"Truncated"),
        Err(SxRefusal::TooDeep { at, .. }) => write_at(out, b"TooDeep", *at),
        Err(SxRefusal::NoMemory) => Err(NoMemory),
    }
}
