//! The texts of rows, and what is made of them.

use jd_base::{NoMemory, Sort};
use jd_bracketed::{SxRefusal, read_sx};
use jd_syntax::Sx;
use jd_tparse::TermRefusal;
use row_text::{Answer, unescaped};
use std::alloc::Global;

/// The expression that a text is.
pub(crate) fn bracketed(alloc: Global, bytes: &[u8]) -> Result<Option<Sx>, NoMemory> {
    if bytes.len() > 4_294_967_295 {
        return Ok(None);
    }
    match read_sx(alloc, bytes) {
        Ok(x) => Ok(Some(x)),
        Err(SxRefusal::NoMemory) => Err(NoMemory),
        Err(_) => Ok(None),
    }
}

/// The expression that a text with escapes is.
pub(crate) fn expression(alloc: Global, text: &str) -> Result<Option<Sx>, NoMemory> {
    match &unescaped(alloc, text) {
        Ok(Some(bytes)) => bracketed(alloc, bytes),
        Ok(None) => Ok(None),
        Err(_) => Err(NoMemory),
    }
}

/// The two texts of a row.
pub(crate) fn two_texts(text: &str) -> (&str, &str) {
    text.split_once(" | ").unwrap_or((text, ""))
}

/// What was read, where there is something; else the answer says that there is nothing.
pub(crate) fn found<'a, T>(
    answer: &mut Answer,
    read: &'a Result<Option<T>, NoMemory>,
) -> Option<&'a T> {
    match read {
        Ok(Some(x)) => Some(x),
        Ok(None) => {
            answer.put("none");
            None
        }
        Err(NoMemory) => {
            answer.lack_memory();
            None
        }
    }
}

/// What was made, where there was memory for it.
pub(crate) fn made<'a, T>(answer: &mut Answer, made: &'a Result<T, NoMemory>) -> Option<&'a T> {
    match made {
        Ok(x) => Some(x),
        Err(NoMemory) => {
            answer.lack_memory();
            None
        }
    }
}

/// Adds what was made.
pub(crate) fn add<T: Drop>(all: &mut Vec<T>, made: Result<T, NoMemory>) -> Result<(), NoMemory> {
    all.push(made?)?;
    Ok(())
}

/// The sort that a word is; another word is taken for `Field`.
pub(crate) fn sort_in(word: &str) -> Sort {
    match word {
        "Int" => Sort::Int,
        "Bool" => Sort::Bool,
        "Ref" => Sort::Ref,
        "Heap" => Sort::Heap,
        _ => Sort::Field,
    }
}

pub(crate) fn put_if(answer: &mut Answer, holds: bool) {
    answer.put(if holds { "yes" } else { "no" });
}

pub(crate) fn put_refusal(answer: &mut Answer, refusal: TermRefusal) {
    match refusal {
        TermRefusal::Syntax => answer.put("Syntax"),
        TermRefusal::UnknownSymbol => answer.put("UnknownSymbol"),
        TermRefusal::SortMismatch => answer.put("SortMismatch"),
        TermRefusal::TooDeep => answer.put("TooDeep"),
        TermRefusal::NoMemory => answer.lack_memory(),
    }
}

fn tell_copy(answer: &mut Answer, alloc: Global, x: &Sx, y: &Sx) {
    if let Some(copied) = made(answer, &x.copy(alloc)) {
        put_if(answer, copied.equals(y));
    }
}

/// Whether a copy of one expression is the other: `expression equals TEXT | TEXT`.
pub(crate) fn tell_same(answer: &mut Answer, alloc: Global, text: &str) {
    let (one, other) = two_texts(text);
    if let Some(x) = found(answer, &expression(alloc, one)) {
        if let Some(y) = found(answer, &expression(alloc, other)) {
            tell_copy(answer, alloc, x, y);
        }
    }
}
