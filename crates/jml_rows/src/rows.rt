//! A line, and what it asks.

use crate::files::tell_file;
use crate::printing::tell_printed;
use jd_jmlparse::parse_spec;
use jd_jparse::ParseRefusal;
use jd_lex::{Token, tokens};
use jd_syntax::SpecPlace;
use row_text::{Answer, first_word, unescaped};
use std::alloc::{AllocError, Global};

/// How long a text may be.
pub(crate) const GREATEST_LENGTH: usize = 1048576;

/// How many bytes open the comment that a text stands in.
pub(crate) const OPENING: u32 = 3;

pub(crate) fn place_of(word: &str) -> Option<SpecPlace> {
    match word {
        "field" => Some(SpecPlace::Field),
        "method" => Some(SpecPlace::Method),
        "modifier" => Some(SpecPlace::Modifier),
        "loop" => Some(SpecPlace::Loop),
        "class_end" => Some(SpecPlace::ClassEnd),
        _ => None,
    }
}

fn put_at(answer: &mut Answer, refusal: &str, start: u32, at: u32) {
    answer.put(refusal);
    answer.put_number(i128::from(at) - i128::from(start));
}

/// A refusal, with its place counted from where the text starts.
pub(crate) fn put_refusal(answer: &mut Answer, start: u32, refusal: &ParseRefusal) {
    match refusal {
        ParseRefusal::Syntax { at, .. } => put_at(answer, "Syntax ", start, *at),
        ParseRefusal::Unsupported { at, .. } => put_at(answer, "Unsupported ", start, *at),
        ParseRefusal::TooDeep { at, .. } => put_at(answer, "TooDeep ", start, *at),
        ParseRefusal::NoMemory => answer.lack_memory(),
    }
}

fn tell_tokens(answer: &mut Answer, alloc: Global, place: SpecPlace, tokens: &[Token]) {
    match &parse_spec(alloc, place, tokens) {
        Ok(clauses) => {
            answer.put("ok ");
            answer.put_number(clauses.len() as i128);
        }
        Err(refusal) => put_refusal(answer, OPENING, refusal),
    }
}

fn tell_text(answer: &mut Answer, alloc: Global, place: SpecPlace, text: &[u8]) {
    if text.len() > GREATEST_LENGTH {
        return answer.put("too long");
    }
    match &tokens(alloc, text) {
        Ok(found) => tell_tokens(answer, alloc, place, found),
        Err(_) => answer.put("no tokens"),
    }
}

// The bytes of a text in a comment, where its escapes are ones.
pub(crate) fn bytes_of(alloc: Global, text: &str) -> Result<Option<Vec<u8>>, AllocError> {
    let text = format!(in alloc; "/*@{text}*/")?;
    unescaped(alloc, text.as_str())
}

/// Answers a line, which is the name of a place and a text: how many clauses and words the text has there, or why it has none. Behind
/// `print` the clauses are printed; behind `fill` the text is a whole file.
pub(crate) fn tell(answer: &mut Answer, alloc: Global, line: &str) {
    let (word, text) = first_word(line);
    if word == "print" {
        return tell_printed(answer, alloc, text);
    }
    if word == "fill" {
        return tell_file(answer, alloc, text);
    }
    let Some(place) = place_of(word) else {
        return answer.put("no place");
    };
    match &bytes_of(alloc, text) {
        Ok(Some(bytes)) => tell_text(answer, alloc, place, bytes),
        Ok(None) => answer.put("no text"),
        Err(_) => answer.lack_memory(),
    }
}
