//! Rows that print clauses, and read what is printed.

use crate::rows::{GREATEST_LENGTH, OPENING, bytes_of, place_of, put_refusal};
use jd_jmlparse::{parse_spec, print_spec};
use jd_lex::{Token, tokens};
use jd_syntax::{SpecClause, SpecPlace};
use row_text::{Answer, first_word};
use std::alloc::Global;

// Whether clauses are printed as the text that they were read from.
fn compare(answer: &mut Answer, alloc: Global, clauses: &[SpecClause], text: &[u8]) {
    match &print_spec(alloc, clauses) {
        Ok(again) => answer.put(if again.as_slice() == text {
            " same"
        } else {
            " differs"
        }),
        Err(_) => answer.lack_memory(),
    }
}

fn read_tokens(answer: &mut Answer, alloc: Global, place: SpecPlace, found: &[Token], text: &[u8]) {
    match &parse_spec(alloc, place, found) {
        Ok(clauses) => compare(answer, alloc, clauses, text),
        Err(_) => answer.put(" is not read"),
    }
}

fn read_again(answer: &mut Answer, alloc: Global, place: SpecPlace, text: &[u8]) {
    if text.len() > GREATEST_LENGTH {
        return answer.put(" is too long");
    }
    match &tokens(alloc, text) {
        Ok(found) => read_tokens(answer, alloc, place, found, text),
        Err(_) => answer.put(" has no tokens"),
    }
}

fn tell_clauses(answer: &mut Answer, alloc: Global, place: SpecPlace, clauses: &[SpecClause]) {
    match &print_spec(alloc, clauses) {
        Ok(text) => {
            answer.put_bytes(text);
            read_again(answer, alloc, place, text);
        }
        Err(_) => answer.lack_memory(),
    }
}

fn tell_tokens(answer: &mut Answer, alloc: Global, place: SpecPlace, found: &[Token]) {
    match &parse_spec(alloc, place, found) {
        Ok(clauses) => tell_clauses(answer, alloc, place, clauses),
        Err(refusal) => put_refusal(answer, OPENING, refusal),
    }
}

fn tell_text(answer: &mut Answer, alloc: Global, place: SpecPlace, text: &[u8]) {
    if text.len() > GREATEST_LENGTH {
        return answer.put("too long");
    }
    match &tokens(alloc, text) {
        Ok(found) => tell_tokens(answer, alloc, place, found),
        Err(_) => answer.put("no tokens"),
    }
}

/// Answers the name of a place and a text: how the clauses that the text has there are printed, and whether what is printed is
/// read as clauses that are printed so.
pub(crate) fn tell_printed(answer: &mut Answer, alloc: Global, line: &str) {
    let (word, text) = first_word(line);
    let Some(place) = place_of(word) else {
        return answer.put("no place");
    };
    match &bytes_of(alloc, text) {
        Ok(Some(bytes)) => tell_text(answer, alloc, place, bytes),
        Ok(None) => answer.put("no text"),
        Err(_) => answer.lack_memory(),
    }
}
