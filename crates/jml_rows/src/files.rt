//! A file, and the clauses in it.

use crate::blocks::put_classes;
use crate::rows::{GREATEST_LENGTH, put_refusal};
use jd_jmlparse::fill_specs;
use jd_jparse::{ParseRefusal, parse_unit};
use jd_lex::{Token, tokens};
use jd_syntax::Unit;
use row_text::{Answer, unescaped};
use std::alloc::Global;

fn put_filled(answer: &mut Answer, filled: Result<Unit, ParseRefusal>) {
    match &filled {
        Ok(unit) => {
            answer.put("ok");
            put_classes(answer, &unit.classes);
        }
        Err(refusal) => put_refusal(answer, 0, refusal),
    }
}

fn tell_tokens(answer: &mut Answer, alloc: Global, tokens: &[Token]) {
    if tokens.len() > GREATEST_LENGTH {
        return answer.put("too long");
    }
    match parse_unit(alloc, tokens) {
        Ok(unit) => put_filled(answer, fill_specs(alloc, unit, tokens)),
        Err(ParseRefusal::NoMemory) => answer.lack_memory(),
        Err(_) => answer.put("no file"),
    }
}

fn tell_text(answer: &mut Answer, alloc: Global, text: &[u8]) {
    if text.len() > GREATEST_LENGTH {
        return answer.put("too long");
    }
    match &tokens(alloc, text) {
        Ok(found) => tell_tokens(answer, alloc, found),
        Err(_) => answer.put("no tokens"),
    }
}

/// How many clauses and words each block of JML of a file has, in the order of the tree, or why there are none.
pub(crate) fn tell_file(answer: &mut Answer, alloc: Global, text: &str) {
    match &unescaped(alloc, text) {
        Ok(Some(bytes)) => tell_text(answer, alloc, bytes),
        Ok(None) => answer.put("no text"),
        Err(_) => answer.lack_memory(),
    }
}
