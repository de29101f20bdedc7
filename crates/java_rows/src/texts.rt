//! What is told of one text: its tokens, or whether it is a file.

use crate::refusals::{put_fault, put_misfit, put_reason};
use crate::words::word;
use jd_jparse::parse_unit;
use jd_lex::{Token, TokenKind, tokens};
use jd_source::read_source;
use row_text::Answer;
use std::alloc::Global;

/// How long a file may be.
pub(crate) const GREATEST_LENGTH: usize = 1048576;

fn put_kind(answer: &mut Answer, kind: &TokenKind) {
    match kind {
        TokenKind::Word(text) => {
            answer.put("word ");
            answer.put(word(text));
        }
        TokenKind::Number(value) => {
            answer.put("number ");
            answer.put_number(i128::from(*value));
        }
        TokenKind::Sign(text) => {
            answer.put("sign ");
            answer.put(word(text));
        }
    }
}

fn put_token(answer: &mut Answer, token: &Token) {
    answer.put(" [");
    answer.put_number(i128::from(token.from));
    answer.put("-");
    answer.put_number(i128::from(token.to));
    answer.put(if token.jml { " jml " } else { " " });
    put_kind(answer, &token.kind);
    answer.put("]");
}

fn put_tokens(answer: &mut Answer, tokens: &[Token]) {
    answer.put("ok");
    for token in tokens {
        put_token(answer, token);
    }
}

/// The tokens of a text, each with its offsets, or its first fault.
pub(crate) fn tell_tokens(answer: &mut Answer, alloc: Global, text: &[u8]) {
    if text.len() > GREATEST_LENGTH {
        return answer.put("too long");
    }
    match &tokens(alloc, text) {
        Ok(found) => put_tokens(answer, found),
        Err(refusal) => put_fault(answer, refusal),
    }
}

fn tell_parsed(answer: &mut Answer, alloc: Global, tokens: &[Token]) {
    if tokens.len() > GREATEST_LENGTH {
        return answer.put("too long");
    }
    match &parse_unit(alloc, tokens) {
        Ok(_unit) => answer.put("ok"),
        Err(refusal) => put_misfit(answer, refusal),
    }
}

/// Whether the Java of a text is a file's, or why it is none's.
pub(crate) fn tell_java(answer: &mut Answer, alloc: Global, text: &[u8]) {
    if text.len() > GREATEST_LENGTH {
        return answer.put("too long");
    }
    match &tokens(alloc, text) {
        Ok(found) => tell_parsed(answer, alloc, found),
        Err(refusal) => put_fault(answer, refusal),
    }
}

/// Whether a text is a file, or why it is none.
pub(crate) fn tell_source(answer: &mut Answer, alloc: Global, text: &[u8]) {
    if text.len() > GREATEST_LENGTH {
        return answer.put("too long");
    }
    match &read_source(alloc, text) {
        Ok(_unit) => answer.put("ok"),
        Err(refusal) => put_reason(answer, refusal),
    }
}
