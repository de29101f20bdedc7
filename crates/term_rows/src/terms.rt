//! Rows of terms.

use crate::texts::{expression, found, put_refusal, sort_in};
use jd_base::{NoMemory, Sort};
use jd_print::print_term;
use jd_syntax::Sx;
use jd_term::{Term, copy_term, depth_term, size_term};
use jd_tparse::{Names, parse_term};
use row_text::{Answer, first_word};
use std::alloc::Global;

/// The text of a term that is made here alone.
pub(crate) fn put_term(
    answer: &mut Answer,
    alloc: Global,
    names: &Names<'_>,
    term: Result<Term, NoMemory>,
) {
    match &term {
        Ok(t) => answer.put_made(print_term(alloc, t, names)),
        Err(NoMemory) => answer.lack_memory(),
    }
}

fn tell_term(answer: &mut Answer, alloc: Global, names: &Names<'_>, operation: &str, term: &Term) {
    match operation {
        "read" => put_term(answer, alloc, names, copy_term(alloc, term)),
        "size" => answer.put_number(i128::from(size_term(term))),
        "depth" => answer.put_number(i128::from(depth_term(term))),
        _ => answer.put("no such operation"),
    }
}

fn tell_parsed(
    answer: &mut Answer,
    alloc: Global,
    names: &Names<'_>,
    operation: &str,
    sort: Sort,
    x: &Sx,
) {
    match &parse_term(alloc, x, sort, names) {
        Ok(term) => tell_term(answer, alloc, names, operation, term),
        Err(refusal) => put_refusal(answer, *refusal),
    }
}

/// What a row `term OPERATION SORT TEXT` asks for, of the closed term of that sort that the text is.
pub(crate) fn tell(
    answer: &mut Answer,
    alloc: Global,
    names: &Names<'_>,
    operation: &str,
    text: &str,
) {
    let (word, text) = first_word(text);
    if let Some(x) = found(answer, &expression(alloc, text)) {
        tell_parsed(answer, alloc, names, operation, sort_in(word), x);
    }
}
