//! Rows of sequents whose formulas stand on a line each, `L FORMULA` or `R FORMULA`.

use crate::sequents::{add_read, put_sequent};
use crate::texts::bracketed;
use jd_base::NoMemory;
use jd_model::Sequent;
use jd_sequent::is_within_limits;
use jd_syntax::Sx;
use jd_term::Formula;
use jd_tparse::Names;
use jd_tread::read_formula;
use row_text::{Answer, unescaped};
use std::alloc::Global;

// The formula that the expression is, whatever sorts its parts have and however deep it is.
fn formula_in(
    alloc: Global,
    names: &Names<'_>,
    x: &Result<Option<Sx>, NoMemory>,
) -> Result<Option<Formula>, NoMemory> {
    match x {
        Ok(Some(x)) => read_formula(alloc, names, &[], x),
        Ok(None) => Ok(None),
        Err(NoMemory) => Err(NoMemory),
    }
}

fn add_formula(
    alloc: Global,
    names: &Names<'_>,
    side: &mut Vec<Formula>,
    text: &[u8],
) -> Result<bool, NoMemory> {
    add_read(side, formula_in(alloc, names, &bracketed(alloc, text)))
}

// Adds what a line has; whether it has that.
fn add_line(
    alloc: Global,
    names: &Names<'_>,
    sequent: &mut Sequent,
    line: &[u8],
) -> Result<bool, NoMemory> {
    match line {
        [] => Ok(true),
        [b'L', text @ ..] => add_formula(alloc, names, &mut sequent.left, text),
        [b'R', text @ ..] => add_formula(alloc, names, &mut sequent.right, text),
        _ => Ok(false),
    }
}

fn add_lines(
    alloc: Global,
    names: &Names<'_>,
    sequent: &mut Sequent,
    text: &[u8],
) -> Result<bool, NoMemory> {
    for line in text.split(|byte| *byte == b'\n') {
        if !add_line(alloc, names, sequent, line)? {
            return Ok(false);
        }
    }
    Ok(true)
}

fn tell_sequent(
    answer: &mut Answer,
    alloc: Global,
    names: &Names<'_>,
    kind: &str,
    sequent: &Sequent,
) {
    if kind == "lines" {
        return put_sequent(answer, alloc, names, &sequent.copy(alloc));
    }
    answer.put(if is_within_limits(sequent) {
        "within"
    } else {
        "beyond"
    });
}

fn tell_lines(answer: &mut Answer, alloc: Global, names: &Names<'_>, kind: &str, text: &[u8]) {
    let mut sequent = Sequent {
        left: Vec::new(alloc),
        right: Vec::new(alloc),
    };
    match add_lines(alloc, names, &mut sequent, text) {
        Ok(true) => tell_sequent(answer, alloc, names, kind, &sequent),
        Ok(false) => answer.put("no sequent"),
        Err(NoMemory) => answer.lack_memory(),
    }
}

/// What a row `lines TEXT` or `limits TEXT` asks for: the text of the sequent, or whether it is within the limits.
pub(crate) fn tell(answer: &mut Answer, alloc: Global, names: &Names<'_>, kind: &str, text: &str) {
    match &unescaped(alloc, text) {
        Ok(Some(bytes)) => tell_lines(answer, alloc, names, kind, bytes),
        Ok(None) => answer.put("none"),
        Err(_) => answer.lack_memory(),
    }
}
