//! Rows of formulas, with code in them.

use crate::texts::{expression, found, made, put_refusal};
use jd_base::{NoMemory, Sort, both};
use jd_print::print_formula;
use jd_syntax::{Code, Sx, VarId, assigned_vars};
use jd_term::{Formula, Update, boxed_formula, copy, depth, size};
use jd_tparse::{Names, parse_formula};
use jd_tread::read_formula;
use jd_update::{apply_update, drop_dead, has_no_binder, pairs_have_no_sum, simplify};
use row_text::Answer;
use std::alloc::Global;

/// The text of a formula.
pub(crate) fn put_formula(answer: &mut Answer, alloc: Global, names: &Names<'_>, f: &Formula) {
    answer.put_made(print_formula(alloc, f, names));
}

/// The text of a formula that is made here alone.
pub(crate) fn put_printed(
    answer: &mut Answer,
    alloc: Global,
    names: &Names<'_>,
    formula: Result<Formula, NoMemory>,
) {
    match &formula {
        Ok(f) => put_formula(answer, alloc, names, f),
        Err(NoMemory) => answer.lack_memory(),
    }
}

#[tactic(auto, using(jd_update::proofs::Binderless::fits))]
fn put_simplified(answer: &mut Answer, alloc: Global, names: &Names<'_>, f: &Formula) {
    if has_no_binder(f) {
        put_printed(answer, alloc, names, simplify(alloc, f));
    } else {
        answer.put("binder");
    }
}

#[tactic(auto, using(jd_update::proofs::Binderless::fits))]
fn put_applied(answer: &mut Answer, alloc: Global, names: &Names<'_>, u: &Update, f: &Formula) {
    if !pairs_have_no_sum(&u.pairs) {
        return answer.put("binder");
    }
    if !has_no_binder(f) {
        return answer.put("binder");
    }
    put_printed(answer, alloc, names, apply_update(alloc, u, f));
}

fn boxed_copy(alloc: Global, f: &Formula) -> Result<Box<Formula>, NoMemory> {
    boxed_formula(alloc, copy(alloc, f)?)
}

// The formula under what matters of the update before it.
fn shortened(alloc: Global, u: &Update, f: &Formula) -> Result<Formula, NoMemory> {
    match both(drop_dead(alloc, u, f), boxed_copy(alloc, f)) {
        Ok((short, f)) => Ok(Formula::Updated(short, f)),
        Err(error) => Err(error),
    }
}

fn put_names(answer: &mut Answer, variables: &[VarId]) {
    if variables.is_empty() {
        return answer.put("nothing");
    }
    for (number, variable) in variables.iter().enumerate() {
        if number > 0 {
            answer.put(" ");
        }
        answer.put_bytes(&variable.name);
    }
}

// The names of the variables that the code assigns.
fn put_assigned(answer: &mut Answer, alloc: Global, code: &Code) {
    if let Some(variables) = made(answer, &assigned_vars(alloc, code)) {
        put_names(answer, variables);
    }
}

/// What an operation gives of one formula.
pub(crate) fn tell_formula(
    answer: &mut Answer,
    alloc: Global,
    names: &Names<'_>,
    operation: &str,
    f: &Formula,
) {
    match (operation, f) {
        ("read", _) => put_printed(answer, alloc, names, copy(alloc, f)),
        ("size", _) => answer.put_number(i128::from(size(f))),
        ("depth", _) => answer.put_number(i128::from(depth(f))),
        ("assigned", Formula::Modal(_, code, _)) => put_assigned(answer, alloc, code),
        ("simplify", _) => put_simplified(answer, alloc, names, f),
        ("apply-update", Formula::Updated(u, a)) => put_applied(answer, alloc, names, u, a),
        ("drop-dead", Formula::Updated(u, a)) => put_printed(
            answer,
            alloc,
            names,
            shortened(alloc, u, a),
        ),
        _ => answer.put("no such operation"),
    }
}

fn tell_parsed(answer: &mut Answer, alloc: Global, names: &Names<'_>, operation: &str, x: &Sx) {
    match &parse_formula(alloc, x, names) {
        Ok(formula) => tell_formula(answer, alloc, names, operation, formula),
        Err(refusal) => put_refusal(answer, *refusal),
    }
}

/// What a row `formula OPERATION TEXT` asks for, of the closed formula that the text is.
pub(crate) fn tell_closed(
    answer: &mut Answer,
    alloc: Global,
    names: &Names<'_>,
    operation: &str,
    text: &str,
) {
    if let Some(x) = found(answer, &expression(alloc, text)) {
        tell_parsed(answer, alloc, names, operation, x);
    }
}

/// What stands under two binders: `%0` is an object, `%1` an integer.
pub(crate) const BINDERS: [Sort; 2] = [Sort::Ref, Sort::Int];

/// The formula that a text is under binders, by form and names alone.
pub(crate) fn formula_of(
    alloc: Global,
    names: &Names<'_>,
    binders: &[Sort],
    text: &str,
) -> Result<Option<Formula>, NoMemory> {
    match &expression(alloc, text) {
        Ok(Some(x)) => read_formula(alloc, names, binders, x),
        Ok(None) => Ok(None),
        Err(NoMemory) => Err(NoMemory),
    }
}
