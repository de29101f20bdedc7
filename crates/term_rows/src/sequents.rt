//! Rows of sequents, which are written `((FORMULA ..) (FORMULA ..))`.

use crate::formulas::{BINDERS, formula_of, put_formula, put_printed};
use crate::operations::in_formula;
use crate::texts::{expression, found, made, two_texts};
use jd_base::{NoMemory, both};
use jd_model::{Node, Place, Sequent, Side, at, replace_at};
use jd_print::print_term;
use jd_sequent_print::print_sequent;
use jd_syntax::Sx;
use jd_term::Formula;
use jd_tparse::Names;
use jd_tread::read_formula;
use row_text::{Answer, first_word};
use std::alloc::Global;

/// Adds what was read; whether that was something.
pub(crate) fn add_read<T: Drop>(
    all: &mut Vec<T>,
    read: Result<Option<T>, NoMemory>,
) -> Result<bool, NoMemory> {
    match read? {
        Some(x) => all.push(x)?,
        None => return Ok(false),
    }
    Ok(true)
}

// The formulas of a list, up to one that is none.
fn formulas_in(alloc: Global, names: &Names<'_>, parts: &[Sx]) -> Result<Vec<Formula>, NoMemory> {
    let mut formulas = Vec::new(alloc);
    for part in parts {
        if !add_read(&mut formulas, read_formula(alloc, names, &BINDERS, part))? {
            break;
        }
    }
    Ok(formulas)
}

fn sequent_in(alloc: Global, names: &Names<'_>, x: &Sx) -> Result<Option<Sequent>, NoMemory> {
    let Sx::List(sides) = x else {
        return Ok(None);
    };
    let [Sx::List(left), Sx::List(right)] = sides.as_slice() else {
        return Ok(None);
    };
    let left = formulas_in(alloc, names, left);
    let (left, right) = both(left, formulas_in(alloc, names, right))?;
    Ok(Some(Sequent { left, right }))
}

/// The sequent that is written so.
pub(crate) fn sequent_of(
    alloc: Global,
    names: &Names<'_>,
    text: &str,
) -> Result<Option<Sequent>, NoMemory> {
    match &expression(alloc, text) {
        Ok(Some(x)) => sequent_in(alloc, names, x),
        Ok(None) => Ok(None),
        Err(NoMemory) => Err(NoMemory),
    }
}

fn path_of(alloc: Global, text: &str) -> Result<Vec<u32>, NoMemory> {
    let mut path = Vec::new(alloc);
    for word in text.split('.') {
        if let Ok(number) = word.parse() {
            path.push(number)?;
        }
    }
    Ok(path)
}

// The place that is written so, such as `L2.1.3`; without `L` it is on the right, without a number of no formula.
fn place_of(alloc: Global, word: &str) -> Result<Place, NoMemory> {
    let (side, numbers) = match word.strip_prefix('L') {
        Some(numbers) => (Side::Left, numbers),
        None => (Side::Right, word.strip_prefix('R').unwrap_or("")),
    };
    let (index, path) = numbers.split_once('.').unwrap_or((numbers, ""));
    let path = path_of(alloc, path)?;
    let index = index.parse().unwrap_or(0);
    Ok(Place { side, index, path })
}

/// The text of a sequent that is made here alone.
pub(crate) fn put_sequent(
    answer: &mut Answer,
    alloc: Global,
    names: &Names<'_>,
    sequent: &Result<Sequent, NoMemory>,
) {
    if let Some(s) = made(answer, sequent) {
        answer.put_made(print_sequent(alloc, s, names));
    }
}

fn tell_node(
    answer: &mut Answer,
    alloc: Global,
    names: &Names<'_>,
    sequent: &Sequent,
    place: &Place,
) {
    match at(sequent, place) {
        Some(Node::Formula(formula)) => put_formula(answer, alloc, names, formula),
        Some(Node::Term(term)) => answer.put_made(print_term(alloc, term, names)),
        Some(Node::Loc(locations)) => put_printed(
            answer,
            alloc,
            names,
            in_formula(locations.copy(alloc)),
        ),
        None => answer.put("none"),
    }
}

fn put_replaced(
    answer: &mut Answer,
    alloc: Global,
    names: &Names<'_>,
    sequent: &Sequent,
    place: &Place,
    with: &Formula,
) {
    let Some(Node::Formula(_)) = at(sequent, place) else {
        return answer.put("none");
    };
    put_sequent(
        answer,
        alloc,
        names,
        &replace_at(alloc, sequent, place, with),
    );
}

fn tell_replaced(
    answer: &mut Answer,
    alloc: Global,
    names: &Names<'_>,
    sequent: &Sequent,
    place: &Place,
    text: &str,
) {
    if let Some(with) = found(answer, &formula_of(alloc, names, &BINDERS, text)) {
        put_replaced(answer, alloc, names, sequent, place, with);
    }
}

fn tell_at(
    answer: &mut Answer,
    alloc: Global,
    names: &Names<'_>,
    operation: &str,
    sequent: &Sequent,
    place: &Place,
) {
    match operation {
        "copy" => put_sequent(answer, alloc, names, &sequent.copy(alloc)),
        "at" => tell_node(answer, alloc, names, sequent, place),
        _ => answer.put("no such operation"),
    }
}

/// What a row `sequent OPERATION PLACE TEXT` or `sequent replace PLACE TEXT | FORMULA` asks for.
pub(crate) fn tell(
    answer: &mut Answer,
    alloc: Global,
    names: &Names<'_>,
    operation: &str,
    text: &str,
) {
    let (word, text) = first_word(text);
    let (one, other) = two_texts(text);
    if let Some(sequent) = found(answer, &sequent_of(alloc, names, one)) {
        if let Some(place) = made(answer, &place_of(alloc, word)) {
            if operation == "replace" {
                return tell_replaced(answer, alloc, names, sequent, place, other);
            }
            tell_at(answer, alloc, names, operation, sequent, place);
        }
    }
}
