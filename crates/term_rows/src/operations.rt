//! Rows of formulas that need be neither closed nor sorted, and the operations that replace parts of them.

use crate::formulas::{BINDERS, formula_of, put_printed, tell_formula};
use crate::putting::{agrees, agrees_term, fits, fits_term};
use crate::raising::{may_raise, may_raise_loc, may_raise_term};
use crate::renaming::{is_first_order, may_rename};
use crate::replacing::may_replace;
use crate::setting::variable;
use crate::terms::put_term;
use crate::texts::{add, found, made, put_if, two_texts};
use jd_base::{NoMemory, Sort, both};
use jd_syntax::VarId;
use jd_term::{
    ConstId, Elementary, Formula, Loc, Term, copy_term, occurs_const, occurs_var, rename,
    rename_loc, rename_term, shift, shift_loc, shift_term, sort_of, subst, subst_term,
};
use jd_tparse::Names;
use jd_update::replace_term;
use row_text::{Answer, first_word};
use std::alloc::Global;

// Those of a term that is put for an index.
const MORE_BINDERS: [Sort; 4] = [Sort::Ref, Sort::Int, Sort::Ref, Sort::Int];

/// A location set in `(in null created L)`.
pub(crate) fn in_formula(locations: Result<Loc, NoMemory>) -> Result<Formula, NoMemory> {
    match locations {
        Ok(l) => Ok(Formula::InLocations(Term::NullTerm, Term::CreatedField, l)),
        Err(error) => Err(error),
    }
}

// ---- indices are raised: `shift FROM BY FORMULA`, of a term in `(inInt T)` and of a location set in `(in O F L)`

fn tell_raised(
    answer: &mut Answer,
    alloc: Global,
    names: &Names<'_>,
    (from, by): (u32, u32),
    f: &Formula,
) {
    match f {
        Formula::InInt(t) if may_raise_term(t, from as u64, by) => put_term(
            answer,
            alloc,
            names,
            shift_term(alloc, t, from, by),
        ),
        Formula::InLocations(_, _, l) if may_raise_loc(l, from as u64, by) => put_printed(
            answer,
            alloc,
            names,
            in_formula(shift_loc(alloc, l, from, by)),
        ),
        _ if may_raise(f, from as u64, by) => put_printed(
            answer,
            alloc,
            names,
            shift(alloc, f, from, by),
        ),
        _ => answer.put("not fit"),
    }
}

fn tell_shift(answer: &mut Answer, alloc: Global, names: &Names<'_>, text: &str) {
    let (from, text) = first_word(text);
    let (by, text) = first_word(text);
    let from = from.parse().unwrap_or(0);
    let by = by.parse().unwrap_or(0);
    if let Some(f) = found(answer, &formula_of(alloc, names, &BINDERS, text)) {
        tell_raised(answer, alloc, names, (from, by), f);
    }
}

// ---- a term is put for an index: `subst INDEX (inInt T) | FORMULA`; of a term as by `shift`

fn tell_put(
    answer: &mut Answer,
    alloc: Global,
    names: &Names<'_>,
    index: u32,
    t: &Term,
    f: &Formula,
) {
    let sort = sort_of(t);
    match f {
        Formula::InInt(s) if fits_term(s, 0, index, t) && agrees_term(s, index as u64, sort) =>
            put_term(answer, alloc, names, subst_term(alloc, s, index, t)),
        _ if fits(f, 0, index, t) && agrees(f, index as u64, sort) => put_printed(
            answer,
            alloc,
            names,
            subst(alloc, f, index, t),
        ),
        _ => answer.put("not fit"),
    }
}

fn tell_subst(answer: &mut Answer, alloc: Global, names: &Names<'_>, text: &str) {
    let (index, text) = first_word(text);
    let index = index.parse().unwrap_or(0);
    let (one, other) = two_texts(text);
    if let Some(Formula::InInt(t)) = found(answer, &formula_of(alloc, names, &MORE_BINDERS, one)) {
        if let Some(f) = found(answer, &formula_of(alloc, names, &BINDERS, other)) {
            tell_put(answer, alloc, names, index, t, f);
        }
    }
}

// ---- names are replaced: `rename (and (eq x T) (eq y U)) | FORMULA`, of a term or a location set as by `shift`

fn add_pair(
    alloc: Global,
    pairs: &mut Vec<(Term, Term)>,
    a: &Term,
    b: &Term,
) -> Result<(), NoMemory> {
    add(pairs, both(copy_term(alloc, a), copy_term(alloc, b)))
}

fn pairs_in(alloc: Global, f: &Formula) -> Result<Vec<(Term, Term)>, NoMemory> {
    let mut pairs = Vec::new(alloc);
    add_pairs(alloc, &mut pairs, f)?;
    Ok(pairs)
}

fn add_pairs(alloc: Global, pairs: &mut Vec<(Term, Term)>, f: &Formula) -> Result<(), NoMemory> {
    match f {
        Formula::Equal(a, b) => add_pair(alloc, pairs, a, b),
        Formula::And(f, g) => {
            add_pairs(alloc, pairs, f)?;
            add_pairs(alloc, pairs, g)
        }
        _ => Ok(()),
    }
}

fn tell_renamed(
    answer: &mut Answer,
    alloc: Global,
    names: &Names<'_>,
    pairs: &[(Term, Term)],
    f: &Formula,
) {
    if !may_rename(pairs) {
        return answer.put("no renaming");
    }
    match f {
        Formula::InInt(t) => put_term(answer, alloc, names, rename_term(alloc, t, pairs)),
        Formula::InLocations(_, _, l) => put_printed(
            answer,
            alloc,
            names,
            in_formula(rename_loc(alloc, l, pairs)),
        ),
        _ if is_first_order(f) => put_printed(answer, alloc, names, rename(alloc, f, pairs)),
        _ => answer.put("not fit"),
    }
}

fn tell_rename(answer: &mut Answer, alloc: Global, names: &Names<'_>, f: &Formula, g: &Formula) {
    if let Some(pairs) = made(answer, &pairs_in(alloc, f)) {
        tell_renamed(answer, alloc, names, pairs, g);
    }
}

// ---- variables are replaced in a term: `replace-term (upd ((x T)) true) | (inInt S)`

fn put_replaced(
    answer: &mut Answer,
    alloc: Global,
    names: &Names<'_>,
    pairs: &[Elementary],
    t: &Term,
) {
    if may_replace(pairs, t) {
        put_term(answer, alloc, names, replace_term(alloc, pairs, t));
    } else {
        answer.put("not fit");
    }
}

fn tell_replaced(answer: &mut Answer, alloc: Global, names: &Names<'_>, f: &Formula, g: &Formula) {
    match (f, g) {
        (Formula::Updated(u, _), Formula::InInt(t)) => put_replaced(
            answer, alloc, names, &u.pairs, t,
        ),
        _ => answer.put("none"),
    }
}

// ---- two formulas

fn tell_of_two(
    answer: &mut Answer,
    alloc: Global,
    names: &Names<'_>,
    operation: &str,
    f: &Formula,
    g: &Formula,
) {
    match operation {
        "equals" => put_if(answer, f.equals(g)),
        "rename" => tell_rename(answer, alloc, names, f, g),
        _ => tell_replaced(answer, alloc, names, f, g),
    }
}

fn tell_two(answer: &mut Answer, alloc: Global, names: &Names<'_>, operation: &str, text: &str) {
    let (one, other) = two_texts(text);
    if let Some(f) = found(answer, &formula_of(alloc, names, &BINDERS, one)) {
        if let Some(g) = found(answer, &formula_of(alloc, names, &BINDERS, other)) {
            tell_of_two(answer, alloc, names, operation, f, g);
        }
    }
}

// ---- one formula

// Whether the name occurs, which is a constant's where it has the sign of one.
fn occurs_in(f: &Formula, v: VarId) -> bool {
    let VarId { name, sort } = v;
    if matches!(name.first(), Some(b'#')) {
        occurs_const(f, &ConstId { name, sort })
    } else {
        occurs_var(f, &VarId { name, sort })
    }
}

fn tell_occurs(answer: &mut Answer, alloc: Global, names: &Names<'_>, text: &str) {
    let (word, text) = first_word(text);
    if let Some(f) = found(answer, &formula_of(alloc, names, &BINDERS, text)) {
        match variable(alloc, word) {
            Ok(name) => put_if(answer, occurs_in(f, name)),
            Err(NoMemory) => answer.lack_memory(),
        }
    }
}

fn tell_one(answer: &mut Answer, alloc: Global, names: &Names<'_>, operation: &str, text: &str) {
    if let Some(f) = found(answer, &formula_of(alloc, names, &BINDERS, text)) {
        tell_formula(answer, alloc, names, operation, f);
    }
}

/// What a row `open OPERATION TEXT` asks for, of formulas under two binders, by form and names alone.
pub(crate) fn tell(
    answer: &mut Answer,
    alloc: Global,
    names: &Names<'_>,
    operation: &str,
    text: &str,
) {
    match operation {
        "equals" | "rename" | "replace-term" => tell_two(answer, alloc, names, operation, text),
        "occurs" => tell_occurs(answer, alloc, names, text),
        "shift" => tell_shift(answer, alloc, names, text),
        "subst" => tell_subst(answer, alloc, names, text),
        _ => tell_one(answer, alloc, names, operation, text),
    }
}
