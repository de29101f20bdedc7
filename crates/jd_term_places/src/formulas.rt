//! Formulas with another term at the end of a path.

ghost use Rattle.std.specs.Prelude.{◌≡◌, ◌∷◌, IfOk, cond, map, nat_eq, suc};
ghost use Rattle.jd_taclet_steps.specs.PutTerms.{put_below, put_pairs, put_term};
ghost use Rattle.jd_term.specs.Formulas.{formula_view, pair_view};
ghost use Rattle.jd_term.specs.Makers.{GivesFormula, GivesUpdate};
ghost use Rattle.jd_term.specs.TermViews.{term_view};

use crate::terms::{loc_part, term_part};
use jd_base::{NoMemory, both};
use jd_term::{
    Elementary, Formula, Term, Update, in_locations, modal, updated, with_formula, with_formulas,
    with_term, with_terms,
};
use std::alloc::Global;

// Whether what stands behind so many children has the number.
fn is_behind(number: u32, children: usize) -> bool
    ensures { result ≡ nat_eq number (suc children) }
{
    u128::from(number) == children as u128 + 1
}

// A copy of the pair, with the term in its right side where the path goes on here.
fn pair_part(
    alloc: Global,
    here: bool,
    path: &[u32],
    new: &Term,
    pair: &Elementary,
) -> Result<Elementary, NoMemory>
    ensures { IfOk result (λ p. pair_view p ≡ cond here ((pair_view pair.now).0, put_term path.now (term_view new.now) (pair_view pair.now).1) (pair_view pair.now)) }
{
    let (variable, value) = both(
        pair.variable.copy(alloc),
        term_part(alloc, here, path, new, &pair.value),
    )?;
    Ok(Elementary { variable, value })
}

// The update with another term below the pair of this number, from 1.
fn put_pairs(
    alloc: Global,
    number: u32,
    path: &[u32],
    new: &Term,
    pairs: &[Elementary],
) -> Result<Update, NoMemory>
    ensures { GivesUpdate result (put_pairs number path.now (term_view new.now) (map pair_view pairs.now)) }
{
    let mut made = Vec::with_capacity(alloc, pairs.len())?;
    for (i, pair) in pairs.iter().enumerate() {
        made.push(pair_part(alloc, is_behind(number, i), path, new, pair)?)?;
    }
    Ok(Update { pairs: made })
}

// A copy of a part, with the term where the path goes on here.
#[cycle(put_below)]
fn formula_part(
    alloc: Global,
    here: bool,
    path: &[u32],
    new: &Term,
    a: &Formula,
) -> Result<Formula, NoMemory>
    ensures { GivesFormula result (cond here (put_below path.now (term_view new.now) (formula_view a.now)) (formula_view a.now)) }
{
    if here {
        put_below(alloc, path, new, a)
    } else {
        a.copy(alloc)
    }
}

// The formula with another term at the end of a path that begins with this number.
#[cycle(put_below)]
fn put_behind(
    alloc: Global,
    k: u32,
    rest: &[u32],
    new: &Term,
    old: &Formula,
) -> Result<Formula, NoMemory>
    ensures { GivesFormula result (put_below (k ∷ rest.now) (term_view new.now) (formula_view old.now)) }
{
    match old {
        Formula::TrueFormula | Formula::FalseFormula => old.copy(alloc),
        Formula::Not(a) | Formula::Forall(_, a) | Formula::Exists(_, a) => with_formula(
            alloc,
            old,
            formula_part(alloc, k == 1, rest, new, a),
        ),
        Formula::And(a, b) | Formula::Or(a, b) | Formula::Implies(a, b) | Formula::Iff(a, b) =>
            with_formulas(
                alloc,
                old,
                formula_part(alloc, k == 1, rest, new, a),
                formula_part(alloc, k == 2, rest, new, b),
            ),
        Formula::Equal(a, b)
        | Formula::Less(a, b)
        | Formula::LessOrEqual(a, b)
        | Formula::Invariant(a, b) => with_terms(
            old,
            term_part(alloc, k == 1, rest, new, a),
            term_part(alloc, k == 2, rest, new, b),
        ),
        Formula::InInt(a)
        | Formula::WellFormed(a)
        | Formula::IsInstance(_, a)
        | Formula::IsExactInstance(_, a) => with_term(old, term_part(alloc, k == 1, rest, new, a)),
        Formula::InLocations(a, b, l) => in_locations(
            term_part(alloc, k == 1, rest, new, a),
            term_part(alloc, k == 2, rest, new, b),
            loc_part(alloc, k == 3, rest, new, l),
        ),
        Formula::Updated(u, a) => updated(
            alloc,
            put_pairs(alloc, k, rest, new, &u.pairs),
            formula_part(alloc, is_behind(k, u.pairs.len()), rest, new, a),
        ),
        Formula::Modal(m, c, a) => modal(
            alloc,
            *m,
            c.copy(alloc),
            formula_part(alloc, k == 1, rest, new, a),
        ),
    }
}

/// The formula with another term at the end of a path.
#[cycle(put_below)]
pub(crate) fn put_below(
    alloc: Global,
    path: &[u32],
    new: &Term,
    old: &Formula,
) -> Result<Formula, NoMemory>
    ensures { GivesFormula result (put_below path.now (term_view new.now) (formula_view old.now)) }
{
    match path.split_first() {
        None => old.copy(alloc),
        Some((number, rest)) => put_behind(alloc, *number, rest, new, old),
    }
}
