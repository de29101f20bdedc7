//! Places that lie in no update's body and in no modality's formula.

ghost use Rattle.std.specs.Prelude.{◌≡◌, ◌==◌, ◌+◌, map};
ghost use Rattle.jd_model.specs.Places.{FormulaPart};
ghost use Rattle.jd_model.specs.Sequents.{place_view, sequent_view};
ghost use Rattle.jd_taclet_scripts.specs.Places.{is_calm, is_calm_place};
ghost use Rattle.jd_term.specs.Formulas.{formula_view, pair_view};
ghost use Rattle.jd_taclet_matching.specs.Calm.{inner_of, inner_view, in_update, only_part, two_parts};

use jd_model::{Place, Sequent, formula_numbered, formulas_on};
use jd_term::{Elementary, Formula};

/// What the child of a formula is to the formulas around it.
#[derive(Clone, Copy)]
pub(crate) enum Inside<'a> {
    /// An update's body or a modality's formula.
    Behind,
    /// Another formula in it.
    Formula(&'a Formula),
    /// No formula.
    Elsewhere,
}

// The child of a formula with one part.
fn only_part(a: &Formula, number: u32) -> Inside<'_>
    ensures { inner_view result ≡ only_part (formula_view a.now) number }
{
    if number == 1 {
        Inside::Formula(a)
    } else {
        Inside::Elsewhere
    }
}

// The child of a formula with two.
fn two_parts<'a>(a: &'a Formula, b: &'a Formula, number: u32) -> Inside<'a>
    ensures { inner_view result ≡ two_parts (formula_view a.now) (formula_view b.now) number }
{
    if number == 1 {
        Inside::Formula(a)
    } else if number == 2 {
        Inside::Formula(b)
    } else {
        Inside::Elsewhere
    }
}

// The child of a formula under an update, whose right sides come first.
fn in_update<'a>(pairs: &[Elementary], number: u32) -> Inside<'a>
    ensures { inner_view result ≡ in_update (map pair_view pairs.now) number }
{
    let count = pairs.len() as u128;
    if u128::from(number) == count + 1 {
        Inside::Behind
    } else {
        Inside::Elsewhere
    }
}

// The child of this number.
fn child_of(formula: &Formula, number: u32) -> Inside<'_>
    ensures { inner_view result ≡ inner_of (formula_view formula.now) number }
{
    match formula {
        Formula::Not(a) | Formula::Forall(_, a) | Formula::Exists(_, a) => only_part(a, number),
        Formula::And(a, b) | Formula::Or(a, b) | Formula::Implies(a, b) | Formula::Iff(a, b) =>
            two_parts(a, b, number),
        Formula::Updated(update, _) => in_update(&update.pairs, number),
        Formula::Modal(_, _, _) => Inside::Behind,
        _ => Inside::Elsewhere,
    }
}

// Whether the path leads into no update's body and into no modality's formula.
fn is_calm(formula: &Formula, path: &[u32]) -> bool
    ensures { result ≡ is_calm path.now (FormulaPart (formula_view formula.now)) }
{
    let mut around = formula;
    for number in path {
        match child_of(around, *number) {
            Inside::Behind => return false,
            Inside::Formula(part) => around = part,
            Inside::Elsewhere => return true,
        }
    }
    true
}

/// Whether the place lies in no update's body and in no modality's formula.
pub(crate) fn is_calm_place(sequent: &Sequent, place: &Place) -> bool
    ensures { result ≡ is_calm_place (sequent_view sequent.now) (place_view place.now) }
{
    match formula_numbered(formulas_on(sequent, place.side), place.index) {
        Some(formula) => is_calm(formula, &place.path),
        None => true,
    }
}
