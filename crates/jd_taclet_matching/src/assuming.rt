//! What a row assumes, at the places that a step names.

ghost use Rattle.std.specs.Prelude.{◌≡◌, IfOk, map, option_map};
ghost use Rattle.jd_model.specs.Sequents.{place_view, sequent_view};
ghost use Rattle.jd_patterns.specs.Bindings.{on};
ghost use Rattle.jd_patterns.specs.Matching.{match_formula};
ghost use Rattle.jd_schema_matching.specs.Bound.{answered};
ghost use Rattle.jd_schema_matching.specs.PartViews.{bindings};
ghost use Rattle.jd_schema_matching.specs.Tested.{tests};
ghost use Rattle.jd_schema_trees.specs.FormulaViews.{formula_pattern};
ghost use Rattle.jd_schema_trees.specs.TacletViews.{assumption, taclet};
ghost use Rattle.jd_sequent.specs.declared.bad.Bad.TheVariants.{NoAssume};
ghost use Rattle.jd_sequent.specs.Steps.{step_view};
ghost use Rattle.jd_taclet_stages.specs.Stages.{assumed_at, going, is_other, match_assumed, whole_at};
ghost use Rattle.jd_term.specs.Formulas.{formula_view};
ghost use Rattle.jd_taclet_matching.specs.Answers.{Answers};

use crate::answers::ended;
use crate::sides::{is_side, is_whole};
use jd_base::NoMemory;
use jd_formula_matching::match_formula;
use jd_model::{Place, Sequent, Side, formula_numbered, formulas_on};
use jd_schema_matching::Found;
use jd_schema_trees::{SFormula, Taclet};
use jd_sequent::{Bad, Step};
use jd_term::Formula;

// Whether the place is that of another formula than the step's own.
fn is_other(own: &Option<Place>, place: &Place) -> bool
    ensures { result ≡ is_other (option_map place_view own.now) (place_view place.now) }
{
    match own {
        None => true,
        Some(own) => !(is_side(own.side, place.side) && own.index == place.index),
    }
}

// The formula of the side that the place names, where it is the place of a whole formula there.
fn whole_at<'t>(sequent: &'t Sequent, side: Side, place: &Place) -> Option<&'t Formula>
    ensures { option_map (λ a. formula_view a.now) result ≡ whole_at (sequent_view sequent.now) side (place_view place.now) }
{
    if is_side(place.side, side) && is_whole(&place.path) {
        formula_numbered(formulas_on(sequent, side), place.index)
    } else {
        None
    }
}

// The formula of the side that is assumed there.
fn assumed_at<'t>(
    sequent: &'t Sequent,
    own: &Option<Place>,
    side: Side,
    place: &Option<Place>,
) -> Option<&'t Formula>
    ensures { option_map (λ a. formula_view a.now) result ≡ assumed_at (sequent_view sequent.now) (option_map place_view own.now) side (option_map place_view place.now) }
{
    match place {
        None => None,
        Some(place) => {
            if is_other(own, place) {
                whole_at(sequent, side, place)
            } else {
                None
            }
        }
    }
}

// Whether the pattern can stand for the formula there, with what was found.
fn match_one<'t>(
    sequent: &'t Sequent,
    own: &Option<Place>,
    side: Side,
    pattern: &'t SFormula,
    place: &Option<Place>,
    found: &mut Found<'t>,
) -> Result<bool, NoMemory>
    ensures { IfOk result (λ b. answered b (bindings found.new) ≡ on (assumed_at (sequent_view sequent.now) (option_map place_view own.now) side (option_map place_view place.now)) (λ x. match_formula tests (formula_pattern pattern.now) x (bindings found.old))) }
{
    match assumed_at(sequent, own, side, place) {
        Some(a) => match_formula(pattern, a, found),
        None => Ok(false),
    }
}

// Whether each assumed pattern can stand for the formula at its place, with what was found.
fn match_assumed<'t>(
    sequent: &'t Sequent,
    own: &Option<Place>,
    assumes: &'t [(Side, SFormula)],
    places: &[Option<Place>],
    found: &mut Found<'t>,
) -> Result<bool, NoMemory>
    ensures { IfOk result (λ b. answered b (bindings found.new) ≡ match_assumed tests (sequent_view sequent.now) (option_map place_view own.now) (map assumption assumes.now) (map (option_map place_view) places.now) (bindings found.old)) }
{
    if assumes.len() != places.len() {
        return Ok(false);
    }
    for i in 0..assumes.len() {
        let (side, pattern) = &assumes[i];
        if !match_one(sequent, own, *side, pattern, &places[i], found)? {
            return Ok(false);
        }
    }
    Ok(true)
}

/// What the row's variables stand for with what it assumes at the step's places, beside what was found before.
///
/// # Errors
///
/// `NoAssume` if something that is assumed doesn't stand at its place, which is another formula's than the step's own; `NoMemory` if memory
/// runs out.
pub fn assumed<'t>(
    sequent: &'t Sequent,
    row: &'t Taclet,
    step: &Step,
    found: Found<'t>,
) -> Result<Found<'t>, Bad>
    ensures { Answers bindings result (going NoAssume (match_assumed tests (sequent_view sequent.now) (step_view step.now).place (taclet row.now).assumes (step_view step.now).assumes (bindings found.entry))) }
{
    let mut found = found;
    let whole = match_assumed(
        sequent,
        &step.place,
        &row.assumes,
        &step.assumes,
        &mut found,
    );
    ended(whole, found, Bad::NoAssume)
}
