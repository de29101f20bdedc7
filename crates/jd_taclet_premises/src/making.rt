//! Premises: the sequent with what the goals say.

ghost use Rattle.std.specs.Prelude.{◌≡◌, ◌<◌, ◌≤◌, ◌++◌, All, IfOk, length, map, option_map};
ghost use Rattle.jd_model.specs.Places.{on_side};
ghost use Rattle.jd_model.specs.Sequents.{place_view, sequent_view};
ghost use Rattle.jd_schema_trees.specs.TacletViews.{taclet_kind};
ghost use Rattle.jd_taclet_premises.specs.Premises.{CanTake, StandsIn, premise_at, premise_of, with_replacement};
ghost use Rattle.jd_taclet_premises.specs.Views.{goal_view, replacement_view};
ghost use Rattle.jd_taclet_scripts.specs.Steps.{instead_of, replaced_at};
ghost use Rattle.jd_taclet_steps.specs.Steps.{extended};
ghost use Rattle.jd_term.specs.Formulas.{formula_view};

use crate::parts::{GoalParts, Replacement};
use jd_base::{NoMemory, both};
use jd_model::{Place, Sequent, Side, put_at_place};
use jd_schema_trees::TacletKind;
use jd_term::Formula;
use jd_term_places::put_term_at_place;
use std::alloc::Global;

// The formulas and then others.
fn joined(mut formulas: Vec<Formula>, mut new: Vec<Formula>) -> Result<Vec<Formula>, NoMemory>
    ensures { IfOk result (λ v. map formula_view v.items ≡ map formula_view formulas.items ++ map formula_view new.items) }
{
    formulas.append(&mut new)?;
    Ok(formulas)
}

// The formulas with others in place of the one with this number, from 1.
fn instead(
    mut formulas: Vec<Formula>,
    index: u32,
    mut new: Vec<Formula>,
) -> Result<Vec<Formula>, NoMemory>
    requires some { 0 < index }
    requires within { index ≤ length formulas.items }
    ensures { IfOk result (λ v. map formula_view v.items ≡ instead_of (map formula_view formulas.items) index (map formula_view new.items)) }
{
    let mut behind = formulas.split_off(index as usize)?;
    formulas.truncate(index as usize - 1);
    formulas.append(&mut new)?;
    formulas.append(&mut behind)?;
    Ok(formulas)
}

// The sequent with others at the ends of both sides.
fn extended(sequent: Sequent, new: Sequent) -> Result<Sequent, NoMemory>
    ensures { IfOk result (λ s. sequent_view s ≡ extended (sequent_view sequent) (sequent_view new)) }
{
    let (left, right) = both(
        joined(sequent.left, new.left),
        joined(sequent.right, new.right),
    )?;
    Ok(Sequent { left, right })
}

// New formulas of the found one's side stand in its place, those of the other side at that side's end.
fn replaced(sequent: Sequent, side: Side, index: u32, new: Sequent) -> Result<Sequent, NoMemory>
    requires some { 0 < index }
    requires within { index ≤ length (on_side (sequent_view sequent) side) }
    ensures { IfOk result (λ s. sequent_view s ≡ replaced_at side index (sequent_view sequent) (sequent_view new)) }
{
    let Sequent { left, right } = sequent;
    let (left, right) = match side {
        Side::Left => both(instead(left, index, new.left), joined(right, new.right))?,
        Side::Right => both(joined(left, new.left), instead(right, index, new.right))?,
    };
    Ok(Sequent { left, right })
}

// What was found is replaced.
fn put(
    alloc: Global,
    sequent: Sequent,
    place: &Place,
    new: Option<Replacement>,
) -> Result<Sequent, NoMemory>
    requires { CanTake (sequent_view sequent) (place_view place.now) (option_map replacement_view new) }
    ensures { IfOk result (λ s. sequent_view s ≡ with_replacement (sequent_view sequent) (place_view place.now) (option_map replacement_view new)) }
{
    match new {
        None => Ok(sequent),
        Some(Replacement::Formula(a)) => put_at_place(alloc, sequent, place, a),
        Some(Replacement::Term(t)) => put_term_at_place(alloc, sequent, place, &t),
    }
}

// The premise of a step at a place.
fn premise_at(
    alloc: Global,
    kind: TacletKind,
    sequent: Sequent,
    place: &Place,
    goal: GoalParts,
) -> Result<Sequent, NoMemory>
    requires some { 0 < place.now.index }
    requires within { place.now.index ≤ length (on_side (sequent_view sequent) place.now.side) }
    requires takes { CanTake (sequent_view sequent) (place_view place.now) (goal_view goal).replace }
    ensures { IfOk result (λ s. sequent_view s ≡ premise_at (taclet_kind kind) (sequent_view sequent) (place_view place.now) (goal_view goal)) }
{
    let GoalParts {
        keep,
        replace,
        added,
    } = goal;
    match kind {
        TacletKind::Formula | TacletKind::Term => put(alloc, sequent, place, replace),
        TacletKind::Left | TacletKind::Right | TacletKind::Free => {
            if keep {
                extended(sequent, added)
            } else {
                replaced(sequent, place.side, place.index, added)
            }
        }
    }
}

// The premise of a step.
fn premise(
    alloc: Global,
    kind: TacletKind,
    sequent: Sequent,
    place: Option<&Place>,
    goal: GoalParts,
) -> Result<Sequent, NoMemory>
    requires { StandsIn (sequent_view sequent) (option_map (λ q. place_view q.now) place) (goal_view goal) }
    ensures { IfOk result (λ s. sequent_view s ≡ premise_of (taclet_kind kind) (sequent_view sequent) (option_map (λ q. place_view q.now) place.entry) (goal_view goal)) }
{
    match place {
        None => extended(sequent, goal.added),
        Some(place) => premise_at(alloc, kind, sequent, place, goal),
    }
}

// The premises of copies of the sequent.
fn copied(
    alloc: Global,
    kind: TacletKind,
    sequent: &Sequent,
    place: Option<&Place>,
    goals: Vec<GoalParts>,
) -> Result<Vec<Sequent>, NoMemory>
    requires { All (StandsIn (sequent_view sequent.now) (option_map (λ q. place_view q.now) place)) (map goal_view goals.items) }
    ensures { IfOk result (λ v. map sequent_view v.items ≡ map (premise_of (taclet_kind kind) (sequent_view sequent.now) (option_map (λ q. place_view q.now) place.entry)) (map goal_view goals.items)) }
{
    let mut made = Vec::with_capacity(alloc, goals.len().saturating_add(1))?;
    for goal in goals {
        let copy = sequent.copy(alloc)?;
        made.push(premise(alloc, kind, copy, place, goal)?)?;
    }
    Ok(made)
}

/// The premises of a step, in order; the last one takes the sequent's formulas, and only those before it copy them. The error is
/// `NoMemory` alone.
pub fn premises(
    alloc: Global,
    kind: TacletKind,
    sequent: Sequent,
    place: Option<&Place>,
    mut goals: Vec<GoalParts>,
) -> Result<Vec<Sequent>, NoMemory>
    requires { All (StandsIn (sequent_view sequent) (option_map (λ q. place_view q.now) place)) (map goal_view goals.items) }
    ensures { IfOk result (λ v. map sequent_view v.items ≡ map (premise_of (taclet_kind kind) (sequent_view sequent) (option_map (λ q. place_view q.now) place.entry)) (map goal_view goals.items)) }
{
    let Some(last) = goals.pop() else {
        return Ok(Vec::new(alloc));
    };
    let mut made = copied(alloc, kind, &sequent, place, goals)?;
    made.push(premise(alloc, kind, sequent, place, last)?)?;
    Ok(made)
}
