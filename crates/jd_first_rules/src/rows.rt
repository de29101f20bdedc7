ghost use Rattle.std.specs.Prelude.{◌≡◌, ◌<◌, ◌≤◌, ◌++◌, ◌∷◌, [], IfOk, map, length, option_map};
ghost use Rattle.jd_term.specs.Formulas.{formula_view};
ghost use Rattle.jd_model.specs.Sequents.{sequent_view};
ghost use Rattle.jd_model.specs.Places.{on_side};
ghost use Rattle.jd_first_steps.specs.Rows.{row_goals, with_instead, goal_premise};
ghost use Rattle.jd_first_rules.specs.Goals.{goal_view};

use jd_base::NoMemory;
use jd_first_steps::FirstRule;
use jd_model::{Sequent, Side};
use jd_term::Formula;
use std::alloc::Global;

/// What stands in a premise for the formula that was found.
#[derive(Drop)]
pub struct Goal {
    /// The formulas in its place.
    pub here: Vec<Formula>,
    /// The formulas at the other side's end.
    pub other: Vec<Formula>,
}

// A copy of one formula as a list.
fn alone(alloc: Global, formula: &Formula) -> Result<Vec<Formula>, NoMemory>
    ensures { IfOk result (λ v. map formula_view v.items ≡ formula_view formula.now ∷ []) }
{
    let mut out = Vec::with_capacity(alloc, 1)?;
    out.push(formula.copy(alloc)?)?;
    Ok(out)
}

// Copies of two formulas as a list.
fn two(alloc: Global, a: &Formula, b: &Formula) -> Result<Vec<Formula>, NoMemory>
    ensures { IfOk result (λ v. map formula_view v.items ≡ formula_view a.now ∷ formula_view b.now ∷ []) }
{
    let mut out = Vec::with_capacity(alloc, 2)?;
    out.push(a.copy(alloc)?)?;
    out.push(b.copy(alloc)?)?;
    Ok(out)
}

// One goal as a list.
fn one_goal(alloc: Global, here: Vec<Formula>, other: Vec<Formula>) -> Result<Vec<Goal>, NoMemory>
    ensures { IfOk result (λ v. map goal_view v.items ≡ record { here = map formula_view here.items; other = map formula_view other.items } ∷ []) }
{
    let mut goals = Vec::new(alloc);
    goals.push(Goal { here, other })?;
    Ok(goals)
}

// Two goals, each with a formula in place.
fn two_goals(alloc: Global, a: &Formula, b: &Formula) -> Result<Vec<Goal>, NoMemory>
    ensures { IfOk result (λ v. map goal_view v.items ≡ record { here = formula_view a.now ∷ []; other = [] } ∷ record { here = formula_view b.now ∷ []; other = [] } ∷ []) }
{
    let mut goals = one_goal(alloc, alone(alloc, a)?, Vec::new(alloc))?;
    goals.push(Goal {
        here: alone(alloc, b)?,
        other: Vec::new(alloc),
    })?;
    Ok(goals)
}

/// The goals of a rule at a formula of a side; `None` where the rule does not match.
pub fn goals_of(
    alloc: Global,
    rule: FirstRule,
    side: Side,
    formula: &Formula,
) -> Result<Option<Vec<Goal>>, NoMemory>
    ensures { IfOk result
        (λ o. option_map (λ v. map goal_view v.items) o ≡ row_goals rule side (formula_view formula.now)) }
{
    match (rule, side, formula) {
        (FirstRule::CloseTrue, Side::Right, Formula::TrueFormula) => Ok(Some(Vec::new(alloc))),
        (FirstRule::NotLeft, Side::Left, Formula::Not(a)) => {
            let other = alone(alloc, a)?;
            Ok(Some(one_goal(alloc, Vec::new(alloc), other)?))
        }
        (FirstRule::AndLeft, Side::Left, Formula::And(a, b)) => {
            let here = two(alloc, a, b)?;
            Ok(Some(one_goal(alloc, here, Vec::new(alloc))?))
        }
        (FirstRule::AndRight, Side::Right, Formula::And(a, b)) => Ok(Some(two_goals(alloc, a, b)?)),
        (FirstRule::ImpRight, Side::Right, Formula::Implies(a, b)) => {
            let here = alone(alloc, b)?;
            let other = alone(alloc, a)?;
            Ok(Some(one_goal(alloc, here, other)?))
        }
        _ => Ok(None),
    }
}

// The formulas with others in place of the one with this number.
fn instead(
    mut formulas: Vec<Formula>,
    index: u32,
    mut new: Vec<Formula>,
) -> Result<Vec<Formula>, NoMemory>
    requires some { 0 < index }
    requires within { index ≤ length formulas.items }
    ensures { IfOk result
        (λ v. map formula_view v.items ≡ with_instead (map formula_view formulas.items) index (map formula_view new.items)) }
{
    let mut behind = formulas.split_off(index as usize)?;
    formulas.truncate(index as usize - 1);
    formulas.append(&mut new)?;
    formulas.append(&mut behind)?;
    Ok(formulas)
}

// The formulas and then others.
fn joined(mut formulas: Vec<Formula>, mut new: Vec<Formula>) -> Result<Vec<Formula>, NoMemory>
    ensures { IfOk result (λ v. map formula_view v.items ≡ map formula_view formulas.items ++ map formula_view new.items) }
{
    formulas.append(&mut new)?;
    Ok(formulas)
}

/// The premise that a goal makes of a sequent.
pub fn premise(sequent: Sequent, side: Side, index: u32, goal: Goal) -> Result<Sequent, NoMemory>
    requires some { 0 < index }
    requires within { index ≤ length (on_side (sequent_view sequent) side) }
    ensures { IfOk result
        (λ s. sequent_view s ≡ goal_premise (sequent_view sequent) side index (goal_view goal)) }
{
    let Goal { here, other } = goal;
    let Sequent { left, right } = sequent;
    match side {
        Side::Left => {
            let left = instead(left, index, here)?;
            let right = joined(right, other)?;
            Ok(Sequent { left, right })
        }
        Side::Right => {
            let left = joined(left, other)?;
            let right = instead(right, index, here)?;
            Ok(Sequent { left, right })
        }
    }
}

// The premises that the goals make of copies of a sequent.
fn copied_premises(
    alloc: Global,
    sequent: &Sequent,
    side: Side,
    index: u32,
    goals: Vec<Goal>,
) -> Result<Vec<Sequent>, NoMemory>
    requires some { 0 < index }
    requires within { index ≤ length (on_side (sequent_view sequent.now) side) }
    ensures { IfOk result
        (λ v. map sequent_view v.items ≡ map (goal_premise (sequent_view sequent.now) side index) (map goal_view goals.items)) }
{
    let mut out = Vec::with_capacity(alloc, goals.len().saturating_add(1))?;
    for goal in goals {
        let copy = sequent.copy(alloc)?;
        out.push(premise(copy, side, index, goal)?)?;
    }
    Ok(out)
}

/// The premises that the goals make of a sequent; the last one takes its formulas, and only those before it copy them.
pub fn premises(
    alloc: Global,
    sequent: Sequent,
    side: Side,
    index: u32,
    mut goals: Vec<Goal>,
) -> Result<Vec<Sequent>, NoMemory>
    requires some { 0 < index }
    requires within { index ≤ length (on_side (sequent_view sequent) side) }
    ensures { IfOk result
        (λ v. map sequent_view v.items ≡ map (goal_premise (sequent_view sequent) side index) (map goal_view goals.items)) }
{
    let Some(last) = goals.pop() else {
        return Ok(Vec::new(alloc))
    };
    let mut out = copied_premises(alloc, &sequent, side, index, goals)?;
    out.push(premise(sequent, side, index, last)?)?;
    Ok(out)
}
