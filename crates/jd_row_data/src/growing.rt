//! Lists with one more item: each takes the results of both and gives that of the whole. The error is `NoMemory` alone.

ghost use Rattle.std.specs.Prelude.{ℕ, ◌≡◌, ◌++◌, ◌∷◌, [], IfOk, List};
ghost use Rattle.jd_model.specs.declared.sequent.Side.{Side as PlainSide};
ghost use Rattle.jd_patterns.specs.Patterns.{FormulaPattern};
ghost use Rattle.jd_taclets.specs.Taclets as plain;
ghost use Rattle.jd_row_data.specs.Gives.{GivesAssumption, GivesAssumptions, GivesFormula, GivesFormulas, GivesGoal, GivesGoals, GivesVariable, GivesVariables, IsAdded, SayAll, Says};
ghost use Rattle.jd_row_data.specs.Said.{Said};
ghost use Rattle.jd_row_data.specs.Tables.{GivesRow, GivesRows};

use jd_base::{NoMemory, both};
use jd_lists::with;
use jd_model::Side;
use jd_schema_trees::{InstVar, SFormula, Taclet, TacletGoal, VarCond};
use std::alloc::Global;

// No items, with room for as many.
pub(crate) fn no_items<T: Drop>(alloc: Global, room: usize) -> Result<Vec<T>, NoMemory>
    ensures { IfOk result (λ v. v.items ≡ []) }
{
    Ok(Vec::with_capacity(alloc, room)?)
}

fn added<T: Drop>(
    items: Result<Vec<T>, NoMemory>,
    item: Result<T, NoMemory>,
) -> Result<Vec<T>, NoMemory>
    ensures { IfOk result (λ v. IsAdded items item v) }
{
    let (items, item) = both(items, item)?;
    with(items, item)
}

pub(crate) fn with_formula(
    items: Result<Vec<SFormula>, NoMemory>,
    item: Result<SFormula, NoMemory>,
) -> Result<Vec<SFormula>, NoMemory>
    ensures { (xs : List FormulaPattern) (x : FormulaPattern) → GivesFormulas items xs → GivesFormula item x → GivesFormulas result (xs ++ x ∷ []) }
{
    added(items, item)
}

pub(crate) fn with_assumption(
    items: Result<Vec<(Side, SFormula)>, NoMemory>,
    item: Result<(Side, SFormula), NoMemory>,
) -> Result<Vec<(Side, SFormula)>, NoMemory>
    ensures { (xs : List (PlainSide × FormulaPattern)) (x : PlainSide × FormulaPattern) → GivesAssumptions items xs → GivesAssumption item x → GivesAssumptions result (xs ++ x ∷ []) }
{
    added(items, item)
}

pub(crate) fn with_goal(
    items: Result<Vec<TacletGoal>, NoMemory>,
    item: Result<TacletGoal, NoMemory>,
) -> Result<Vec<TacletGoal>, NoMemory>
    ensures { (xs : List plain.TacletGoal) (x : plain.TacletGoal) → GivesGoals items xs → GivesGoal item x → GivesGoals result (xs ++ x ∷ []) }
{
    added(items, item)
}

pub(crate) fn with_variable(
    items: Result<Vec<InstVar>, NoMemory>,
    item: Result<InstVar, NoMemory>,
) -> Result<Vec<InstVar>, NoMemory>
    ensures { (xs : List (List ℕ)) (x : List ℕ) → GivesVariables items xs → GivesVariable item x → GivesVariables result (xs ++ x ∷ []) }
{
    added(items, item)
}

pub(crate) fn with_condition(
    items: Result<Vec<VarCond>, NoMemory>,
    item: Result<VarCond, NoMemory>,
) -> Result<Vec<VarCond>, NoMemory>
    ensures { (xs : List Said) (x : Said) → SayAll items xs → Says item x → SayAll result (xs ++ x ∷ []) }
{
    added(items, item)
}

pub(crate) fn with_row(
    items: Result<Vec<Taclet>, NoMemory>,
    item: Result<Taclet, NoMemory>,
) -> Result<Vec<Taclet>, NoMemory>
    ensures { (xs : List plain.Taclet) (x : plain.Taclet) → GivesRows items xs → GivesRow item x → GivesRows result (xs ++ x ∷ []) }
{
    added(items, item)
}
