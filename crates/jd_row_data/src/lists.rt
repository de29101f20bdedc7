//! The parts of a row that are several.

ghost use Rattle.std.specs.Prelude.{◌++◌, None, map};
ghost use Rattle.jd_row_data.specs.Data.{assumed_data, formula_data, goal_data};
ghost use Rattle.jd_row_data.specs.Gives.{GivesAssumption, GivesAssumptions, GivesFormulas, GivesGoal, GivesGoals, GivesVariable, GivesVariables, SayAll};
ghost use Rattle.jd_row_data.specs.Names.{given_name};
ghost use Rattle.jd_row_data.specs.Said.{said_of_condition, said_of_given};

use crate::conditions::{given, holding};
use crate::data::{ConditionData, FormData, FormulaData, GivenData, GoalData};
use crate::formulas::formula;
use crate::growing::{
    no_items, with_assumption, with_condition, with_formula, with_goal, with_variable,
};
use jd_base::{NoMemory, both, copy_bytes};
use jd_lists::appended;
use jd_model::Side;
use jd_schema_trees::{InstVar, SFormula, TacletGoal, VarCond};
use std::alloc::Global;

fn formulas(alloc: Global, all: &[FormulaData]) -> Result<Vec<SFormula>, NoMemory>
    ensures { GivesFormulas result (map formula_data all.now) }
{
    let mut made = no_items(alloc, all.len());
    for a in all {
        made = with_formula(made, formula(alloc, a));
    }
    made
}

fn assumption(alloc: Global, a: &(Side, FormulaData)) -> Result<(Side, SFormula), NoMemory>
    ensures { GivesAssumption result (assumed_data a.now) }
{
    Ok((a.0, formula(alloc, &a.1)?))
}

/// What the row assumes.
pub(crate) fn assumptions(
    alloc: Global,
    all: &[(Side, FormulaData)],
) -> Result<Vec<(Side, SFormula)>, NoMemory>
    ensures { GivesAssumptions result (map assumed_data all.now) }
{
    let mut made = no_items(alloc, all.len());
    for a in all {
        made = with_assumption(made, assumption(alloc, a));
    }
    made
}

fn premise(
    alloc: Global,
    keep: bool,
    left: &[FormulaData],
    right: &[FormulaData],
) -> Result<TacletGoal, NoMemory>
    ensures { GivesGoal result (record { keep = keep; replace = None; left = map formula_data left.now; right = map formula_data right.now }) }
{
    let (left, right) = both(formulas(alloc, left), formulas(alloc, right))?;
    Ok(TacletGoal {
        keep,
        replace: None,
        left,
        right,
    })
}

fn one_goal(alloc: Global, n: &GoalData) -> Result<TacletGoal, NoMemory>
    ensures { GivesGoal result (goal_data n.now) }
{
    match n {
        GoalData::Goal(left, right) => premise(alloc, false, left, right),
        GoalData::Plus(left, right) => premise(alloc, true, left, right),
    }
}

/// The premises.
pub(crate) fn goals(alloc: Global, all: &[GoalData]) -> Result<Vec<TacletGoal>, NoMemory>
    ensures { GivesGoals result (map goal_data all.now) }
{
    let mut made = no_items(alloc, all.len());
    for n in all {
        made = with_goal(made, one_goal(alloc, n));
    }
    made
}

fn is_new(form: &FormData) -> bool {
    match form {
        FormData::NewConstant(_) => true,
        FormData::AFormula | FormData::ANumber | FormData::ATerm(_) => false,
    }
}

fn variable(alloc: Global, g: &GivenData) -> Result<InstVar, NoMemory>
    ensures { GivesVariable result (given_name g.now) }
{
    let name = copy_bytes(alloc, g.0)?;
    Ok(InstVar {
        name,
        fresh: is_new(&g.1),
    })
}

/// The variables for which a step gives what they stand for.
pub(crate) fn variables(alloc: Global, all: &[GivenData]) -> Result<Vec<InstVar>, NoMemory>
    ensures { GivesVariables result (map given_name all.now) }
{
    let mut made = no_items(alloc, all.len());
    for g in all {
        made = with_variable(made, variable(alloc, g));
    }
    made
}

fn forms(alloc: Global, all: &[GivenData]) -> Result<Vec<VarCond>, NoMemory>
    ensures { SayAll result (map said_of_given all.now) }
{
    let mut made = no_items(alloc, all.len());
    for g in all {
        made = with_condition(made, given(alloc, g));
    }
    made
}

fn holdings(alloc: Global, all: &[ConditionData]) -> Result<Vec<VarCond>, NoMemory>
    ensures { SayAll result (map said_of_condition all.now) }
{
    let mut made = no_items(alloc, all.len());
    for c in all {
        made = with_condition(made, holding(alloc, c));
    }
    made
}

/// The forms of what a step gives, and then the conditions.
pub(crate) fn conditions(
    alloc: Global,
    given: &[GivenData],
    all: &[ConditionData],
) -> Result<Vec<VarCond>, NoMemory>
    ensures { SayAll result (map said_of_given given.now ++ map said_of_condition all.now) }
{
    let (forms, others) = both(forms(alloc, given), holdings(alloc, all))?;
    appended(forms, others)
}
