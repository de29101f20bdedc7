//! What the goals of a row say under what was found.

ghost use Rattle.std.specs.Prelude.{◌≡◌, IfOk, Some, map, option_map};
ghost use Rattle.jd_model.specs.Sequents.{sequent_view};
ghost use Rattle.jd_schema_instances.specs.Choosing.{instance_by, program_by};
ghost use Rattle.jd_schema_trees.specs.FormulaViews.{formula_pattern};
ghost use Rattle.jd_schema_trees.specs.TacletViews.{goal, pattern};
ghost use Rattle.jd_taclet_premises.specs.Having.{AllHaveInstances, GoalHasInstances, HasInstance, HaveInstances};
ghost use Rattle.jd_taclet_premises.specs.Premises.{goal_of, replacement_of};
ghost use Rattle.jd_taclet_premises.specs.Views.{goal_view, replacement_view};
ghost use Rattle.jd_taclets.specs.Taclets.{all_formulas, added};
ghost use Rattle.jd_term.specs.Formulas.{formula_view};

use jd_base::{NoMemory, both};
use jd_model::Sequent;
use jd_schema_instances::{Chosen, instance_formula, instance_term};
use jd_schema_trees::{Pattern, SFormula, TacletGoal};
use jd_term::{Formula, Term};
use std::alloc::Global;

/// What stands in the place of what was found.
#[derive(Drop)]
pub enum Replacement {
    /// A formula.
    Formula(Formula),
    /// A term.
    Term(Term),
}

/// What a goal of a row says: the parts of a premise.
#[derive(Drop)]
pub struct GoalParts {
    /// Whether the found formula stays.
    pub keep: bool,
    /// What stands in the place of what was found.
    pub replace: Option<Replacement>,
    /// The formulas that are added.
    pub added: Sequent,
}

// The formulas that the patterns mean.
fn formulas(
    alloc: Global,
    patterns: &[SFormula],
    by: &Chosen<'_, '_>,
) -> Result<Vec<Formula>, NoMemory>
    requires { HaveInstances (program_by by.now) (instance_by by.now) (map formula_pattern patterns.now) }
    ensures { IfOk result (λ v. map formula_view v.items ≡ all_formulas (program_by by.now) (instance_by by.now) (map formula_pattern patterns.now)) }
{
    let mut made = Vec::with_capacity(alloc, patterns.len())?;
    for p in patterns {
        made.push(instance_formula(alloc, p, by)?)?;
    }
    Ok(made)
}

// The formulas that the goal adds.
fn added(alloc: Global, n: &TacletGoal, by: &Chosen<'_, '_>) -> Result<Sequent, NoMemory>
    requires { GoalHasInstances (program_by by.now) (instance_by by.now) (goal n.now) }
    ensures { IfOk result (λ s. sequent_view s ≡ added (program_by by.now) (instance_by by.now) (goal n.now)) }
{
    let (left, right) = both(formulas(alloc, &n.left, by), formulas(alloc, &n.right, by))?;
    Ok(Sequent { left, right })
}

fn replaced_by(alloc: Global, p: &Pattern, by: &Chosen<'_, '_>) -> Result<Replacement, NoMemory>
    requires { HasInstance (program_by by.now) (instance_by by.now) (Some (pattern p.now)) }
    ensures { IfOk result (λ r. replacement_view r ≡ replacement_of (program_by by.now) (instance_by by.now) (pattern p.now)) }
{
    match p {
        Pattern::Formula(a) => Ok(Replacement::Formula(instance_formula(alloc, a, by)?)),
        Pattern::Term(t) => Ok(Replacement::Term(instance_term(alloc, t, by)?)),
    }
}

fn replaced_with(
    alloc: Global,
    p: &Option<Pattern>,
    by: &Chosen<'_, '_>,
) -> Result<Option<Replacement>, NoMemory>
    requires { HasInstance (program_by by.now) (instance_by by.now) (option_map pattern p.now) }
    ensures { IfOk result (λ r. option_map replacement_view r ≡ option_map (replacement_of (program_by by.now) (instance_by by.now)) (option_map pattern p.now)) }
{
    match p {
        None => Ok(None),
        Some(p) => Ok(Some(replaced_by(alloc, p, by)?)),
    }
}

// What the goal says.
fn goal_parts(alloc: Global, n: &TacletGoal, by: &Chosen<'_, '_>) -> Result<GoalParts, NoMemory>
    requires { GoalHasInstances (program_by by.now) (instance_by by.now) (goal n.now) }
    ensures { IfOk result (λ g. goal_view g ≡ goal_of (program_by by.now) (instance_by by.now) (goal n.now)) }
{
    let (replace, added) = both(replaced_with(alloc, &n.replace, by), added(alloc, n, by))?;
    Ok(GoalParts {
        keep: n.keep,
        replace,
        added,
    })
}

/// What the goals say, in order. The error is `NoMemory` alone.
pub fn goals(
    alloc: Global,
    goals: &[TacletGoal],
    by: &Chosen<'_, '_>,
) -> Result<Vec<GoalParts>, NoMemory>
    requires { AllHaveInstances (program_by by.now) (instance_by by.now) (map goal goals.now) }
    ensures { IfOk result (λ v. map goal_view v.items ≡ map (goal_of (program_by by.now) (instance_by by.now)) (map goal goals.now)) }
{
    let mut made = Vec::with_capacity(alloc, goals.len())?;
    for n in goals {
        made.push(goal_parts(alloc, n, by)?)?;
    }
    Ok(made)
}
