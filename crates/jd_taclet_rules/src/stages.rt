//! A step by a row, stage after stage: each decides its cause alone and goes on with what the row's variables stand for by then.

ghost use Rattle.jd_model.specs.Sequents.{sequent_view};
ghost use Rattle.jd_schema_matching.specs.PartViews.{bindings};
ghost use Rattle.jd_schema_matching.specs.Tested.{tests};
ghost use Rattle.jd_schema_trees.specs.TacletViews.{taclet};
ghost use Rattle.jd_sequent.specs.declared.bad.Bad.TheVariants.{BadInst, SideCondition};
ghost use Rattle.jd_sequent.specs.Obligations.{task_view};
ghost use Rattle.jd_sequent.specs.Steps.{step_view};
ghost use Rattle.jd_taclet_matching.specs.OwnedParts.{owned_entries};
ghost use Rattle.jd_taclet_stages.specs.Stages.{Goes, and_then, assumed_stage, bind_all, condition_stage, given_stage, going, new_stage, stages};
ghost use Rattle.jd_taclet_rules.specs.Goals.{Concludes, HaveInstancesAfter};
ghost use Rattle.jd_taclet_rules.specs.Machine.{AreMachineClasses};

use crate::machine::machine_classes;
use jd_model::Sequent;
use jd_schema_instances::{Chosen, MachineClasses};
use jd_schema_matching::Found;
use jd_schema_trees::Taclet;
use jd_sequent::{Bad, Step, Task};
use jd_taclet_conditions::conditions;
use jd_taclet_matching::{OwnedEntry, are_new, assumed, bound_behind, found, parts_given};
use jd_taclet_premises::{GoalParts, goals};
use std::alloc::Global;

// A step as the stages work it out: in its task, by its row, at its sequent.
#[derive(Drop)]
struct Application<'t> {
    task: &'t Task<'t>,
    row: &'t Taclet,
    sequent: &'t Sequent,
    step: &'t Step,
    machine: MachineClasses,
}

// What the goals say under the bindings that all stages found.
fn goals_by(
    alloc: Global,
    task: &Task<'_>,
    row: &Taclet,
    by: &Chosen<'_, '_>,
) -> Result<Vec<GoalParts>, Bad>
    requires classes { AreMachineClasses (task_view task.now) by.now.machine }
    requires have { HaveInstancesAfter (task_view task.now) (taclet row.now) (Goes (bindings by.now.found.now)) }
    ensures { Concludes (task_view task.now) (taclet row.now) (Goes (bindings by.now.found.now)) result }
{
    match goals(alloc, &row.goals, by) {
        Ok(goals) => Ok(goals),
        Err(_) => Err(Bad::NoMemory),
    }
}

// The last stage: with what the conditions tell.
fn with_told<'t>(
    alloc: Global,
    at: &Application<'t>,
    found: &Found<'t>,
    told: Vec<OwnedEntry<'t>>,
) -> Result<Vec<GoalParts>, Bad>
    requires classes { AreMachineClasses (task_view at.now.task.now) at.now.machine }
    requires have { HaveInstancesAfter (task_view at.now.task.now) (taclet at.now.row.now) (going SideCondition (bind_all tests (owned_entries told) (bindings found.now))) }
    ensures { Concludes (task_view at.now.task.now) (taclet at.now.row.now) (going SideCondition (bind_all tests (owned_entries told.entry) (bindings found.now))) result }
{
    match bound_behind(alloc, found, told.as_slice(), Bad::SideCondition) {
        Err(bad) => Err(bad),
        Ok(found) => goals_by(
            alloc,
            at.task,
            at.row,
            &Chosen {
                found: &found,
                machine: at.machine,
            },
        ),
    }
}

// What the conditions tell.
fn with_conditions<'t>(
    alloc: Global,
    at: &Application<'t>,
    found: &Found<'t>,
) -> Result<Vec<GoalParts>, Bad>
    requires classes { AreMachineClasses (task_view at.now.task.now) at.now.machine }
    requires have { HaveInstancesAfter (task_view at.now.task.now) (taclet at.now.row.now) (condition_stage tests (task_view at.now.task.now) (taclet at.now.row.now) (bindings found.now)) }
    ensures { Concludes (task_view at.now.task.now) (taclet at.now.row.now) (condition_stage tests (task_view at.now.task.now) (taclet at.now.row.now) (bindings found.now)) result }
{
    let machine = at.machine;
    match conditions(alloc, at.task, at.row, &Chosen { found, machine }) {
        Err(bad) => Err(bad),
        Ok(told) => with_told(alloc, at, found, told),
    }
}

// Whether new names are new.
fn with_new<'t>(
    alloc: Global,
    at: &Application<'t>,
    found: &Found<'t>,
) -> Result<Vec<GoalParts>, Bad>
    requires classes { AreMachineClasses (task_view at.now.task.now) at.now.machine }
    requires have { HaveInstancesAfter (task_view at.now.task.now) (taclet at.now.row.now) (new_stage tests (task_view at.now.task.now) (sequent_view at.now.sequent.now) (taclet at.now.row.now) (bindings found.now)) }
    ensures { Concludes (task_view at.now.task.now) (taclet at.now.row.now) (new_stage tests (task_view at.now.task.now) (sequent_view at.now.sequent.now) (taclet at.now.row.now) (bindings found.now)) result }
{
    let machine = at.machine;
    match are_new(
        alloc,
        at.task,
        at.sequent,
        at.row,
        &Chosen { found, machine },
    ) {
        Err(_) => Err(Bad::NoMemory),
        Ok(false) => Err(Bad::NotFresh),
        Ok(true) => with_conditions(alloc, at, found),
    }
}

// What is assumed.
fn with_assumed<'t>(
    alloc: Global,
    at: &Application<'t>,
    found: Found<'t>,
) -> Result<Vec<GoalParts>, Bad>
    requires classes { AreMachineClasses (task_view at.now.task.now) at.now.machine }
    requires have { HaveInstancesAfter (task_view at.now.task.now) (taclet at.now.row.now) (assumed_stage tests (task_view at.now.task.now) (sequent_view at.now.sequent.now) (taclet at.now.row.now) (step_view at.now.step.now) (bindings found)) }
    ensures { Concludes (task_view at.now.task.now) (taclet at.now.row.now) (assumed_stage tests (task_view at.now.task.now) (sequent_view at.now.sequent.now) (taclet at.now.row.now) (step_view at.now.step.now) (bindings found.entry)) result }
{
    match assumed(at.sequent, at.row, at.step, found) {
        Err(bad) => Err(bad),
        Ok(found) => with_new(alloc, at, &found),
    }
}

// With what is given.
fn with_given<'t>(
    alloc: Global,
    at: &Application<'t>,
    found: &Found<'t>,
    given: Vec<OwnedEntry<'t>>,
) -> Result<Vec<GoalParts>, Bad>
    requires classes { AreMachineClasses (task_view at.now.task.now) at.now.machine }
    requires have { HaveInstancesAfter (task_view at.now.task.now) (taclet at.now.row.now) (and_then (going BadInst (bind_all tests (owned_entries given) (bindings found.now))) (assumed_stage tests (task_view at.now.task.now) (sequent_view at.now.sequent.now) (taclet at.now.row.now) (step_view at.now.step.now))) }
    ensures { Concludes (task_view at.now.task.now) (taclet at.now.row.now) (and_then (going BadInst (bind_all tests (owned_entries given.entry) (bindings found.now))) (assumed_stage tests (task_view at.now.task.now) (sequent_view at.now.sequent.now) (taclet at.now.row.now) (step_view at.now.step.now))) result }
{
    match bound_behind(alloc, found, given.as_slice(), Bad::BadInst) {
        Err(bad) => Err(bad),
        Ok(found) => with_assumed(alloc, at, found),
    }
}

// What is given.
fn after_found<'t>(
    alloc: Global,
    at: &Application<'t>,
    found: &Found<'t>,
) -> Result<Vec<GoalParts>, Bad>
    requires classes { AreMachineClasses (task_view at.now.task.now) at.now.machine }
    requires have { HaveInstancesAfter (task_view at.now.task.now) (taclet at.now.row.now) (and_then (given_stage tests (task_view at.now.task.now) (taclet at.now.row.now).insts (step_view at.now.step.now).insts (bindings found.now)) (assumed_stage tests (task_view at.now.task.now) (sequent_view at.now.sequent.now) (taclet at.now.row.now) (step_view at.now.step.now))) }
    ensures { Concludes (task_view at.now.task.now) (taclet at.now.row.now) (and_then (given_stage tests (task_view at.now.task.now) (taclet at.now.row.now).insts (step_view at.now.step.now).insts (bindings found.now)) (assumed_stage tests (task_view at.now.task.now) (sequent_view at.now.sequent.now) (taclet at.now.row.now) (step_view at.now.step.now))) result }
{
    let machine = at.machine;
    match parts_given(
        alloc,
        at.task,
        at.row,
        &at.step.insts,
        &Chosen { found, machine },
    ) {
        Err(bad) => Err(bad),
        Ok(given) => with_given(alloc, at, found, given),
    }
}

/// What the goals of the row say in the step.
///
/// # Errors
///
/// The cause of the first stage that refuses the step; `NoMemory` if memory runs out.
pub fn goals_of_step(
    alloc: Global,
    task: &Task<'_>,
    row: &Taclet,
    sequent: &Sequent,
    step: &Step,
) -> Result<Vec<GoalParts>, Bad>
    requires { HaveInstancesAfter (task_view task.now) (taclet row.now) (stages tests (taclet row.now) (task_view task.now) (sequent_view sequent.now) (step_view step.now)) }
    ensures { Concludes (task_view task.now) (taclet row.now) (stages tests (taclet row.now) (task_view task.now) (sequent_view sequent.now) (step_view step.now)) result }
{
    match found(alloc, row, sequent, &step.place) {
        Err(bad) => Err(bad),
        Ok(found) => {
            let machine = machine_classes(task);
            let at = Application {
                task,
                row,
                sequent,
                step,
                machine,
            };
            after_found(alloc, &at, &found)
        }
    }
}
