//! What a row's variables stand for at a place, and what its goals say then.

ghost use Rattle.std.specs.Prelude.{◌≡◌, IfOk, map, option_map};
ghost use Rattle.jd_model.specs.Nodes.{node_part};
ghost use Rattle.jd_model.specs.Places.{at_place};
ghost use Rattle.jd_model.specs.Programs.{Program};
ghost use Rattle.jd_model.specs.Sequents.{place_view, sequent_view};
ghost use Rattle.jd_patterns.specs.Chosen.{chosen};
ghost use Rattle.jd_schema.specs.Matches.{IsMatch, found_in, found_in_part, thrown_by};
ghost use Rattle.jd_schema.specs.Parts.{insts_view};
ghost use Rattle.jd_schema_matching.specs.Tested.{tests};
ghost use Rattle.jd_schema_trees.specs.TacletViews.{pattern, taclet};
ghost use Rattle.jd_taclet_premises.specs.Having.{AllHaveInstances};
ghost use Rattle.jd_taclet_premises.specs.Premises.{goal_of};
ghost use Rattle.jd_taclet_premises.specs.Views.{goal_view};
ghost use Rattle.jd_taclets.specs.Taclets.{IsFind};

use crate::insts::Insts;
use jd_base::NoMemory;
use jd_model::{Node, Place, Sequent, at};
use jd_schema_instances::{Chosen, MachineClasses};
use jd_schema_matching::Found;
use jd_schema_trees::{Pattern, Taclet};
use jd_taclet_matching::match_node;
use jd_taclet_premises::{GoalParts, goals};
use std::alloc::Global;

// What the variables stand for, where they make the pattern what stands there.
fn match_part(
    alloc: Global,
    find: &Option<Pattern>,
    node: Node<'_>,
) -> Result<Option<Insts>, NoMemory>
    ensures { IfOk result (λ o. option_map insts_view o ≡ found_in_part (option_map pattern find.now) (node_part node.entry)) }
{
    let mut found = Found::new(alloc);
    if match_node(find, node, &mut found)? {
        Ok(Some(Insts::of(alloc, &found)?))
    } else {
        Ok(None)
    }
}

// The same at the place.
fn match_there(
    alloc: Global,
    row: &Taclet,
    sequent: &Sequent,
    place: &Place,
) -> Result<Option<Insts>, NoMemory>
    ensures { IfOk result (λ o. option_map insts_view o ≡ found_in (taclet row.now).find (at_place (sequent_view sequent.now) (place_view place.now))) }
{
    match at(sequent, place) {
        Some(node) => match_part(alloc, &row.find, node),
        None => Ok(None),
    }
}

/// What the row's variables stand for where its find is the part at the place: None exactly where no instantiation makes it that part. Each
/// variable of the find has its part.
///
/// # Errors
///
/// `NoMemory` if memory runs out.
pub fn match_at(
    alloc: Global,
    row: &Taclet,
    sequent: &Sequent,
    place: &Place,
) -> Result<Option<Insts>, NoMemory>
    requires { IsFind (taclet row.now).find }
    ensures { (p : Program) → IfOk result (λ o. IsMatch p (taclet row.now).find (at_place (sequent_view sequent.now) (place_view place.now)) (option_map insts_view o)) }
{
    match_there(alloc, row, sequent, place)
}

/// What the row's goals say, in order, where its variables stand for these parts; the machine throws objects of these classes.
///
/// # Errors
///
/// `NoMemory` if memory runs out.
pub fn instantiate(
    alloc: Global,
    row: &Taclet,
    insts: &Insts,
    machine: MachineClasses,
) -> Result<Vec<GoalParts>, NoMemory>
    requires { AllHaveInstances (thrown_by machine) (chosen tests (insts_view insts.now)) (taclet row.now).goals }
    ensures { IfOk result (λ v. map goal_view v.items ≡ map (goal_of (thrown_by machine) (chosen tests (insts_view insts.now))) (taclet row.now).goals) }
{
    let found = insts.lent(alloc)?;
    goals(
        alloc,
        &row.goals,
        &Chosen {
            found: &found,
            machine,
        },
    )
}
