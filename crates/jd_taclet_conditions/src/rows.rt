//! What all conditions of a row tell.

ghost use Rattle.std.specs.Prelude.{◌≡◌, ◌++◌, ◌∷◌, [], IfOk, Some, flat_map, option_map};
ghost use Rattle.jd_schema_instances.specs.Choosing.{instance_by};
ghost use Rattle.jd_schema_matching.specs.Bound.{answered};
ghost use Rattle.jd_schema_matching.specs.Tested.{tests};
ghost use Rattle.jd_schema_trees.specs.TacletViews.{condition, taclet};
ghost use Rattle.jd_sequent.specs.declared.bad.Bad.TheVariants.{SideCondition};
ghost use Rattle.jd_sequent.specs.Obligations.{task_view};
ghost use Rattle.jd_taclet_matching.specs.Answers.{Answers};
ghost use Rattle.jd_taclet_matching.specs.Given.{with_more};
ghost use Rattle.jd_taclet_matching.specs.OwnedParts.{owned_entries, owned_entry};
ghost use Rattle.jd_taclet_stages.specs.Conditions.{conditions_told, tested};
ghost use Rattle.jd_taclet_stages.specs.Stages.{going};
ghost use Rattle.jd_taclet_conditions.specs.Telling.{computed_told, in_groups, looked_told, or_told, test_told, told_of, told_view, with_told};

use crate::computing::{
    calculated, declared_by, default_of_name, default_of_sort, formula_fixed, refers_to,
    sort_of_field, typing_fixed, whether_below, whether_numbers,
};
use crate::lent::{kind_bound, term_bound};
use crate::testing::{
    at_least_zero, field_takes, fields_apart, has_sort, kind_below, kinds_differ, named_field,
    steady,
};
use crate::told::{Told, tested};
use jd_base::NoMemory;
use jd_lists::put;
use jd_schema_instances::Chosen;
use jd_schema_trees::{Taclet, VarCond};
use jd_sequent::{Bad, Task};
use jd_taclet_matching::{OwnedEntry, ended};
use jd_told_tables::{field_of, invariant};
use std::alloc::Global;

// Whether the condition holds, where it is a test.
fn holds(task: &Task<'_>, by: &Chosen<'_, '_>, c: &VarCond) -> Result<Option<bool>, NoMemory>
    ensures { IfOk result (λ o. option_map tested o ≡ test_told (task_view task.now) (instance_by by.now) c.now) }
{
    match c {
        VarCond::SteadyIn(t, a) => Ok(Some(steady(task, by, t, a)?)),
        VarCond::NamedFieldTerm(f) => Ok(Some(named_field(task, by, f))),
        VarCond::FieldsApart(f, e) => Ok(Some(fields_apart(task, by, f, e))),
        VarCond::AtLeastZero(m) => Ok(Some(at_least_zero(task, by, m))),
        VarCond::TermHasSort(t, s) => Ok(Some(has_sort(task, by, t, s))),
        VarCond::KindBelow(d, k) => Ok(Some(kind_below(task, by, d, k))),
        VarCond::KindsDiffer(d, k) => Ok(Some(kinds_differ(task, by, d, k))),
        VarCond::FieldTakes(f, s) => Ok(Some(field_takes(task, by, f, s))),
        _ => Ok(None),
    }
}

// What the condition tells, where it computes a part without the tables of the program.
fn computed<'t>(task: &Task<'_>, by: &Chosen<'_, '_>, c: &'t VarCond) -> Option<Told<'t>>
    ensures { option_map told_view result ≡ computed_told (task_view task.now) (instance_by by.now) c.now }
{
    match c {
        VarCond::Calculated(k, a) => Some(calculated(task, by, k, a)),
        VarCond::WhetherNumbers(k, test, a, b) => Some(whether_numbers(task, by, k, *test, a, b)),
        VarCond::DefaultTerm(k, s) => Some(default_of_sort(task, by, k, s)),
        VarCond::DefaultExpr(k, x) => Some(default_of_name(task, by, k, x)),
        _ => None,
    }
}

// What the condition tells, where it computes a part of what the tables tell; others stand.
fn looked_up<'t>(
    alloc: Global,
    task: &Task<'_>,
    by: &Chosen<'_, '_>,
    c: &'t VarCond,
) -> Result<Told<'t>, NoMemory>
    ensures { IfOk result (λ x. told_view x ≡ looked_told (task_view task.now) (instance_by by.now) c.now) }
{
    match c {
        VarCond::FieldRefersTo(f, d) => Ok(refers_to(task, by, f, d)),
        VarCond::WhetherBelow(k, d, e) => Ok(whether_below(task, by, k, d, e)),
        VarCond::FieldHasSort(k, f) => Ok(sort_of_field(task, by, k, f)),
        VarCond::DeclaredBy(k, f) => Ok(declared_by(task, by, k, f)),
        VarCond::TypingOf(k, f, h, s) => {
            let field = field_of(term_bound(by, f));
            typing_fixed(alloc, task, k, field, term_bound(by, h), term_bound(by, s))
        }
        VarCond::InvariantsOf(k, d, h, o) => {
            let (heap, object) = (term_bound(by, h), term_bound(by, o));
            formula_fixed(k, invariant(alloc, task, kind_bound(by, d), heap, object))
        }
        _ => Ok(Told::Stands),
    }
}

// What the condition tells, where it is no test.
fn told_of_part<'t>(
    alloc: Global,
    task: &Task<'_>,
    by: &Chosen<'_, '_>,
    c: &'t VarCond,
) -> Result<Told<'t>, NoMemory>
    ensures { IfOk result (λ x. told_view x ≡ or_told (computed_told (task_view task.now) (instance_by by.now) c.now) (looked_told (task_view task.now) (instance_by by.now) c.now)) }
{
    match computed(task, by, c) {
        Some(told) => Ok(told),
        None => looked_up(alloc, task, by, c),
    }
}

// What one condition tells.
fn told<'t>(
    alloc: Global,
    task: &Task<'_>,
    by: &Chosen<'_, '_>,
    c: &'t VarCond,
) -> Result<Told<'t>, NoMemory>
    ensures { IfOk result (λ x. told_view x ≡ in_groups (task_view task.now) (instance_by by.now) c.now) }
{
    match holds(task, by, c)? {
        Some(holds) => Ok(tested(holds)),
        None => told_of_part(alloc, task, by, c),
    }
}

// Puts the part behind the others.
fn added<'t>(entry: OwnedEntry<'t>, made: &mut Vec<OwnedEntry<'t>>) -> Result<bool, NoMemory>
    ensures { IfOk result (λ b. answered b (owned_entries made.new) ≡ Some (owned_entries made.old ++ owned_entry entry.entry ∷ [])) }
{
    put(made, entry)?;
    Ok(true)
}

// Puts the part that is told behind the others, where one is: whether the condition may hold.
fn add_told<'t>(told: Told<'t>, made: &mut Vec<OwnedEntry<'t>>) -> Result<bool, NoMemory>
    ensures { IfOk result (λ b. answered b (owned_entries made.new) ≡ with_told (owned_entries made.old) (told_view told.entry)) }
{
    match told {
        Told::Fails => Ok(false),
        Told::Stands => Ok(true),
        Told::Fixes(entry) => added(entry, made),
    }
}

// The same of a condition.
#[tactic(auto, using(crate::proofs::Grouped::grouped))]
fn add_one<'t>(
    alloc: Global,
    task: &Task<'_>,
    by: &Chosen<'_, '_>,
    c: &'t VarCond,
    made: &mut Vec<OwnedEntry<'t>>,
) -> Result<bool, NoMemory>
    ensures { IfOk result (λ b. answered b (owned_entries made.new) ≡ with_told (owned_entries made.old) (told_of (task_view task.now) (instance_by by.now) c.now)) }
{
    let told = told(alloc, task, by, c)?;
    add_told(told, made)
}

// The same of each condition.
fn add_all<'t>(
    alloc: Global,
    task: &Task<'_>,
    by: &Chosen<'_, '_>,
    conds: &'t [VarCond],
    made: &mut Vec<OwnedEntry<'t>>,
) -> Result<bool, NoMemory>
    ensures { IfOk result (λ b. answered b (owned_entries made.new) ≡ with_more (owned_entries made.old) (conditions_told tests (task_view task.now) (instance_by by.now) (flat_map condition conds.now))) }
{
    for c in conds {
        if !add_one(alloc, task, by, c, made)? {
            return Ok(false);
        }
    }
    Ok(true)
}

/// What the row's computed variables stand for, where its conditions hold of what was found, given and assumed. The conditions that hold of
/// each place that rules take are not looked at.
///
/// # Errors
///
/// `SideCondition` if one does not hold, or what it computes is not there; `NoMemory` if memory runs out.
pub fn conditions<'t>(
    alloc: Global,
    task: &Task<'_>,
    row: &'t Taclet,
    by: &Chosen<'_, '_>,
) -> Result<Vec<OwnedEntry<'t>>, Bad>
    ensures { Answers owned_entries result (going SideCondition (conditions_told tests (task_view task.now) (instance_by by.now) (taclet row.now).conds)) }
{
    let mut made = Vec::new(alloc);
    let whole = add_all(alloc, task, by, &row.conds, &mut made);
    ended(whole, made, Bad::SideCondition)
}
