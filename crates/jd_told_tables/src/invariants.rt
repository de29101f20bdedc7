//! What the invariants of a class say in a heap and for an object.

ghost use Rattle.std.specs.Prelude.{◌≡◌, ◌++◌, Ok, length, IfOk, OnOk, map, option_map};
ghost use Rattle.jd_model.specs.Renamings.{rename_all};
ghost use Rattle.jd_model.specs.Tables.{invariants_in};
ghost use Rattle.jd_sequent.specs.Obligations.{task_view};
ghost use Rattle.jd_syntax.specs.CodeViews.{kind_view};
ghost use Rattle.jd_syntax.specs.Codes.{OfClass};
ghost use Rattle.jd_taclets.specs.Conditions.{invariant_at};
ghost use Rattle.jd_task_classes.specs.Classes.{parents_in};
ghost use Rattle.jd_term.specs.Formulas.{formula_view};
ghost use Rattle.jd_term.specs.Makers.{GivesFormula};
ghost use Rattle.jd_term.specs.TermViews.{term_view};
ghost use Rattle.jd_told_programs.specs.Told.{told_setting};
ghost use Rattle.jd_told_tables.specs.Lent.{term_or};
ghost use Rattle.jd_told_tables.specs.Lines.{line_up, renamed_along};
ghost use Rattle.jd_told_tables.specs.Places.{renaming_at};

use crate::classes::{class_count, extended};
use crate::renamed::{Place, renamed};
use jd_base::{ClassId, NoMemory};
use jd_lists::put;
use jd_obligation_makers::conjoined;
use jd_sequent::Task;
use jd_syntax::Kind;
use jd_term::{Formula, Term};
use std::alloc::Global;

// The invariants that the class declares itself.
fn own_invariants<'a>(task: &Task<'a>, class: u32) -> &'a [Formula]
    ensures { map formula_view result.now ≡ invariants_in (task_view task.now).contracts.invariants class }
{
    for i in &task.contracts.invariants {
        if i.class.0 == class {
            return &i.formulas;
        }
    }
    &[]
}

// Puts so many classes from this one up behind others.
fn add_line(task: &Task<'_>, class: u32, steps: u32, made: &mut Vec<u32>) -> Result<(), NoMemory>
    ensures { OnOk result (made.new.items ≡ made.old.items ++ line_up (parents_in (task_view task.now).classes.tables) steps class) }
{
    let mut at = class;
    let mut left = steps;
    while left > 0 {
        left -= 1;
        put(made, at)?;
        let Some(above) = extended(task, at) else {
            return Ok(());
        };
        at = above;
    }
    Ok(())
}

// Puts the formulas with the heap and the object for their names behind others.
fn add_renamed(
    alloc: Global,
    formulas: &[Formula],
    at: &Place<'_>,
    made: &mut Vec<Formula>,
) -> Result<(), NoMemory>
    ensures { OnOk result (map formula_view made.new.items ≡ map formula_view made.old.items ++ rename_all (renaming_at at.now) (map formula_view formulas.now)) }
{
    for f in formulas {
        put(made, renamed(alloc, f, at)?)?;
    }
    Ok(())
}

// The same of the invariants that the classes declare themselves, those of the last class first.
fn add_along(
    alloc: Global,
    task: &Task<'_>,
    classes: &[u32],
    at: &Place<'_>,
    made: &mut Vec<Formula>,
) -> Result<(), NoMemory>
    ensures { OnOk result (map formula_view made.new.items ≡ map formula_view made.old.items ++ renamed_along (renaming_at at.now) (invariants_in (task_view task.now).contracts.invariants) classes.now) }
{
    for place in (0..classes.len()).rev() {
        add_renamed(alloc, own_invariants(task, classes[place]), at, made)?;
    }
    Ok(())
}

// What was made, where all of it was.
fn kept<T: Drop>(whole: Result<(), NoMemory>, made: T) -> Result<T, NoMemory>
    ensures { IfOk result (λ x. (x ≡ made) × (whole ≡ Ok tt)) }
{
    match whole {
        Ok(()) => Ok(made),
        Err(_) => Err(NoMemory),
    }
}

// The class and all above it.
fn line_of(alloc: Global, task: &Task<'_>, class: u32) -> Result<Vec<u32>, NoMemory>
    ensures { IfOk result (λ v. v.items ≡ line_up (parents_in (task_view task.now).classes.tables) (length (task_view task.now).classes.tables.classes) class) }
{
    let mut made = Vec::new(alloc);
    let whole = add_line(task, class, class_count(task), &mut made);
    kept(whole, made)
}

// The invariants of the classes, those of the last one first.
fn along(
    alloc: Global,
    task: &Task<'_>,
    classes: &[u32],
    at: &Place<'_>,
) -> Result<Vec<Formula>, NoMemory>
    ensures { IfOk result (λ v. map formula_view v.items ≡ renamed_along (renaming_at at.now) (invariants_in (task_view task.now).contracts.invariants) classes.now) }
{
    let mut made = Vec::new(alloc);
    let whole = add_along(alloc, task, classes, at, &mut made);
    kept(whole, made)
}

// The invariants of the class and of those above it, the topmost class first.
fn invariants_of_class(
    alloc: Global,
    task: &Task<'_>,
    class: u32,
    at: &Place<'_>,
) -> Result<Vec<Formula>, NoMemory>
    ensures { IfOk result (λ v. map formula_view v.items ≡ renamed_along (renaming_at at.now) (invariants_in (task_view task.now).contracts.invariants) (line_up (parents_in (task_view task.now).classes.tables) (length (task_view task.now).classes.tables.classes) class)) }
{
    let classes = line_of(alloc, task, class)?;
    along(alloc, task, &classes, at)
}

// What the invariants of the class say.
fn class_invariant(
    alloc: Global,
    task: &Task<'_>,
    class: ClassId,
    at: &Place<'_>,
) -> Result<Formula, NoMemory>
    ensures { GivesFormula result (invariant_at (told_setting (task_view task.now)) (OfClass class.0) (term_or (option_map (λ t. term_view t.now) at.now.heap)) (term_or (option_map (λ t. term_view t.now) at.now.object))) }
{
    if class.0 >= class_count(task) {
        return Ok(Formula::TrueFormula);
    }
    conjoined(alloc, invariants_of_class(alloc, task, class.0, at)?)
}

/// What the invariants of the kind say in the heap and for the object; those of `int[]` say nothing.
pub fn invariant(
    alloc: Global,
    task: &Task<'_>,
    kind: Kind,
    heap: Option<&Term>,
    object: Option<&Term>,
) -> Result<Formula, NoMemory>
    ensures { GivesFormula result (invariant_at (told_setting (task_view task.now)) (kind_view kind) (term_or (option_map (λ t. term_view t.now) heap.entry)) (term_or (option_map (λ t. term_view t.now) object.entry))) }
{
    match kind {
        Kind::Class(class) => class_invariant(alloc, task, class, &Place { heap, object }),
        Kind::IntArray => Ok(Formula::TrueFormula),
    }
}
