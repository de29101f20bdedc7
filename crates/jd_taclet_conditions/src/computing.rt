//! What the conditions tell that say what a computed part is.

ghost use Rattle.std.specs.Prelude.{◌≡◌, IfOk, option_map};
ghost use Rattle.jd_jinfos.specs.Views.{field_number};
ghost use Rattle.jd_patterns.specs.Bindings.{TheFormula};
ghost use Rattle.jd_schema_instances.specs.Choosing.{instance_by};
ghost use Rattle.jd_schema_matching.specs.Tested.{tests};
ghost use Rattle.jd_schema_trees.specs.HeadViews.{sort_pattern};
ghost use Rattle.jd_schema_trees.specs.TacletViews.{calculation, number_test};
ghost use Rattle.jd_sequent.specs.Obligations.{task_view};
ghost use Rattle.jd_taclet_stages.specs.Conditions.{Fixes, condition_told, fixing};
ghost use Rattle.jd_taclets.specs.Conditions.{Calculated, DeclaredBy, DefaultExpr, DefaultTerm, FieldHasSort, FieldRefersTo, WhetherBelow, WhetherNumbers, typing};
ghost use Rattle.jd_term.specs.Formulas.{PlainFormula};
ghost use Rattle.jd_term.specs.Makers.{GivesFormula};
ghost use Rattle.jd_term.specs.TermViews.{term_view};
ghost use Rattle.jd_told_programs.specs.Told.{told_setting};
ghost use Rattle.jd_told_tables.specs.Lent.{term_or};
ghost use Rattle.jd_taclet_conditions.specs.Telling.{told_view};

use crate::lent::{field_bound, kind_bound, sort_meant, sort_of_name, term_bound};
use crate::numbers::{calculate, literal_part};
use crate::parts::{default_expr, default_term, passed, truth, typed};
use crate::told::{Told, fixed, fixing};
use jd_base::{FieldId, NoMemory};
use jd_schema_instances::Chosen;
use jd_schema_trees::{Calculation, NumberTest, SSort};
use jd_sequent::Task;
use jd_taclet_matching::OwnedPart;
use jd_term::{Formula, Term};
use jd_told_tables::{declared, field_of, field_sort, field_type, is_below, referred};
use std::alloc::Global;

/// That the variable stands for what the field refers to, where the term is such a one.
pub(crate) fn refers_to<'t>(task: &Task<'_>, by: &Chosen<'_, '_>, f: &[u8], d: &'t [u8]) -> Told<'t>
    ensures { told_view result ≡ condition_told tests (task_view task.now) (instance_by by.now) (FieldRefersTo f.now d.now) }
{
    fixing(d, referred(task, field_of(term_bound(by, f))))
}

/// That the variable stands for the number, where it fits.
pub(crate) fn calculated<'t>(
    task: &Task<'_>,
    by: &Chosen<'_, '_>,
    k: &'t [u8],
    c: &Calculation,
) -> Told<'t>
    ensures { told_view result ≡ condition_told tests (task_view task.now) (instance_by by.now) (Calculated k.now (calculation c.now)) }
{
    fixing(k, literal_part(calculate(c, by)))
}

/// That the variable stands for whether the numbers pass the test, where they fit.
pub(crate) fn whether_numbers<'t>(
    task: &Task<'_>,
    by: &Chosen<'_, '_>,
    k: &'t [u8],
    test: NumberTest,
    a: &Calculation,
    c: &Calculation,
) -> Told<'t>
    ensures { told_view result ≡ condition_told tests (task_view task.now) (instance_by by.now) (WhetherNumbers k.now (number_test test) (calculation a.now) (calculation c.now)) }
{
    fixing(k, passed(test, calculate(a, by), calculate(c, by)))
}

/// That the variable stands for whether the second kind is the third or stands below it.
pub(crate) fn whether_below<'t>(
    task: &Task<'_>,
    by: &Chosen<'_, '_>,
    k: &'t [u8],
    d: &[u8],
    c: &[u8],
) -> Told<'t>
    ensures { told_view result ≡ condition_told tests (task_view task.now) (instance_by by.now) (WhetherBelow k.now d.now c.now) }
{
    fixed(
        k,
        OwnedPart::Formula(truth(is_below(task, kind_bound(by, d), kind_bound(by, c)))),
    )
}

/// That the variable stands for the sort's default.
pub(crate) fn default_of_sort<'t>(
    task: &Task<'_>,
    by: &Chosen<'_, '_>,
    k: &'t [u8],
    s: &SSort,
) -> Told<'t>
    ensures { told_view result ≡ condition_told tests (task_view task.now) (instance_by by.now) (DefaultTerm k.now (sort_pattern s.now)) }
{
    fixed(k, OwnedPart::Term(default_term(sort_meant(task, s, by))))
}

/// That the variable stands for the default of the program variable's sort, as code.
pub(crate) fn default_of_name<'t>(
    task: &Task<'_>,
    by: &Chosen<'_, '_>,
    k: &'t [u8],
    x: &[u8],
) -> Told<'t>
    ensures { told_view result ≡ condition_told tests (task_view task.now) (instance_by by.now) (DefaultExpr k.now x.now) }
{
    fixed(k, OwnedPart::Simple(default_expr(sort_of_name(by, x))))
}

/// That the variable stands for the sort of the field.
pub(crate) fn sort_of_field<'t>(
    task: &Task<'_>,
    by: &Chosen<'_, '_>,
    k: &'t [u8],
    f: &[u8],
) -> Told<'t>
    ensures { told_view result ≡ condition_told tests (task_view task.now) (instance_by by.now) (FieldHasSort k.now f.now) }
{
    fixed(k, OwnedPart::Sort(field_sort(task, field_bound(by, f))))
}

/// That the variable stands for the class that declares the field, where the term is a named one.
pub(crate) fn declared_by<'t>(
    task: &Task<'_>,
    by: &Chosen<'_, '_>,
    k: &'t [u8],
    f: &[u8],
) -> Told<'t>
    ensures { told_view result ≡ condition_told tests (task_view task.now) (instance_by by.now) (DeclaredBy k.now f.now) }
{
    fixing(k, declared(task, field_of(term_bound(by, f))))
}

/// That the variable stands for the formula, where it was made.
pub(crate) fn formula_fixed<'t>(
    k: &'t [u8],
    made: Result<Formula, NoMemory>,
) -> Result<Told<'t>, NoMemory>
    ensures { (a : PlainFormula) → GivesFormula made a → IfOk result (λ x. told_view x ≡ Fixes k.now (TheFormula a)) }
{
    Ok(fixed(k, OwnedPart::Formula(made?)))
}

/// That the variable stands for the typing of what is stored to the field, where there is one.
pub(crate) fn typing_fixed<'t>(
    alloc: Global,
    task: &Task<'_>,
    k: &'t [u8],
    field: Option<FieldId>,
    heap: Option<&Term>,
    value: Option<&Term>,
) -> Result<Told<'t>, NoMemory>
    ensures { IfOk result (λ x. told_view x ≡ fixing k.now (option_map (λ n. TheFormula (typing ((told_setting (task_view task.now)).program.field_type n) (term_or (option_map (λ t. term_view t.now) heap.entry)) (term_or (option_map (λ t. term_view t.now) value.entry)))) (option_map field_number field))) }
{
    match field {
        Some(field) => formula_fixed(k, typed(alloc, field_type(task, field), heap, value)),
        None => Ok(Told::Fails),
    }
}
