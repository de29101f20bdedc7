//! Whether the conditions of a row's `if` hold.

ghost use Rattle.std.specs.Prelude.{◌≡◌, IfOk, option_map, pos, int_le};
ghost use Rattle.std.specs.Option.{option_map_or};
ghost use Rattle.jd_jinfos.specs.Views.{field_number};
ghost use Rattle.jd_model.specs.Programs.{field_sort};
ghost use Rattle.jd_schema_instances.specs.Choosing.{instance_by};
ghost use Rattle.jd_schema_matching.specs.Tested.{tests};
ghost use Rattle.jd_schema_trees.specs.HeadViews.{sort_pattern};
ghost use Rattle.jd_sequent.specs.Obligations.{task_view};
ghost use Rattle.jd_syntax.specs.CodeNames.{same_sort};
ghost use Rattle.jd_taclet_stages.specs.Conditions.{Fails, condition_told, tested};
ghost use Rattle.jd_taclets.specs.Conditions.{AtLeastZero, FieldTakes, FieldsApart, KindBelow, KindsDiffer, NamedFieldTerm, SteadyIn, TermHasSort};
ghost use Rattle.jd_told_programs.specs.Told.{told_setting};

use crate::lent::{formula_bound, kind_bound, lent_sort, literal_bound, sort_meant, term_bound};
use jd_base::{FieldId, NoMemory, Sort};
use jd_schema_instances::Chosen;
use jd_schema_trees::SSort;
use jd_sequent::Task;
use jd_taclet_matching::is_sort;
use jd_told_tables::{
    are_apart, field_of, field_sort, is_below, is_kind, is_named_field, is_steady,
};

/// Whether the term may be put for the index 0 of the formula.
pub(crate) fn steady(
    task: &Task<'_>,
    by: &Chosen<'_, '_>,
    t: &[u8],
    a: &[u8],
) -> Result<bool, NoMemory>
    ensures { IfOk result (λ b. tested b ≡ condition_told tests (task_view task.now) (instance_by by.now) (SteadyIn t.now a.now)) }
{
    is_steady(term_bound(by, t), formula_bound(by, a))
}

/// Whether the term is `C.f` or `(idx i)`.
pub(crate) fn named_field(task: &Task<'_>, by: &Chosen<'_, '_>, f: &[u8]) -> bool
    ensures { tested result ≡ condition_told tests (task_view task.now) (instance_by by.now) (NamedFieldTerm f.now) }
{
    is_named_field(term_bound(by, f))
}

/// Whether the terms are fields that differ by their forms or names.
pub(crate) fn fields_apart(task: &Task<'_>, by: &Chosen<'_, '_>, f: &[u8], e: &[u8]) -> bool
    ensures { tested result ≡ condition_told tests (task_view task.now) (instance_by by.now) (FieldsApart f.now e.now) }
{
    are_apart(term_bound(by, f), term_bound(by, e))
}

// Whether it is 0 or more.
fn is_from_zero(z: i128) -> bool
    ensures { result ≡ int_le (pos 0) z }
{
    0 <= z
}

/// Whether the number is 0 or more.
pub(crate) fn at_least_zero(task: &Task<'_>, by: &Chosen<'_, '_>, m: &[u8]) -> bool
    ensures { tested result ≡ condition_told tests (task_view task.now) (instance_by by.now) (AtLeastZero m.now) }
{
    is_from_zero(literal_bound(by, m))
}

/// Whether the term has the sort.
pub(crate) fn has_sort(task: &Task<'_>, by: &Chosen<'_, '_>, t: &[u8], s: &SSort) -> bool
    ensures { tested result ≡ condition_told tests (task_view task.now) (instance_by by.now) (TermHasSort t.now (sort_pattern s.now)) }
{
    is_sort(lent_sort(term_bound(by, t)), sort_meant(task, s, by))
}

/// Whether the first kind is the second or stands below it.
pub(crate) fn kind_below(task: &Task<'_>, by: &Chosen<'_, '_>, d: &[u8], c: &[u8]) -> bool
    ensures { tested result ≡ condition_told tests (task_view task.now) (instance_by by.now) (KindBelow d.now c.now) }
{
    is_below(task, kind_bound(by, d), kind_bound(by, c))
}

/// Whether the kinds differ.
pub(crate) fn kinds_differ(task: &Task<'_>, by: &Chosen<'_, '_>, d: &[u8], c: &[u8]) -> bool
    ensures { tested result ≡ condition_told tests (task_view task.now) (instance_by by.now) (KindsDiffer d.now c.now) }
{
    !is_kind(kind_bound(by, d), kind_bound(by, c))
}

// Whether there is a field, and its sort is this one.
fn takes(task: &Task<'_>, field: Option<FieldId>, sort: Sort) -> bool
    ensures { tested result ≡ option_map_or (λ n. tested (same_sort sort (field_sort (told_setting (task_view task.now)).program n))) (option_map field_number field) Fails }
{
    match field {
        Some(field) => is_sort(sort, field_sort(task, field)),
        None => false,
    }
}

/// Whether the first term is a named field whose sort is the second's.
pub(crate) fn field_takes(task: &Task<'_>, by: &Chosen<'_, '_>, f: &[u8], s: &[u8]) -> bool
    ensures { tested result ≡ condition_told tests (task_view task.now) (instance_by by.now) (FieldTakes f.now s.now) }
{
    takes(
        task,
        field_of(term_bound(by, f)),
        lent_sort(term_bound(by, s)),
    )
}
