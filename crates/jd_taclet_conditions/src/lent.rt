//! What variables stand for, lent.

ghost use Rattle.std.specs.Prelude.{◌≡◌, option_map};
ghost use Rattle.jd_patterns.specs.Chosen.{as_formula, as_name, as_term};
ghost use Rattle.jd_patterns.specs.Instances.{of_sort};
ghost use Rattle.jd_schema_instances.specs.Choosing.{instance_by};
ghost use Rattle.jd_schema_matching.specs.PartViews.{part_view};
ghost use Rattle.jd_schema_trees.specs.HeadViews.{sort_pattern};
ghost use Rattle.jd_sequent.specs.Obligations.{task_view};
ghost use Rattle.jd_syntax.specs.CodeViews.{kind_view};
ghost use Rattle.jd_term.specs.Formulas.{formula_view};
ghost use Rattle.jd_term.specs.TermViews.{term_view};
ghost use Rattle.jd_term.specs.Terms.{sort_of_term};
ghost use Rattle.jd_told_programs.specs.Told.{told_setting};
ghost use Rattle.jd_told_tables.specs.Lent.{formula_or, term_or};

use jd_base::{FieldId, Sort};
use jd_schema_instances::{Chosen, PartKind, as_field, as_kind, as_literal, as_sort, bound_to};
use jd_schema_matching::PartRef;
use jd_schema_trees::SSort;
use jd_sequent::Task;
use jd_syntax::Kind;
use jd_term::{Formula, Term, sort_of};

fn as_lent_term<'t>(x: Option<PartRef<'t>>) -> Option<&'t Term>
    ensures { term_or (option_map (λ t. term_view t.now) result) ≡ as_term (option_map part_view x.entry) }
{
    match x {
        Some(PartRef::Term(t)) => Some(t),
        _ => None,
    }
}

/// The term that the variable stands for; nothing stands for `null`.
pub(crate) fn term_bound<'t>(by: &Chosen<'_, 't>, n: &[u8]) -> Option<&'t Term>
    ensures { term_or (option_map (λ t. term_view t.now) result) ≡ (instance_by by.now).term n.now }
{
    as_lent_term(bound_to(by, PartKind::Term, n))
}

fn as_lent_formula<'t>(x: Option<PartRef<'t>>) -> Option<&'t Formula>
    ensures { formula_or (option_map (λ a. formula_view a.now) result) ≡ as_formula (option_map part_view x.entry) }
{
    match x {
        Some(PartRef::Formula(a)) => Some(a),
        _ => None,
    }
}

/// The formula that the variable stands for; nothing stands for `true`.
pub(crate) fn formula_bound<'t>(by: &Chosen<'_, 't>, n: &[u8]) -> Option<&'t Formula>
    ensures { formula_or (option_map (λ a. formula_view a.now) result) ≡ (instance_by by.now).formula n.now }
{
    as_lent_formula(bound_to(by, PartKind::Formula, n))
}

/// The number that the variable stands for.
pub(crate) fn literal_bound(by: &Chosen<'_, '_>, n: &[u8]) -> i128
    ensures { result ≡ (instance_by by.now).literal n.now }
{
    as_literal(bound_to(by, PartKind::Literal, n))
}

/// The class, or `int[]`, that the variable stands for.
pub(crate) fn kind_bound(by: &Chosen<'_, '_>, n: &[u8]) -> Kind
    ensures { kind_view result ≡ (instance_by by.now).kind n.now }
{
    as_kind(bound_to(by, PartKind::Kind, n))
}

/// The field that the variable stands for.
pub(crate) fn field_bound(by: &Chosen<'_, '_>, n: &[u8]) -> FieldId
    ensures { result.0 ≡ (instance_by by.now).field n.now }
{
    as_field(bound_to(by, PartKind::Field, n))
}

fn name_sort(x: Option<PartRef<'_>>) -> Sort
    ensures { result ≡ (as_name (option_map part_view x.entry)).sort }
{
    match x {
        Some(PartRef::Name(v)) => v.sort,
        _ => Sort::Heap,
    }
}

/// The sort of the program variable that the variable stands for.
pub(crate) fn sort_of_name(by: &Chosen<'_, '_>, n: &[u8]) -> Sort
    ensures { result ≡ ((instance_by by.now).name n.now).sort }
{
    name_sort(bound_to(by, PartKind::Name, n))
}

/// The sort that the pattern means, in the task's program.
pub(crate) fn sort_meant(task: &Task<'_>, s: &SSort, by: &Chosen<'_, '_>) -> Sort
    ensures { result ≡ of_sort (told_setting (task_view task.now)).program (instance_by by.now) (sort_pattern s.now) }
{
    match s {
        SSort::Variable(n) => as_sort(bound_to(by, PartKind::Sort, n)),
        SSort::Given(s) => *s,
    }
}

/// The term's sort.
pub(crate) fn lent_sort(t: Option<&Term>) -> Sort
    ensures { result ≡ sort_of_term (term_or (option_map (λ t. term_view t.now) t.entry)) }
{
    match t {
        Some(t) => sort_of(t),
        None => Sort::Ref,
    }
}
