//! Whether the parts of formulas have the sorts that their places ask for.

ghost use Rattle.std.specs.Prelude.{◌≡◌, ◌&&◌, map};
ghost use Rattle.jd_term.specs.Formulas.{formula_view, pair_view};
ghost use Rattle.jd_tforms.specs.Sorted as plain;

use crate::code::is_sorted_code;
use crate::names::NameSorts;
use crate::returns::Returns;
use crate::terms::{has_sort, is_sorted, is_sorted_loc, same_sort};
use jd_base::Sort;
use jd_term::{Elementary, Formula, sort_of};

// Whether the right side of a pair has the sort of the variable on the left.
fn is_sorted_pair(pair: &Elementary) -> bool
    ensures { result ≡ (plain.has_sort (pair_view pair.now).0.sort (pair_view pair.now).1 && plain.term_sorted (pair_view pair.now).1) }
{
    has_sort(pair.variable.sort, &pair.value) && is_sorted(&pair.value)
}

// The same of all pairs of an update.
#[tactic(auto, using(jd_syntax::proofs::Lists::rest))]
fn are_sorted_pairs<N: NameSorts>(names: &N, pairs: &[Elementary]) -> bool
    ensures { result ≡ plain.pairs_sorted (N.table names.now) (map pair_view pairs.now) }
{
    for pair in pairs {
        if !is_sorted_pair(pair) {
            return false;
        }
    }
    true
}

/// Whether the parts of the formula have the sorts of their places.
pub fn is_sorted_formula<N: NameSorts>(names: &N, formula: &Formula) -> bool
    ensures { result ≡ plain.formula_sorted (N.table names.now) (formula_view formula.now) }
{
    match formula {
        Formula::TrueFormula | Formula::FalseFormula => true,
        Formula::Not(a) | Formula::Forall(_, a) | Formula::Exists(_, a) => {
            is_sorted_formula(names, a)
        }
        Formula::And(a, b) | Formula::Or(a, b) | Formula::Implies(a, b) | Formula::Iff(a, b) =>
            is_sorted_formula(names, a) && is_sorted_formula(names, b),
        Formula::Equal(t, u) => same_sort(sort_of(t), sort_of(u)) && is_sorted(t) && is_sorted(u),
        Formula::Less(t, u) | Formula::LessOrEqual(t, u) => has_sort(Sort::Int, t)
            && has_sort(Sort::Int, u)
            && is_sorted(t)
            && is_sorted(u),
        Formula::Updated(update, a) => are_sorted_pairs(names, &update.pairs)
            && is_sorted_formula(names, a),
        Formula::Modal(_, code, a) => is_sorted_code(names, Returns::Free, code)
            && is_sorted_formula(names, a),
        Formula::InLocations(o, f, l) => has_sort(Sort::Ref, o)
            && has_sort(Sort::Field, f)
            && is_sorted(o)
            && is_sorted(f)
            && is_sorted_loc(l),
        Formula::InInt(t) => has_sort(Sort::Int, t) && is_sorted(t),
        Formula::WellFormed(h) => has_sort(Sort::Heap, h) && is_sorted(h),
        Formula::Invariant(h, o) => has_sort(Sort::Heap, h)
            && has_sort(Sort::Ref, o)
            && is_sorted(h)
            && is_sorted(o),
        Formula::IsInstance(_, o) | Formula::IsExactInstance(_, o) => has_sort(Sort::Ref, o)
            && is_sorted(o),
    }
}
