//! Whether the parts of terms and location sets have the sorts that their places ask for.

ghost use Rattle.std.specs.Prelude.{◌≡◌};
ghost use Rattle.jd_syntax.specs.CodeNames as names;
ghost use Rattle.jd_term.specs.TermViews.{loc_view, term_view};
ghost use Rattle.jd_tforms.specs.Answers as answers;
ghost use Rattle.jd_tforms.specs.Sorted as plain;

use jd_base::Sort;
use jd_term::{Loc, Term, sort_of};

/// Whether two sorts are one.
pub fn same_sort(a: Sort, b: Sort) -> bool
    ensures { result ≡ names.same_sort a b }
{
    match (a, b) {
        (Sort::Int, Sort::Int) => true,
        (Sort::Bool, Sort::Bool) => true,
        (Sort::Ref, Sort::Ref) => true,
        (Sort::Heap, Sort::Heap) => true,
        (Sort::Field, Sort::Field) => true,
        _ => false,
    }
}

/// Whether the term has the sort.
pub fn has_sort(sort: Sort, term: &Term) -> bool
    ensures { result ≡ plain.has_sort sort (term_view term.now) }
{
    same_sort(sort_of(term), sort)
}

/// Whether the term has the sort, and its parts those of their places.
#[cycle(is_sorted)]
pub fn is_of(sort: Sort, term: &Term) -> bool
    ensures { result ≡ answers.is_of sort (term_view term.now) }
{
    has_sort(sort, term) && is_sorted(term)
}

/// Whether the parts of the term have the sorts of their places.
#[cycle(is_sorted)]
pub fn is_sorted(term: &Term) -> bool
    ensures { result ≡ plain.term_sorted (term_view term.now) }
{
    match term {
        Term::Number(_) | Term::Boolean(_) | Term::NullTerm => true,
        Term::ProgramVariable(_) | Term::Constant(_) | Term::Bound(_, _) => true,
        Term::NamedField(_) | Term::CreatedField => true,
        Term::Arithmetic(_, a, b) => is_of(Sort::Int, a) && is_of(Sort::Int, b),
        Term::Negation(a) | Term::Wrap(a) | Term::ElementField(a) => is_of(Sort::Int, a),
        Term::Length(a) => is_of(Sort::Ref, a),
        Term::Select(_, h, o, f) => {
            is_of(Sort::Heap, h) && is_of(Sort::Ref, o) && is_of(Sort::Field, f)
        }
        Term::Sum(a, b, c) => is_of(Sort::Int, a) && is_of(Sort::Int, b) && is_of(Sort::Int, c),
        Term::Store(h, o, f, a) => {
            is_of(Sort::Heap, h) && is_of(Sort::Ref, o) && is_of(Sort::Field, f) && is_sorted(a)
        }
        Term::Create(h, o) => is_of(Sort::Heap, h) && is_of(Sort::Ref, o),
        Term::Anon(h, l, g) => is_of(Sort::Heap, h) && is_sorted_loc(l) && is_of(Sort::Heap, g),
    }
}

/// The same of a location set.
#[cycle(is_sorted)]
pub fn is_sorted_loc(loc: &Loc) -> bool
    ensures { result ≡ plain.loc_sorted (loc_view loc.now) }
{
    match loc {
        Loc::NoLocations | Loc::AllLocations => true,
        Loc::Single(o, f) => is_of(Sort::Ref, o) && is_of(Sort::Field, f),
        Loc::ObjectFields(o) | Loc::ArrayElements(o) => is_of(Sort::Ref, o),
        Loc::ElementRange(o, a, b) => {
            is_of(Sort::Ref, o) && is_of(Sort::Int, a) && is_of(Sort::Int, b)
        }
        Loc::Union(l, m) => is_sorted_loc(l) && is_sorted_loc(m),
    }
}
