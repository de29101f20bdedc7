//! Patterns of terms and location sets against trees.

ghost use Rattle.std.specs.Prelude.{◌≡◌, IfOk};
ghost use Rattle.jd_term.specs.TermViews.{loc_view, term_view};
ghost use Rattle.jd_patterns.specs.Matching.{match_loc, match_term};
ghost use Rattle.jd_schema_trees.specs.TermViews.{loc_pattern, term_pattern};
ghost use Rattle.jd_schema_matching.specs.Bound.{answered};
ghost use Rattle.jd_schema_matching.specs.PartViews.{bindings};
ghost use Rattle.jd_schema_matching.specs.Tested.{tests};

use crate::found::{Found, bind};
use crate::heads::match_sort;
use crate::parts::PartRef;
use crate::tests::{is_given, same_operation, same_sort};
use jd_base::NoMemory;
use jd_schema_trees::{SLoc, STerm};
use jd_term::{Loc, Term, sort_of};

/// Whether the pattern can stand for the term, with what was found.
#[cycle(match_term)]
pub fn match_term<'t>(p: &'t STerm, t: &'t Term, found: &mut Found<'t>) -> Result<bool, NoMemory>
    ensures { IfOk result (λ b. answered b (bindings found.new) ≡ match_term tests (term_pattern p.now) (term_view t.now) (bindings found.old)) }
{
    match p {
        STerm::Any(n) => bind(n, PartRef::Term(t), found),
        STerm::OfSort(s, n) => Ok(same_sort(sort_of(t), *s) && bind(n, PartRef::Term(t), found)?),
        STerm::Literal(n) => match t {
            Term::Number(z) => bind(n, PartRef::Literal(*z), found),
            _ => Ok(false),
        },
        STerm::Field(n) => match t {
            Term::NamedField(f) => bind(n, PartRef::Field(*f), found),
            _ => Ok(false),
        },
        STerm::Put(_, _)
        | STerm::Lifted(_)
        | STerm::OfSimple(_)
        | STerm::ProgramVariable(_)
        | STerm::Constant(_) => Ok(false),
        STerm::Number(z) => Ok(is_given(Term::Number(*z), t)),
        STerm::Boolean(b) => Ok(is_given(Term::Boolean(*b), t)),
        STerm::NullTerm => Ok(is_given(Term::NullTerm, t)),
        STerm::Bound(k, s) => Ok(is_given(Term::Bound(*k, *s), t)),
        STerm::CreatedField => Ok(is_given(Term::CreatedField, t)),
        STerm::Negation(p) => match t {
            Term::Negation(a) => match_term(p, a, found),
            _ => Ok(false),
        },
        STerm::Wrap(p) => match t {
            Term::Wrap(a) => match_term(p, a, found),
            _ => Ok(false),
        },
        STerm::Length(p) => match t {
            Term::Length(a) => match_term(p, a, found),
            _ => Ok(false),
        },
        STerm::ElementField(p) => match t {
            Term::ElementField(a) => match_term(p, a, found),
            _ => Ok(false),
        },
        STerm::Arithmetic(op, p, q) => match t {
            Term::Arithmetic(o, a, b) => Ok(
                same_operation(*op, *o) && match_term(p, a, found)? && match_term(q, b, found)?,
            ),
            _ => Ok(false),
        },
        STerm::Select(s, p, q, r) => match t {
            Term::Select(k, a, b, c) => Ok(
                match_sort(s, *k, found)?
                    && match_term(p, a, found)?
                    && match_term(q, b, found)?
                    && match_term(r, c, found)?,
            ),
            _ => Ok(false),
        },
        STerm::Sum(p, q, r) => match t {
            Term::Sum(a, b, c) => Ok(
                match_term(p, a, found)? && match_term(q, b, found)? && match_term(r, c, found)?,
            ),
            _ => Ok(false),
        },
        STerm::Store(p, q, r, s) => match t {
            Term::Store(a, b, c, d) => Ok(
                match_term(p, a, found)?
                    && match_term(q, b, found)?
                    && match_term(r, c, found)?
                    && match_term(s, d, found)?,
            ),
            _ => Ok(false),
        },
        STerm::Create(p, q) => match t {
            Term::Create(a, b) => Ok(match_term(p, a, found)? && match_term(q, b, found)?),
            _ => Ok(false),
        },
        STerm::Anon(p, l, q) => match t {
            Term::Anon(a, m, b) => Ok(
                match_term(p, a, found)? && match_loc(l, m, found)? && match_term(q, b, found)?,
            ),
            _ => Ok(false),
        },
    }
}

/// Whether the pattern can stand for the locations, with what was found.
#[cycle(match_term)]
pub fn match_loc<'t>(p: &'t SLoc, l: &'t Loc, found: &mut Found<'t>) -> Result<bool, NoMemory>
    ensures { IfOk result (λ b. answered b (bindings found.new) ≡ match_loc tests (loc_pattern p.now) (loc_view l.now) (bindings found.old)) }
{
    match p {
        SLoc::Any(n) => bind(n, PartRef::Locations(l), found),
        SLoc::Lifted(_) => Ok(false),
        SLoc::NoLocations => match l {
            Loc::NoLocations => Ok(true),
            _ => Ok(false),
        },
        SLoc::AllLocations => match l {
            Loc::AllLocations => Ok(true),
            _ => Ok(false),
        },
        SLoc::Single(p, q) => match l {
            Loc::Single(a, b) => Ok(match_term(p, a, found)? && match_term(q, b, found)?),
            _ => Ok(false),
        },
        SLoc::ObjectFields(p) => match l {
            Loc::ObjectFields(a) => match_term(p, a, found),
            _ => Ok(false),
        },
        SLoc::ArrayElements(p) => match l {
            Loc::ArrayElements(a) => match_term(p, a, found),
            _ => Ok(false),
        },
        SLoc::ElementRange(p, q, r) => match l {
            Loc::ElementRange(a, b, c) => Ok(
                match_term(p, a, found)? && match_term(q, b, found)? && match_term(r, c, found)?,
            ),
            _ => Ok(false),
        },
        SLoc::Union(k, j) => match l {
            Loc::Union(a, b) => Ok(match_loc(k, a, found)? && match_loc(j, b, found)?),
            _ => Ok(false),
        },
    }
}
