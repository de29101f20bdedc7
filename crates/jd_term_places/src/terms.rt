//! Terms and location sets with another term at the end of a path.

ghost use Rattle.std.specs.Prelude.{cond};
ghost use Rattle.jd_taclet_steps.specs.PutTerms.{put_loc, put_term};
ghost use Rattle.jd_term.specs.Makers.{GivesLoc, GivesTerm};
ghost use Rattle.jd_term.specs.TermViews.{loc_view, term_view};

use jd_base::NoMemory;
use jd_term::{
    Loc, Term, anon, arithmetic, create, element_range, select, single, store, sum, union,
    with_object, with_one,
};
use std::alloc::Global;

// A copy of a part, with the term where the path goes on here.
#[cycle(put_term)]
pub(crate) fn term_part(
    alloc: Global,
    here: bool,
    path: &[u32],
    new: &Term,
    a: &Term,
) -> Result<Term, NoMemory>
    ensures { GivesTerm result (cond here (put_term path.now (term_view new.now) (term_view a.now)) (term_view a.now)) }
{
    if here {
        put_term(alloc, path, new, a)
    } else {
        a.copy(alloc)
    }
}

#[cycle(put_term)]
pub(crate) fn loc_part(
    alloc: Global,
    here: bool,
    path: &[u32],
    new: &Term,
    l: &Loc,
) -> Result<Loc, NoMemory>
    ensures { GivesLoc result (cond here (put_loc path.now (term_view new.now) (loc_view l.now)) (loc_view l.now)) }
{
    if here {
        put_loc(alloc, path, new, l)
    } else {
        l.copy(alloc)
    }
}

// The term with another one at the end of a path.
#[cycle(put_term)]
fn put_term(alloc: Global, path: &[u32], new: &Term, old: &Term) -> Result<Term, NoMemory>
    ensures { GivesTerm result (put_term path.now (term_view new.now) (term_view old.now)) }
{
    let Some((number, rest)) = path.split_first() else {
        return new.copy(alloc);
    };
    let k = *number;
    match old {
        Term::Number(_)
        | Term::Boolean(_)
        | Term::NullTerm
        | Term::ProgramVariable(_)
        | Term::Constant(_)
        | Term::Bound(_, _)
        | Term::NamedField(_)
        | Term::CreatedField => old.copy(alloc),
        Term::Negation(a) | Term::Wrap(a) | Term::Length(a) | Term::ElementField(a) => with_one(
            alloc,
            old,
            term_part(alloc, k == 1, rest, new, a),
        ),
        Term::Arithmetic(op, a, b) => arithmetic(
            alloc,
            *op,
            term_part(alloc, k == 1, rest, new, a),
            term_part(alloc, k == 2, rest, new, b),
        ),
        Term::Create(a, b) => create(
            alloc,
            term_part(alloc, k == 1, rest, new, a),
            term_part(alloc, k == 2, rest, new, b),
        ),
        Term::Select(s, a, b, c) => select(
            alloc,
            *s,
            term_part(alloc, k == 1, rest, new, a),
            term_part(alloc, k == 2, rest, new, b),
            term_part(alloc, k == 3, rest, new, c),
        ),
        Term::Sum(a, b, c) => sum(
            alloc,
            term_part(alloc, k == 1, rest, new, a),
            term_part(alloc, k == 2, rest, new, b),
            term_part(alloc, k == 3, rest, new, c),
        ),
        Term::Store(a, b, c, d) => store(
            alloc,
            term_part(alloc, k == 1, rest, new, a),
            term_part(alloc, k == 2, rest, new, b),
            term_part(alloc, k == 3, rest, new, c),
            term_part(alloc, k == 4, rest, new, d),
        ),
        Term::Anon(a, l, b) => anon(
            alloc,
            term_part(alloc, k == 1, rest, new, a),
            loc_part(alloc, k == 2, rest, new, l),
            term_part(alloc, k == 3, rest, new, b),
        ),
    }
}

// The location set with another term at the end of a path; one has a path of no number only as a part.
#[cycle(put_term)]
fn put_loc(alloc: Global, path: &[u32], new: &Term, old: &Loc) -> Result<Loc, NoMemory>
    ensures { GivesLoc result (put_loc path.now (term_view new.now) (loc_view old.now)) }
{
    let Some((number, rest)) = path.split_first() else {
        return old.copy(alloc);
    };
    let k = *number;
    match old {
        Loc::NoLocations | Loc::AllLocations => old.copy(alloc),
        Loc::ObjectFields(a) | Loc::ArrayElements(a) => with_object(
            alloc,
            old,
            term_part(alloc, k == 1, rest, new, a),
        ),
        Loc::Single(a, b) => single(
            alloc,
            term_part(alloc, k == 1, rest, new, a),
            term_part(alloc, k == 2, rest, new, b),
        ),
        Loc::ElementRange(a, b, c) => element_range(
            alloc,
            term_part(alloc, k == 1, rest, new, a),
            term_part(alloc, k == 2, rest, new, b),
            term_part(alloc, k == 3, rest, new, c),
        ),
        Loc::Union(l, m) => union(
            alloc,
            loc_part(alloc, k == 1, rest, new, l),
            loc_part(alloc, k == 2, rest, new, m),
        ),
    }
}
