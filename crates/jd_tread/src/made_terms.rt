//! Terms and location sets, made of what was read of their parts.

ghost use Rattle.std.specs.Prelude.{Option, option_map};
ghost use Rattle.jd_term.specs.TermViews.{loc_view, term_view};
ghost use Rattle.jd_term.specs.Terms as terms;
ghost use Rattle.jd_term.specs.Terms.{PlainLoc, PlainTerm};
ghost use Rattle.jd_tforms.specs.Reading as plain;
ghost use Rattle.jd_tread.specs.TermMakers as makers;
ghost use Rattle.jd_tread.specs.TermMakers.{boxed_loc_view, boxed_term_view};
ghost use Rattle.jd_tcode.specs.Pairing.{Gives};

use jd_base::Sort;
use jd_tcode::{Part, both_there, four_there, three_there};
use jd_term::{ArithmeticOp, Loc, Term, boxed_loc, boxed_term};
use jd_tforms::{LocHead, TermHead};
use std::alloc::Global;

/// A term that is a part.
pub(crate) type Inside = Part<Box<Term>>;

pub(crate) fn boxed(alloc: Global, part: Part<Term>) -> Inside
    ensures { (p : Option PlainTerm) → Gives term_view part p → Gives boxed_term_view result p }
{
    match part? {
        None => Ok(None),
        Some(term) => Ok(Some(boxed_term(alloc, term)?)),
    }
}

pub(crate) fn boxed_set(alloc: Global, part: Part<Loc>) -> Part<Box<Loc>>
    ensures { (p : Option PlainLoc) → Gives loc_view part p → Gives boxed_loc_view result p }
{
    match part? {
        None => Ok(None),
        Some(loc) => Ok(Some(boxed_loc(alloc, loc)?)),
    }
}

// `(neg a)` and the like; of a head that has not one part, `(idx a)`.
pub(crate) fn one_term(head: TermHead, a: Inside) -> Part<Term>
    ensures { (p : Option PlainTerm) → Gives boxed_term_view a p → Gives term_view result (option_map (makers.one_term head) p) }
{
    match a? {
        None => Ok(None),
        Some(a) => match head {
            TermHead::Negation => Ok(Some(Term::Negation(a))),
            TermHead::Wrap => Ok(Some(Term::Wrap(a))),
            TermHead::Length => Ok(Some(Term::Length(a))),
            _ => Ok(Some(Term::ElementField(a))),
        },
    }
}

// `(add a b)` and the like.
pub(crate) fn arithmetic(operation: ArithmeticOp, a: Inside, b: Inside) -> Part<Term>
    ensures { (p : Option PlainTerm) (q : Option PlainTerm) → Gives boxed_term_view a p → Gives boxed_term_view b q → Gives term_view result (plain.both (terms.Arithmetic operation) p q) }
{
    match both_there(a, b)? {
        None => Ok(None),
        Some((a, b)) => Ok(Some(Term::Arithmetic(operation, a, b))),
    }
}

// `(create a b)`
pub(crate) fn create(a: Inside, b: Inside) -> Part<Term>
    ensures { (p : Option PlainTerm) (q : Option PlainTerm) → Gives boxed_term_view a p → Gives boxed_term_view b q → Gives term_view result (plain.both terms.Create p q) }
{
    match both_there(a, b)? {
        None => Ok(None),
        Some((a, b)) => Ok(Some(Term::Create(a, b))),
    }
}

// `(selI a b c)` and the like.
pub(crate) fn select(sort: Sort, a: Inside, b: Inside, c: Inside) -> Part<Term>
    ensures { (p : Option PlainTerm) (q : Option PlainTerm) (r : Option PlainTerm) → Gives boxed_term_view a p → Gives boxed_term_view b q → Gives boxed_term_view c r → Gives term_view result (plain.three (terms.Select sort) p q r) }
{
    match three_there(a, b, c)? {
        None => Ok(None),
        Some((a, b, c)) => Ok(Some(Term::Select(sort, a, b, c))),
    }
}

// `(bsum a b c)`
pub(crate) fn sum(a: Inside, b: Inside, c: Inside) -> Part<Term>
    ensures { (p : Option PlainTerm) (q : Option PlainTerm) (r : Option PlainTerm) → Gives boxed_term_view a p → Gives boxed_term_view b q → Gives boxed_term_view c r → Gives term_view result (plain.three terms.Sum p q r) }
{
    match three_there(a, b, c)? {
        None => Ok(None),
        Some((a, b, c)) => Ok(Some(Term::Sum(a, b, c))),
    }
}

// `(store a b c d)`
pub(crate) fn store(a: Inside, b: Inside, c: Inside, d: Inside) -> Part<Term>
    ensures { (p : Option PlainTerm) (q : Option PlainTerm) (r : Option PlainTerm) (s : Option PlainTerm) → Gives boxed_term_view a p → Gives boxed_term_view b q → Gives boxed_term_view c r → Gives boxed_term_view d s → Gives term_view result (plain.four terms.Store p q r s) }
{
    match four_there(a, b, c, d)? {
        None => Ok(None),
        Some((a, b, c, d)) => Ok(Some(Term::Store(a, b, c, d))),
    }
}

// `(anon a l b)`
pub(crate) fn anon(a: Inside, l: Part<Box<Loc>>, b: Inside) -> Part<Term>
    ensures { (p : Option PlainTerm) (q : Option PlainLoc) (r : Option PlainTerm) → Gives boxed_term_view a p → Gives boxed_loc_view l q → Gives boxed_term_view b r → Gives term_view result (plain.three terms.Anon p q r) }
{
    match three_there(a, l, b)? {
        None => Ok(None),
        Some((a, l, b)) => Ok(Some(Term::Anon(a, l, b))),
    }
}

// `(obj a)`; of another head, `(arrall a)`.
pub(crate) fn one_loc(head: LocHead, a: Inside) -> Part<Loc>
    ensures { (p : Option PlainTerm) → Gives boxed_term_view a p → Gives loc_view result (option_map (makers.one_loc head) p) }
{
    match a? {
        None => Ok(None),
        Some(a) => match head {
            LocHead::Object => Ok(Some(Loc::ObjectFields(a))),
            _ => Ok(Some(Loc::ArrayElements(a))),
        },
    }
}

// `(loc a b)`
pub(crate) fn single(a: Inside, b: Inside) -> Part<Loc>
    ensures { (p : Option PlainTerm) (q : Option PlainTerm) → Gives boxed_term_view a p → Gives boxed_term_view b q → Gives loc_view result (plain.both terms.Single p q) }
{
    match both_there(a, b)? {
        None => Ok(None),
        Some((a, b)) => Ok(Some(Loc::Single(a, b))),
    }
}

// `(arr a b c)`
pub(crate) fn range(a: Inside, b: Inside, c: Inside) -> Part<Loc>
    ensures { (p : Option PlainTerm) (q : Option PlainTerm) (r : Option PlainTerm) → Gives boxed_term_view a p → Gives boxed_term_view b q → Gives boxed_term_view c r → Gives loc_view result (plain.three terms.ElementRange p q r) }
{
    match three_there(a, b, c)? {
        None => Ok(None),
        Some((a, b, c)) => Ok(Some(Loc::ElementRange(a, b, c))),
    }
}

// `(union l m)`
pub(crate) fn union(l: Part<Box<Loc>>, m: Part<Box<Loc>>) -> Part<Loc>
    ensures { (p : Option PlainLoc) (q : Option PlainLoc) → Gives boxed_loc_view l p → Gives boxed_loc_view m q → Gives loc_view result (plain.both terms.Union p q) }
{
    match both_there(l, m)? {
        None => Ok(None),
        Some((l, m)) => Ok(Some(Loc::Union(l, m))),
    }
}
