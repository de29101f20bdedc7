//! Terms and location sets, read from bracketed expressions.

ghost use Rattle.std.specs.Prelude.{◌∷◌, Some, map};
ghost use Rattle.jd_base.specs.declared.sort.Sort.TheVariants.{Int as IntSort};
ghost use Rattle.jd_syntax.specs.Sxs.{bracketed_list, sx_view};
ghost use Rattle.jd_term.specs.TermViews.{loc_view, term_view};
ghost use Rattle.jd_tforms.specs.Reading as plain;
ghost use Rattle.jd_tcode.specs.Behind.{rest_of};
ghost use Rattle.jd_tread.specs.TermMakers.{boxed_loc_view, boxed_term_view};
ghost use Rattle.jd_tcode.specs.Pairing.{Gives};

use crate::made_terms::{
    Inside, anon, arithmetic, boxed, boxed_set, create, one_loc, one_term, range, select, single,
    store, sum, union,
};
use jd_base::Sort;
use jd_syntax::Sx;
use jd_tcode::{Part, Reader, first_word, under};
use jd_term::{Loc, Term};
use jd_tforms::{LocHead, TermHead};
use jd_twords::{NameMeanings, loc_head, term_head, word_loc, word_term};

// A term that is a part.
#[cycle(read_term)]
fn read_boxed<N: NameMeanings>(at: &Reader<'_, N>, x: &Sx) -> Inside
    ensures { Gives boxed_term_view result ((plain.read (N.table at.now.names.now) (sx_view x.now)).term at.now.binders.now) }
{
    boxed(at.alloc, read_term(at, x))
}

// A part under one more binder, of an integer.
#[cycle(read_term)]
fn read_summand<N: NameMeanings>(at: &Reader<'_, N>, x: &Sx) -> Inside
    ensures { Gives boxed_term_view result ((plain.read (N.table at.now.names.now) (sx_view x.now)).term (IntSort ∷ at.now.binders.now)) }
{
    let inner = under(at.alloc, Sort::Int, at.binders)?;
    let inside = Reader {
        alloc: at.alloc,
        names: at.names,
        binders: inner.as_slice(),
    };
    read_boxed(&inside, x)
}

// Reading from a heap at a sort.
#[cycle(read_term)]
#[tactic(auto, using(jd_tcode::proofs::Counts::counts))]
fn read_select<N: NameMeanings>(at: &Reader<'_, N>, sort: Sort, parts: &[Sx]) -> Part<Term>
    ensures { Gives term_view result (plain.term_of (N.table at.now.names.now) at.now.binders.now (Some (TermHead.Select sort)) (rest_of (plain.reads (N.table at.now.names.now) (bracketed_list (map sx_view parts.now))))) }
{
    match sort {
        Sort::Heap | Sort::Field => return Ok(None),
        Sort::Int | Sort::Bool | Sort::Ref => {}
    }
    match parts {
        [_, a, b, c] => select(
            sort,
            read_boxed(at, a),
            read_boxed(at, b),
            read_boxed(at, c),
        ),
        _ => Ok(None),
    }
}

// What stands behind the head of a term.
#[cycle(read_term)]
#[tactic(auto, using(jd_tcode::proofs::Counts::counts))]
fn term_behind<N: NameMeanings>(at: &Reader<'_, N>, head: TermHead, parts: &[Sx]) -> Part<Term>
    ensures { Gives term_view result (plain.term_of (N.table at.now.names.now) at.now.binders.now (Some head) (rest_of (plain.reads (N.table at.now.names.now) (bracketed_list (map sx_view parts.now))))) }
{
    match head {
        TermHead::Negation | TermHead::Wrap | TermHead::Length | TermHead::Element => match parts {
            [_, a] => one_term(head, read_boxed(at, a)),
            _ => Ok(None),
        },
        TermHead::Arithmetic(operation) => match parts {
            [_, a, b] => arithmetic(operation, read_boxed(at, a), read_boxed(at, b)),
            _ => Ok(None),
        },
        TermHead::Create => match parts {
            [_, a, b] => create(read_boxed(at, a), read_boxed(at, b)),
            _ => Ok(None),
        },
        TermHead::Select(sort) => read_select(at, sort, parts),
        TermHead::Sum => {
            if parts.len() != 4 {
                return Ok(None);
            }
            let [_, a, b, c] = parts else { return Ok(None) };
            sum(read_boxed(at, a), read_boxed(at, b), read_summand(at, c))
        }
        TermHead::Store => {
            if parts.len() != 5 {
                return Ok(None);
            }
            let [_, a, b, c, d] = parts else {
                return Ok(None)
            };
            let (a, b) = (read_boxed(at, a), read_boxed(at, b));
            store(a, b, read_boxed(at, c), read_boxed(at, d))
        }
        TermHead::Anon => {
            if parts.len() != 4 {
                return Ok(None);
            }
            let [_, a, l, b] = parts else { return Ok(None) };
            anon(read_boxed(at, a), read_set(at, l), read_boxed(at, b))
        }
    }
}

/// A term, whatever sorts its parts have; `None` where it has no form or a name in it stands for nothing.
#[cycle(read_term)]
pub fn read_term<N: NameMeanings>(at: &Reader<'_, N>, x: &Sx) -> Part<Term>
    ensures { Gives term_view result ((plain.read (N.table at.now.names.now) (sx_view x.now)).term at.now.binders.now) }
{
    match x {
        Sx::Atom(word) => word_term(at.alloc, at.names, at.binders, word),
        Sx::List(parts) => match first_word(parts) {
            None => Ok(None),
            Some(word) => match term_head(word) {
                None => Ok(None),
                Some(head) => term_behind(at, head, parts),
            },
        },
    }
}

// A location set that is a part.
#[cycle(read_term)]
fn read_set<N: NameMeanings>(at: &Reader<'_, N>, x: &Sx) -> Part<Box<Loc>>
    ensures { Gives boxed_loc_view result ((plain.read (N.table at.now.names.now) (sx_view x.now)).loc at.now.binders.now) }
{
    boxed_set(at.alloc, read_loc(at, x))
}

// What stands behind the head of a location set.
#[cycle(read_term)]
#[tactic(auto, using(jd_tcode::proofs::Counts::counts))]
fn loc_behind<N: NameMeanings>(at: &Reader<'_, N>, head: LocHead, parts: &[Sx]) -> Part<Loc>
    ensures { Gives loc_view result (plain.loc_of (N.table at.now.names.now) at.now.binders.now (Some head) (rest_of (plain.reads (N.table at.now.names.now) (bracketed_list (map sx_view parts.now))))) }
{
    match head {
        LocHead::Object | LocHead::Elements => match parts {
            [_, a] => one_loc(head, read_boxed(at, a)),
            _ => Ok(None),
        },
        LocHead::Single => match parts {
            [_, a, b] => single(read_boxed(at, a), read_boxed(at, b)),
            _ => Ok(None),
        },
        LocHead::Range => match parts {
            [_, a, b, c] => range(read_boxed(at, a), read_boxed(at, b), read_boxed(at, c)),
            _ => Ok(None),
        },
        LocHead::Union => match parts {
            [_, l, m] => union(read_set(at, l), read_set(at, m)),
            _ => Ok(None),
        },
    }
}

/// A location set in the same way.
#[cycle(read_term)]
pub fn read_loc<N: NameMeanings>(at: &Reader<'_, N>, x: &Sx) -> Part<Loc>
    ensures { Gives loc_view result ((plain.read (N.table at.now.names.now) (sx_view x.now)).loc at.now.binders.now) }
{
    match x {
        Sx::Atom(word) => Ok(word_loc(word)),
        Sx::List(parts) => match first_word(parts) {
            None => Ok(None),
            Some(word) => match loc_head(word) {
                None => Ok(None),
                Some(head) => loc_behind(at, head, parts),
            },
        },
    }
}
