//! Trees with other leaves: one recursion for copies, shifts, substitutions and renamings.

ghost use Rattle.jd_term.specs.Makers.{GivesBoxedFormula, GivesBoxedLoc, GivesBoxedTerm, GivesFormula, GivesLoc, GivesTerm, GivesUpdate, IsLeaf, with_term, with_terms};
ghost use Rattle.jd_term.specs.Formulas.{InLocations, formula_view, pair_view};
ghost use Rattle.jd_term.specs.Maps.{EachLeaf, EachLeafOfFormula, EachLeafOfLoc, EachLeafOfPairs, LeafMap, map_formula, map_loc, map_pairs, map_term};
ghost use Rattle.jd_term.specs.Terms.{PlainTerm};
ghost use Rattle.jd_term.specs.TermViews.{loc_view, term_view};
ghost use Rattle.std.specs.Prelude.{◌≡◌, ◌+◌, ℕ, IfOk, map};

use crate::boxes;
use crate::boxes::{boxed, boxed_formula, boxed_loc};
use crate::formula::{Elementary, Formula, Update};
use crate::makers::{copy_leaf, in_locations, with_term, with_terms};
use crate::term::{Loc, Term};
use jd_base::{NoMemory, both};
use std::alloc::Global;

/// What stands for the leaves of a tree: its variables, constants and indices.
///
/// A leaf is known by itself and by a number, which is the same in the whole tree or rises by one at each binder. It has 64 bits, so that no
/// tree that memory holds has as many binders above a leaf.
pub trait Leaves {
    ghost leaves: { Self → LeafMap };

    ghost Fits: { Self → ℕ → PlainTerm → Type 0 };

    /// What stands for the leaf.
    fn leaf(&self, alloc: Global, t: &Term, depth: u64) -> Result<Term, NoMemory>
        requires leaf { IsLeaf (term_view t.now) }
        requires fits { Fits self.now depth (term_view t.now) }
        ensures { GivesTerm result ((leaves self.now).leaf depth (term_view t.now)) };

    /// The number below one more binder, or `NoMemory` past 64 bits.
    fn below(&self, depth: u64) -> Result<u64, NoMemory>
        ensures { IfOk result (λ n. n ≡ (leaves self.now).below depth) };
}

/// The number one higher, or `NoMemory` past 64 bits: the number below one more binder, where binders count.
pub fn counted(depth: u64) -> Result<u64, NoMemory>
    ensures { IfOk result (λ n. n ≡ depth + 1) }
{
    depth.checked_add(1).ok_or(NoMemory)
}

// Each part stands in a box before the next is made, so that a level takes little of the stack.
#[cycle(map_term)]
#[inline(never)]
fn map_boxed<M: Leaves>(
    alloc: Global,
    m: &M,
    t: &Box<Term>,
    depth: u64,
) -> Result<Box<Term>, NoMemory>
    requires { EachLeaf (M.leaves m.now).below (M.Fits m.now) depth (term_view t.now.value) }
    ensures { GivesBoxedTerm result (map_term (M.leaves m.now) depth (term_view t.now.value)) }
{
    boxed(alloc, map_term(alloc, m, t, depth))
}

#[cycle(map_term)]
#[inline(never)]
fn map_boxed_below<M: Leaves>(
    alloc: Global,
    m: &M,
    t: &Box<Term>,
    depth: u64,
) -> Result<Box<Term>, NoMemory>
    requires { EachLeaf (M.leaves m.now).below (M.Fits m.now) ((M.leaves m.now).below depth) (term_view t.now.value) }
    ensures { GivesBoxedTerm result (map_term (M.leaves m.now) ((M.leaves m.now).below depth) (term_view t.now.value)) }
{
    let inner = m.below(depth)?;
    boxed(alloc, map_term(alloc, m, t, inner))
}

/// The term with other leaves. The error is `NoMemory` alone.
#[cycle(map_term)]
pub fn map_term<M: Leaves>(alloc: Global, m: &M, t: &Term, depth: u64) -> Result<Term, NoMemory>
    requires { EachLeaf (M.leaves m.now).below (M.Fits m.now) depth (term_view t.now) }
    ensures { GivesTerm result (map_term (M.leaves m.now) depth (term_view t.now)) }
{
    match t {
        Term::ProgramVariable(_) | Term::Constant(_) | Term::Bound(_, _) => m.leaf(alloc, t, depth),
        Term::Number(_)
        | Term::Boolean(_)
        | Term::NullTerm
        | Term::NamedField(_)
        | Term::CreatedField => copy_leaf(alloc, t),
        Term::Negation(a) | Term::Wrap(a) | Term::Length(a) | Term::ElementField(a) =>
            boxes::with_one(t, map_boxed(alloc, m, a, depth)),
        Term::Arithmetic(o, a, b) => boxes::arithmetic(
            *o,
            map_boxed(alloc, m, a, depth),
            map_boxed(alloc, m, b, depth),
        ),
        Term::Create(a, b) => boxes::create(
            map_boxed(alloc, m, a, depth),
            map_boxed(alloc, m, b, depth),
        ),
        Term::Select(s, a, b, c) => boxes::select(
            *s,
            map_boxed(alloc, m, a, depth),
            map_boxed(alloc, m, b, depth),
            map_boxed(alloc, m, c, depth),
        ),
        Term::Sum(a, b, c) => boxes::sum(
            map_boxed(alloc, m, a, depth),
            map_boxed(alloc, m, b, depth),
            map_boxed_below(alloc, m, c, depth),
        ),
        Term::Store(a, b, c, d) => boxes::store(
            map_boxed(alloc, m, a, depth),
            map_boxed(alloc, m, b, depth),
            map_boxed(alloc, m, c, depth),
            map_boxed(alloc, m, d, depth),
        ),
        Term::Anon(a, l, b) => boxes::anon(
            map_boxed(alloc, m, a, depth),
            map_boxed_loc(alloc, m, l, depth),
            map_boxed(alloc, m, b, depth),
        ),
    }
}

#[cycle(map_term)]
#[inline(never)]
fn map_boxed_loc<M: Leaves>(
    alloc: Global,
    m: &M,
    l: &Box<Loc>,
    depth: u64,
) -> Result<Box<Loc>, NoMemory>
    requires { EachLeafOfLoc (M.leaves m.now).below (M.Fits m.now) depth (loc_view l.now.value) }
    ensures { GivesBoxedLoc result (map_loc (M.leaves m.now) depth (loc_view l.now.value)) }
{
    boxed_loc(alloc, map_loc(alloc, m, l, depth))
}

/// The location set with other leaves, as by [`map_term`].
#[cycle(map_term)]
pub fn map_loc<M: Leaves>(alloc: Global, m: &M, l: &Loc, depth: u64) -> Result<Loc, NoMemory>
    requires { EachLeafOfLoc (M.leaves m.now).below (M.Fits m.now) depth (loc_view l.now) }
    ensures { GivesLoc result (map_loc (M.leaves m.now) depth (loc_view l.now)) }
{
    match l {
        Loc::NoLocations => Ok(Loc::NoLocations),
        Loc::AllLocations => Ok(Loc::AllLocations),
        Loc::ObjectFields(a) | Loc::ArrayElements(a) => boxes::with_object(
            l,
            map_boxed(alloc, m, a, depth),
        ),
        Loc::Single(a, b) => boxes::single(
            map_boxed(alloc, m, a, depth),
            map_boxed(alloc, m, b, depth),
        ),
        Loc::ElementRange(a, b, c) => boxes::element_range(
            map_boxed(alloc, m, a, depth),
            map_boxed(alloc, m, b, depth),
            map_boxed(alloc, m, c, depth),
        ),
        Loc::Union(a, b) => boxes::union(
            map_boxed_loc(alloc, m, a, depth),
            map_boxed_loc(alloc, m, b, depth),
        ),
    }
}

/// The pairs of an update with other leaves in their terms, as by [`map_term`]; the variables on the left stay.
#[inline(never)]
#[tactic(auto, using(jd_syntax::proofs::Lists::rest))]
pub fn map_pairs<M: Leaves>(
    alloc: Global,
    m: &M,
    pairs: &[Elementary],
    depth: u64,
) -> Result<Update, NoMemory>
    requires { EachLeafOfPairs (M.leaves m.now).below (M.Fits m.now) depth (map pair_view pairs.now) }
    ensures { GivesUpdate result (map_pairs (M.leaves m.now) depth (map pair_view pairs.now)) }
{
    let mut mapped = Vec::with_capacity(alloc, pairs.len())?;
    for p in pairs {
        let (variable, value) = both(p.variable.copy(alloc), map_term(alloc, m, &p.value, depth))?;
        mapped.push(Elementary { variable, value })?;
    }
    Ok(Update { pairs: mapped })
}

// A formula of two terms with other leaves: what they take of the stack is not there while formulas inside are mapped.
#[inline(never)]
fn map_two_terms<M: Leaves>(
    alloc: Global,
    m: &M,
    like: &Formula,
    a: &Term,
    b: &Term,
    depth: u64,
) -> Result<Formula, NoMemory>
    requires first { EachLeaf (M.leaves m.now).below (M.Fits m.now) depth (term_view a.now) }
    requires second { EachLeaf (M.leaves m.now).below (M.Fits m.now) depth (term_view b.now) }
    ensures { GivesFormula result
        (with_terms (formula_view like.now) (map_term (M.leaves m.now) depth (term_view a.now)) (map_term (M.leaves m.now) depth (term_view b.now))) }
{
    with_terms(
        like,
        map_term(alloc, m, a, depth),
        map_term(alloc, m, b, depth),
    )
}

#[inline(never)]
fn map_one_term<M: Leaves>(
    alloc: Global,
    m: &M,
    like: &Formula,
    a: &Term,
    depth: u64,
) -> Result<Formula, NoMemory>
    requires { EachLeaf (M.leaves m.now).below (M.Fits m.now) depth (term_view a.now) }
    ensures { GivesFormula result (with_term (formula_view like.now) (map_term (M.leaves m.now) depth (term_view a.now))) }
{
    with_term(like, map_term(alloc, m, a, depth))
}

#[inline(never)]
fn map_in_locations<M: Leaves>(
    alloc: Global,
    m: &M,
    a: &Term,
    b: &Term,
    l: &Loc,
    depth: u64,
) -> Result<Formula, NoMemory>
    requires first { EachLeaf (M.leaves m.now).below (M.Fits m.now) depth (term_view a.now) }
    requires second { EachLeaf (M.leaves m.now).below (M.Fits m.now) depth (term_view b.now) }
    requires third { EachLeafOfLoc (M.leaves m.now).below (M.Fits m.now) depth (loc_view l.now) }
    ensures { GivesFormula result
        (InLocations (map_term (M.leaves m.now) depth (term_view a.now)) (map_term (M.leaves m.now) depth (term_view b.now)) (map_loc (M.leaves m.now) depth (loc_view l.now))) }
{
    in_locations(
        map_term(alloc, m, a, depth),
        map_term(alloc, m, b, depth),
        map_loc(alloc, m, l, depth),
    )
}

#[cycle(map_formula)]
#[inline(never)]
fn map_boxed_formula<M: Leaves>(
    alloc: Global,
    m: &M,
    f: &Box<Formula>,
    depth: u64,
) -> Result<Box<Formula>, NoMemory>
    requires { EachLeafOfFormula (M.leaves m.now).below (M.Fits m.now) depth (formula_view f.now.value) }
    ensures { GivesBoxedFormula result (map_formula (M.leaves m.now) depth (formula_view f.now.value)) }
{
    boxed_formula(alloc, map_formula(alloc, m, f, depth))
}

#[cycle(map_formula)]
#[inline(never)]
fn map_boxed_formula_below<M: Leaves>(
    alloc: Global,
    m: &M,
    f: &Box<Formula>,
    depth: u64,
) -> Result<Box<Formula>, NoMemory>
    requires { EachLeafOfFormula (M.leaves m.now).below (M.Fits m.now) ((M.leaves m.now).below depth) (formula_view f.now.value) }
    ensures { GivesBoxedFormula result (map_formula (M.leaves m.now) ((M.leaves m.now).below depth) (formula_view f.now.value)) }
{
    let inner = m.below(depth)?;
    boxed_formula(alloc, map_formula(alloc, m, f, inner))
}

/// The formula with other leaves; code stays as it is.
#[cycle(map_formula)]
pub fn map_formula<M: Leaves>(
    alloc: Global,
    m: &M,
    f: &Formula,
    depth: u64,
) -> Result<Formula, NoMemory>
    requires { EachLeafOfFormula (M.leaves m.now).below (M.Fits m.now) depth (formula_view f.now) }
    ensures { GivesFormula result (map_formula (M.leaves m.now) depth (formula_view f.now)) }
{
    match f {
        Formula::TrueFormula => Ok(Formula::TrueFormula),
        Formula::FalseFormula => Ok(Formula::FalseFormula),
        Formula::Not(a) => boxes::with_formula(f, map_boxed_formula(alloc, m, a, depth)),
        Formula::Forall(_, a) | Formula::Exists(_, a) => boxes::with_formula(
            f,
            map_boxed_formula_below(alloc, m, a, depth),
        ),
        Formula::And(a, b) | Formula::Or(a, b) | Formula::Implies(a, b) | Formula::Iff(a, b) =>
            boxes::with_formulas(
                f,
                map_boxed_formula(alloc, m, a, depth),
                map_boxed_formula(alloc, m, b, depth),
            ),
        Formula::Equal(a, b)
        | Formula::Less(a, b)
        | Formula::LessOrEqual(a, b)
        | Formula::Invariant(a, b) => map_two_terms(alloc, m, f, a, b, depth),
        Formula::InInt(a)
        | Formula::WellFormed(a)
        | Formula::IsInstance(_, a)
        | Formula::IsExactInstance(_, a) => map_one_term(alloc, m, f, a, depth),
        Formula::Updated(u, a) => boxes::updated(
            map_pairs(alloc, m, &u.pairs, depth),
            map_boxed_formula(alloc, m, a, depth),
        ),
        Formula::Modal(w, c, a) => boxes::modal(
            *w,
            c.copy(alloc),
            map_boxed_formula(alloc, m, a, depth),
        ),
        Formula::InLocations(a, b, l) => map_in_locations(alloc, m, a, b, l, depth),
    }
}
