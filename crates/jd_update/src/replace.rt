//! Program variables replaced by terms.

ghost use Rattle.jd_syntax.specs.Names.{var_view};
ghost use Rattle.jd_term.specs.Makers.{GivesLoc, GivesTerm};
ghost use Rattle.jd_term.specs.Formulas.{pair_view};
ghost use Rattle.jd_term.specs.TermViews.{loc_view, term_view};
ghost use Rattle.jd_update.specs.Fits.{InnerFits, ReplaceFits, ReplaceLocFits};
ghost use Rattle.jd_update.specs.Replace.{inner, look, replace, replace_loc};
ghost use Rattle.std.specs.Prelude.{◌≡◌, IfOk, map};

use crate::pairs::is_same;
use jd_base::NoMemory;
use jd_syntax::VarId;
use jd_term::{
    Elementary, Loc, Term, anon, arithmetic, copy_leaf, create, element_range, select, shift_term,
    single, store, sum, union, with_object, with_one,
};
use std::alloc::Global;

// What the variable is replaced by.
#[tactic(auto, using(jd_syntax::proofs::Lists::rest))]
fn look(alloc: Global, q: &[Elementary], x: &VarId) -> Result<Term, NoMemory>
    ensures { IfOk result (λ t. term_view t ≡ look (map pair_view q.now) (var_view x.now)) }
{
    for p in q {
        if is_same(x, &p.variable) {
            return p.value.copy(alloc);
        }
    }
    Ok(Term::ProgramVariable(x.copy(alloc)?))
}

// The pairs, one binder further in.
pub(crate) fn inner(alloc: Global, q: &[Elementary]) -> Result<Vec<Elementary>, NoMemory>
    requires { InnerFits (map pair_view q.now) }
    ensures { IfOk result (λ v. map pair_view v.items ≡ inner (map pair_view q.now)) }
{
    let mut shifted = Vec::with_capacity(alloc, q.len())?;
    for p in q {
        let variable = p.variable.copy(alloc)?;
        let value = shift_term(alloc, &p.value, 0, 1)?;
        shifted.push(Elementary { variable, value })?;
    }
    Ok(shifted)
}

// The term one binder further in.
#[cycle(replace)]
fn replace_inside(alloc: Global, q: &[Elementary], t: &Term) -> Result<Term, NoMemory>
    requires inner { InnerFits (map pair_view q.now) }
    requires fits { ReplaceFits (inner (map pair_view q.now)) (term_view t.now) }
    ensures { GivesTerm result (replace (inner (map pair_view q.now)) (term_view t.now)) }
{
    let inside = inner(alloc, q)?;
    replace_term(alloc, &inside, t)
}

/// The term with each program variable replaced by the right side of its first pair in `q`, if it
/// has one. Under a bounded sum the right sides' indices are raised by one.
#[cycle(replace)]
pub fn replace_term(alloc: Global, q: &[Elementary], t: &Term) -> Result<Term, NoMemory>
    requires { ReplaceFits (map pair_view q.now) (term_view t.now) }
    ensures { GivesTerm result (replace (map pair_view q.now) (term_view t.now)) }
{
    match t {
        Term::ProgramVariable(x) => look(alloc, q, x),
        Term::Number(_)
        | Term::Boolean(_)
        | Term::NullTerm
        | Term::Constant(_)
        | Term::Bound(_, _)
        | Term::NamedField(_)
        | Term::CreatedField => copy_leaf(alloc, t),
        Term::Negation(a) | Term::Wrap(a) | Term::Length(a) | Term::ElementField(a) => with_one(
            alloc,
            t,
            replace_term(alloc, q, a),
        ),
        Term::Arithmetic(o, a, b) => arithmetic(
            alloc,
            *o,
            replace_term(alloc, q, a),
            replace_term(alloc, q, b),
        ),
        Term::Create(a, b) => create(alloc, replace_term(alloc, q, a), replace_term(alloc, q, b)),
        Term::Select(s, a, b, c) => select(
            alloc,
            *s,
            replace_term(alloc, q, a),
            replace_term(alloc, q, b),
            replace_term(alloc, q, c),
        ),
        Term::Sum(a, b, c) => sum(
            alloc,
            replace_term(alloc, q, a),
            replace_term(alloc, q, b),
            replace_inside(alloc, q, c),
        ),
        Term::Store(a, b, c, d) => store(
            alloc,
            replace_term(alloc, q, a),
            replace_term(alloc, q, b),
            replace_term(alloc, q, c),
            replace_term(alloc, q, d),
        ),
        Term::Anon(a, l, b) => anon(
            alloc,
            replace_term(alloc, q, a),
            replace_loc(alloc, q, l),
            replace_term(alloc, q, b),
        ),
    }
}

/// The location set with its program variables replaced, as by [`replace_term`].
#[cycle(replace)]
pub fn replace_loc(alloc: Global, q: &[Elementary], l: &Loc) -> Result<Loc, NoMemory>
    requires { ReplaceLocFits (map pair_view q.now) (loc_view l.now) }
    ensures { GivesLoc result (replace_loc (map pair_view q.now) (loc_view l.now)) }
{
    match l {
        Loc::NoLocations => Ok(Loc::NoLocations),
        Loc::AllLocations => Ok(Loc::AllLocations),
        Loc::ObjectFields(a) | Loc::ArrayElements(a) => with_object(
            alloc,
            l,
            replace_term(alloc, q, a),
        ),
        Loc::Single(a, b) => single(alloc, replace_term(alloc, q, a), replace_term(alloc, q, b)),
        Loc::ElementRange(a, b, c) => element_range(
            alloc,
            replace_term(alloc, q, a),
            replace_term(alloc, q, b),
            replace_term(alloc, q, c),
        ),
        Loc::Union(a, b) => union(alloc, replace_loc(alloc, q, a), replace_loc(alloc, q, b)),
    }
}
