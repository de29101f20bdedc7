//! Whether a term may be put for an index, of the forms that rows have.

ghost use Rattle.jd_base.specs.declared.sort.Sort.{Sort};
ghost use Rattle.jd_term.specs.Formulas.{formula_view, pair_view};
ghost use Rattle.jd_term.specs.Substitutions.{LocSortsAgree, LocSubstFits, PairsSortsAgree, PairsSubstFit, SortsAgree, SubstFits, TermSortsAgree, TermSubstFits};
ghost use Rattle.jd_term.specs.TermViews.{loc_view, term_view};
ghost use Rattle.std.specs.Prelude.{◌≡◌, IsTrue, map};

use crate::raising::may_raise_term;
use jd_base::Sort;
use jd_term::{Elementary, Formula, Loc, Term};

// ---- the indices below `depth` binders fit

/// Whether they do in a term.
pub(crate) fn fits_term(s: &Term, depth: u32, index: u32, t: &Term) -> bool
    ensures { IsTrue result → TermSubstFits depth index (term_view t.now) (term_view s.now) }
{
    match s {
        Term::Bound(_, _) => may_raise_term(t, 0, depth),
        Term::Number(_) | Term::NullTerm | Term::CreatedField | Term::ProgramVariable(_) => true,
        Term::Negation(a) => fits_term(a, depth, index, t),
        _ => false,
    }
}

fn fits_loc(l: &Loc, depth: u32, index: u32, t: &Term) -> bool
    ensures { IsTrue result → LocSubstFits depth index (term_view t.now) (loc_view l.now) }
{
    match l {
        Loc::NoLocations | Loc::AllLocations => true,
        Loc::ObjectFields(o) => fits_term(o, depth, index, t),
        Loc::Union(a, b) => fits_loc(a, depth, index, t) && fits_loc(b, depth, index, t),
        _ => false,
    }
}

fn fits_pairs(pairs: &[Elementary], depth: u32, index: u32, t: &Term) -> bool
    ensures { IsTrue result → PairsSubstFit depth index (term_view t.now) (map pair_view pairs.now) }
{
    match pairs {
        [p] => fits_term(&p.value, depth, index, t),
        _ => false,
    }
}

/// Whether they do in a formula.
pub(crate) fn fits(f: &Formula, depth: u32, index: u32, t: &Term) -> bool
    ensures { IsTrue result → SubstFits depth index (term_view t.now) (formula_view f.now) }
{
    match f {
        Formula::TrueFormula => true,
        Formula::Not(a) => fits(a, depth, index, t),
        Formula::LessOrEqual(a, b) => fits_term(a, depth, index, t)
            && fits_term(b, depth, index, t),
        Formula::Forall(_, a) => depth < 1000 && fits(a, depth + 1, index, t),
        Formula::Updated(u, a) => fits_pairs(&u.pairs, depth, index, t) && fits(a, depth, index, t),
        Formula::InLocations(a, b, l) => fits_term(a, depth, index, t)
            && fits_term(b, depth, index, t)
            && fits_loc(l, depth, index, t),
        _ => false,
    }
}

// ---- the index has this sort

/// Whether it has in a term.
pub(crate) fn agrees_term(s: &Term, index: u64, sort: Sort) -> bool
    ensures { IsTrue result → TermSortsAgree index sort (term_view s.now) }
{
    match s {
        Term::Bound(k, own) => *k as u64 != index || *own == sort,
        Term::Number(_) | Term::NullTerm | Term::CreatedField | Term::ProgramVariable(_) => true,
        Term::Negation(a) => agrees_term(a, index, sort),
        _ => false,
    }
}

fn agrees_loc(l: &Loc, index: u64, sort: Sort) -> bool
    ensures { IsTrue result → LocSortsAgree index sort (loc_view l.now) }
{
    match l {
        Loc::NoLocations | Loc::AllLocations => true,
        Loc::ObjectFields(o) => agrees_term(o, index, sort),
        Loc::Union(a, b) => agrees_loc(a, index, sort) && agrees_loc(b, index, sort),
        _ => false,
    }
}

fn agrees_pairs(pairs: &[Elementary], index: u64, sort: Sort) -> bool
    ensures { IsTrue result → PairsSortsAgree index sort (map pair_view pairs.now) }
{
    match pairs {
        [p] => agrees_term(&p.value, index, sort),
        _ => false,
    }
}

/// Whether it has in a formula.
pub(crate) fn agrees(f: &Formula, index: u64, sort: Sort) -> bool
    ensures { IsTrue result → SortsAgree index sort (formula_view f.now) }
{
    match f {
        Formula::TrueFormula => true,
        Formula::Not(a) => agrees(a, index, sort),
        Formula::LessOrEqual(a, b) => agrees_term(a, index, sort) && agrees_term(b, index, sort),
        Formula::Forall(_, a) => index < u64::MAX && agrees(a, index + 1, sort),
        Formula::Updated(u, a) => agrees_pairs(&u.pairs, index, sort) && agrees(a, index, sort),
        Formula::InLocations(a, b, l) => agrees_term(a, index, sort)
            && agrees_term(b, index, sort)
            && agrees_loc(l, index, sort),
        _ => false,
    }
}
