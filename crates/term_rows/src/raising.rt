//! Whether indices may be raised, of the forms that rows have.

ghost use Rattle.jd_term.specs.Formulas.{formula_view, pair_view};
ghost use Rattle.jd_term.specs.Shifts.{LocFits, PairsFit, ShiftFits, TermFits};
ghost use Rattle.jd_term.specs.TermViews.{loc_view, term_view};
ghost use Rattle.std.specs.Prelude.{IsTrue, map};

use jd_term::{Elementary, Formula, Loc, Term};

/// Whether those in a term from `from` on may be raised by so much.
pub(crate) fn may_raise_term(t: &Term, from: u64, by: u32) -> bool
    ensures { IsTrue result → TermFits from by (term_view t.now) }
{
    match t {
        Term::Bound(k, _) => *k < 1000 && by < 1000,
        Term::Number(_) | Term::NullTerm | Term::CreatedField | Term::ProgramVariable(_) => true,
        _ => false,
    }
}

/// The same of a location set.
pub(crate) fn may_raise_loc(l: &Loc, from: u64, by: u32) -> bool
    ensures { IsTrue result → LocFits from by (loc_view l.now) }
{
    match l {
        Loc::NoLocations | Loc::AllLocations => true,
        Loc::ObjectFields(o) => may_raise_term(o, from, by),
        Loc::Union(a, b) => may_raise_loc(a, from, by) && may_raise_loc(b, from, by),
        _ => false,
    }
}

/// The same of what an update of one pair assigns.
pub(crate) fn may_raise_pairs(pairs: &[Elementary], from: u64, by: u32) -> bool
    ensures { IsTrue result → PairsFit from by (map pair_view pairs.now) }
{
    match pairs {
        [p] => may_raise_term(&p.value, from, by),
        _ => false,
    }
}

/// The same of a formula.
pub(crate) fn may_raise(f: &Formula, from: u64, by: u32) -> bool
    ensures { IsTrue result → ShiftFits from by (formula_view f.now) }
{
    match f {
        Formula::TrueFormula => true,
        Formula::LessOrEqual(a, b) | Formula::Less(a, b) => may_raise_term(a, from, by)
            && may_raise_term(b, from, by),
        Formula::Forall(_, a) => from < u64::MAX && may_raise(a, from + 1, by),
        Formula::Updated(u, a) => may_raise_pairs(&u.pairs, from, by) && may_raise(a, from, by),
        _ => false,
    }
}
