//! Whether variables may be replaced in a term, of the forms that rows have.

ghost use Rattle.jd_term.specs.Formulas.{Pairs, pair_view};
ghost use Rattle.jd_term.specs.TermViews.{term_view};
ghost use Rattle.jd_update.specs.Fits.{ReplaceFits};
ghost use Rattle.std.specs.Prelude.{IsTrue, map};

use crate::raising::may_raise_pairs;
use jd_term::{Elementary, Term};

// Whether whatever may be put in a term, which has no binder.
fn takes_all(t: &Term) -> bool
    ensures { (q : Pairs) → IsTrue result → ReplaceFits q (term_view t.now) }
{
    match t {
        Term::Number(_) | Term::NullTerm | Term::ProgramVariable(_) => true,
        Term::Length(o) => takes_all(o),
        _ => false,
    }
}

/// Whether they may; below the binder of a sum the indices of what is put there are one more.
pub(crate) fn may_replace(pairs: &[Elementary], t: &Term) -> bool
    ensures { IsTrue result → ReplaceFits (map pair_view pairs.now) (term_view t.now) }
{
    match t {
        Term::Sum(from, to, summand) => may_raise_pairs(pairs, 0, 1)
            && takes_all(from)
            && takes_all(to)
            && takes_all(summand),
        _ => takes_all(t),
    }
}
