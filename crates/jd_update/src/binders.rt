//! Formulas without binders.

ghost use Rattle.jd_term.specs.Formulas.{formula_view, pair_view};
ghost use Rattle.jd_update.specs.Binderless.{has_no_binder, no_binders, pairs_have_no_sum};
ghost use Rattle.std.specs.Prelude.{◌≡◌, map};

use jd_syntax::{Code, VarId};
use jd_term::{Elementary, Formula, Gather, Loc, Term, fold_formula, fold_pairs};

#[derive(Clone, Copy)]
struct NoBinders;

impl Gather for NoBinders {
    type Out = bool;

    ghost gathers = { λ s. no_binders };

    fn none(&self) -> bool {
        true
    }

    fn join(&self, a: bool, b: bool) -> bool {
        a && b
    }

    fn term(&self, t: &Term, inside: bool) -> bool {
        match t {
            Term::Sum(_, _, _) => false,
            _ => inside,
        }
    }

    fn loc(&self, _l: &Loc, inside: bool) -> bool {
        inside
    }

    fn formula(&self, f: &Formula, inside: bool) -> bool {
        match f {
            Formula::Forall(_, _) | Formula::Exists(_, _) => false,
            _ => inside,
        }
    }

    fn pair(&self, _x: &VarId, inside: bool) -> bool {
        inside
    }

    fn code(&self, _c: &Code) -> bool {
        true
    }
}

/// Whether there is no bounded sum in the terms of the pairs.
pub fn pairs_have_no_sum(pairs: &[Elementary]) -> bool
    ensures { result ≡ pairs_have_no_sum (map pair_view pairs.now) }
{
    fold_pairs(&NoBinders, pairs)
}

/// Whether there is no quantifier and no bounded sum in the formula. Such a formula meets what
/// [`simplify`](crate::simplify) asks for.
pub fn has_no_binder(f: &Formula) -> bool
    ensures { result ≡ has_no_binder (formula_view f.now) }
{
    fold_formula(&NoBinders, f)
}
