//! Whether names may be replaced, of the forms that rows have.

ghost use Rattle.jd_term.specs.Formulas.{formula_view};
ghost use Rattle.jd_term.specs.Renamings.{FirstOrder, IsRenaming, IsSymbol, MayStandFor, NoIndex, both_views};
ghost use Rattle.jd_term.specs.TermViews.{term_view};
ghost use Rattle.std.specs.Prelude.{IsTrue, map};

use jd_term::{Formula, Term, sort_of};

fn is_without_index(t: &Term) -> bool
    ensures { IsTrue result → NoIndex (term_view t.now) }
{
    match t {
        Term::Number(_) | Term::NullTerm | Term::ProgramVariable(_) | Term::Constant(_) => true,
        _ => false,
    }
}

fn is_symbol(t: &Term) -> bool
    ensures { IsTrue result → IsSymbol (term_view t.now) }
{
    match t {
        Term::ProgramVariable(_) | Term::Constant(_) => true,
        _ => false,
    }
}

fn may_stand_for(t: &Term, u: &Term) -> bool
    ensures { IsTrue result → MayStandFor (term_view t.now, term_view u.now) }
{
    let own = sort_of(t);
    let other = sort_of(u);
    is_symbol(t) && other == own && is_without_index(u)
}

/// Whether one or two pairs are a renaming.
pub(crate) fn may_rename(pairs: &[(Term, Term)]) -> bool
    ensures { IsTrue result → IsRenaming (map both_views pairs.now) }
{
    match pairs {
        [p] => may_stand_for(&p.0, &p.1),
        [p, q] => !p.0.equals(&q.0) && may_stand_for(&p.0, &p.1) && may_stand_for(&q.0, &q.1),
        _ => false,
    }
}

/// Whether a formula has neither an update nor a modality.
pub(crate) fn is_first_order(f: &Formula) -> bool
    ensures { IsTrue result → FirstOrder (formula_view f.now) }
{
    match f {
        Formula::Less(_, _) | Formula::InLocations(_, _, _) => true,
        Formula::Not(a) => is_first_order(a),
        _ => false,
    }
}
