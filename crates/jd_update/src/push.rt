//! Updates pushed inward.

ghost use Rattle.jd_syntax.specs.CodeViews.{code_view};
ghost use Rattle.jd_term.specs.Makers.{GivesFormula};
ghost use Rattle.jd_term.specs.Formulas.{Modal, formula_view, pair_view, update_view};
ghost use Rattle.jd_update.specs.Fits.{InnerFits, JoinFits, PushFits};
ghost use Rattle.jd_update.specs.Replace.{inner};
ghost use Rattle.jd_update.specs.Push.{joined, kept, live, push, simplified, under};
ghost use Rattle.std.specs.Prelude.{◌≡◌, IfOk, [], map};

use crate::pairs::{joined, kept, live};
use crate::replace::{inner, replace_loc, replace_term};
use jd_base::NoMemory;
use jd_syntax::Code;
use jd_term::{
    Elementary, Formula, Modality, Update, in_locations, modal, updated, with_formula,
    with_formulas, with_term, with_terms,
};
use std::alloc::Global;

/// The formula with its updates pushed inward, to the terms and to the modalities: a term takes what
/// its variables are sent to, and before a modality stay those pairs whose variables occur there and
/// are not sent to themselves, in the order of names (The KeY Book, 3.4.3).
pub fn simplify(alloc: Global, f: &Formula) -> Result<Formula, NoMemory>
    requires { PushFits [] (formula_view f.now) }
    ensures { IfOk result (λ g. formula_view g ≡ simplified (formula_view f.now)) }
{
    let none = Vec::new(alloc);
    pushed(alloc, &none, f)
}

/// The formula under the update, which is pushed inward with the formula's own updates.
pub fn apply_update(alloc: Global, u: &Update, f: &Formula) -> Result<Formula, NoMemory>
    requires joins { JoinFits [] (update_view u.now) }
    requires pushes { PushFits (joined [] (update_view u.now) []) (formula_view f.now) }
    ensures { IfOk result
        (λ g. formula_view g ≡ push (joined [] (update_view u.now) []) (formula_view f.now)) }
{
    let none = Vec::new(alloc);
    let pairs = joined(alloc, &none, &u.pairs)?;
    pushed(alloc, &pairs, f)
}

/// The update without the pairs whose variables do not occur in the formula.
pub fn drop_dead(alloc: Global, u: &Update, f: &Formula) -> Result<Update, NoMemory>
    ensures { IfOk result (λ v. update_view v ≡ live (formula_view f.now) (update_view u.now)) }
{
    let pairs = live(alloc, &u.pairs, f)?;
    Ok(Update { pairs })
}

// The formula under the pairs as an update, where there are any.
fn under(alloc: Global, pairs: Vec<Elementary>, f: Formula) -> Result<Formula, NoMemory>
    ensures { IfOk result (λ g. formula_view g ≡ under (map pair_view pairs.items) (formula_view f)) }
{
    if pairs.is_empty() {
        return Ok(f);
    }
    updated(alloc, Ok(Update { pairs }), Ok(f))
}

fn copied_modal(alloc: Global, m: Modality, c: &Code, a: &Formula) -> Result<Formula, NoMemory>
    ensures { GivesFormula result (Modal m (code_view c.now) (formula_view a.now)) }
{
    modal(alloc, m, c.copy(alloc), a.copy(alloc))
}

fn before_modality(
    alloc: Global,
    q: &[Elementary],
    m: Modality,
    c: &Code,
    a: &Formula,
) -> Result<Formula, NoMemory>
    ensures { IfOk result
        (λ g. formula_view g ≡ push (map pair_view q.now) (Modal m (code_view c.now) (formula_view a.now))) }
{
    let pairs = kept(alloc, q, c, a)?;
    let f = copied_modal(alloc, m, c, a)?;
    under(alloc, pairs, f)
}

// The formula one binder further in.
#[cycle(pushed)]
fn pushed_inside(alloc: Global, q: &[Elementary], f: &Formula) -> Result<Formula, NoMemory>
    requires inner { InnerFits (map pair_view q.now) }
    requires fits { PushFits (inner (map pair_view q.now)) (formula_view f.now) }
    ensures { GivesFormula result (push (inner (map pair_view q.now)) (formula_view f.now)) }
{
    let inside = inner(alloc, q)?;
    pushed(alloc, &inside, f)
}

// The formula under the replacement.
#[cycle(pushed)]
fn pushed(alloc: Global, q: &[Elementary], f: &Formula) -> Result<Formula, NoMemory>
    requires { PushFits (map pair_view q.now) (formula_view f.now) }
    ensures { GivesFormula result (push (map pair_view q.now) (formula_view f.now)) }
{
    match f {
        Formula::TrueFormula => Ok(Formula::TrueFormula),
        Formula::FalseFormula => Ok(Formula::FalseFormula),
        Formula::Not(a) => with_formula(alloc, f, pushed(alloc, q, a)),
        Formula::Forall(_, a) | Formula::Exists(_, a) => with_formula(
            alloc,
            f,
            pushed_inside(alloc, q, a),
        ),
        Formula::And(a, b) | Formula::Or(a, b) | Formula::Implies(a, b) | Formula::Iff(a, b) =>
            with_formulas(alloc, f, pushed(alloc, q, a), pushed(alloc, q, b)),
        Formula::Equal(a, b)
        | Formula::Less(a, b)
        | Formula::LessOrEqual(a, b)
        | Formula::Invariant(a, b) => with_terms(
            f,
            replace_term(alloc, q, a),
            replace_term(alloc, q, b),
        ),
        Formula::InInt(a)
        | Formula::WellFormed(a)
        | Formula::IsInstance(_, a)
        | Formula::IsExactInstance(_, a) => with_term(f, replace_term(alloc, q, a)),
        Formula::Updated(u, a) => {
            let pairs = joined(alloc, q, &u.pairs)?;
            pushed(alloc, &pairs, a)
        }
        Formula::Modal(m, c, a) => before_modality(alloc, q, *m, c, a),
        Formula::InLocations(a, b, l) => in_locations(
            replace_term(alloc, q, a),
            replace_term(alloc, q, b),
            replace_loc(alloc, q, l),
        ),
    }
}
