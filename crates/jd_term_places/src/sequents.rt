//! Sequents with another term at a place.

ghost use Rattle.std.specs.Prelude.{◌≡◌, ◌<◌, ◌≤◌, IfOk, length, map};
ghost use Rattle.jd_model.specs.Places.{on_side};
ghost use Rattle.jd_model.specs.Sequents.{place_view, sequent_view};
ghost use Rattle.jd_taclet_steps.specs.PutTerms.{put_in_list, put_term_at};
ghost use Rattle.jd_term.specs.Formulas.{formula_view};
ghost use Rattle.jd_term.specs.TermViews.{term_view};

use crate::formulas::put_below;
use jd_base::NoMemory;
use jd_model::{Place, Sequent, Side};
use jd_term::{Formula, Term};
use std::alloc::Global;

// The formulas with another term below the formula of this number, from 1.
fn put_in_list(
    alloc: Global,
    mut formulas: Vec<Formula>,
    index: u32,
    path: &[u32],
    new: &Term,
) -> Result<Vec<Formula>, NoMemory>
    requires some { 0 < index }
    requires within { index ≤ length formulas.items }
    ensures { IfOk result (λ v. map formula_view v.items ≡ put_in_list (map formula_view formulas.items) index path.now (term_view new.now)) }
{
    let place = index as usize - 1;
    let changed = put_below(alloc, path, new, &formulas[place])?;
    formulas[place] = changed;
    Ok(formulas)
}

/// The sequent with a copy of another term at a place, of which the index is that of a formula. The formulas that stay are moved.
pub fn put_term_at_place(
    alloc: Global,
    sequent: Sequent,
    place: &Place,
    new: &Term,
) -> Result<Sequent, NoMemory>
    requires some { 0 < place.now.index }
    requires within { place.now.index ≤ length (on_side (sequent_view sequent) place.now.side) }
    ensures { IfOk result (λ s. sequent_view s ≡ put_term_at (sequent_view sequent) (place_view place.now) (term_view new.now)) }
{
    let Sequent { left, right } = sequent;
    match place.side {
        Side::Left => {
            let left = put_in_list(alloc, left, place.index, &place.path, new)?;
            Ok(Sequent { left, right })
        }
        Side::Right => {
            let right = put_in_list(alloc, right, place.index, &place.path, new)?;
            Ok(Sequent { left, right })
        }
    }
}
