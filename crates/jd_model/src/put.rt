ghost use Rattle.std.specs.Prelude.{◌≡◌, ◌==◌, if◌then◌else◌, ◌<◌, ◌≤◌, IfOk, map, length};
ghost use Rattle.jd_term.specs.Formulas.{formula_view};
ghost use Rattle.jd_model.specs.Sequents.{sequent_view, place_view};
ghost use Rattle.jd_model.specs.Places.{put_formula, put_in, put_at, IsFormulaPlace};

use crate::sequent::{Place, Sequent, Side};
use jd_base::NoMemory;
use jd_term::Formula;
use std::alloc::Global;

// What stands below the two parts of a connective, with a new formula below the one of this number.
#[cycle(put)]
fn put_parts(
    alloc: Global,
    number: u32,
    rest: &[u32],
    new: Formula,
    a: &Formula,
    b: &Formula,
) -> Result<(Box<Formula>, Box<Formula>), NoMemory>
    ensures first { IfOk result
        (λ parts. formula_view parts.0.value ≡ (if number == 1 then put_formula rest.now (formula_view new) (formula_view a.now) else formula_view a.now)) }
    ensures second { IfOk result
        (λ parts. formula_view parts.1.value ≡ (if number == 1 then formula_view b.now else put_formula rest.now (formula_view new) (formula_view b.now))) }
{
    if number == 1 {
        let a = put(alloc, rest, new, a)?;
        let b = b.copy(alloc)?;
        let a = Box::new(alloc, a)?;
        let b = Box::new(alloc, b)?;
        Ok((a, b))
    } else {
        let a = a.copy(alloc)?;
        let b = put(alloc, rest, new, b)?;
        let a = Box::new(alloc, a)?;
        let b = Box::new(alloc, b)?;
        Ok((a, b))
    }
}

#[cycle(put)]
fn put_part(
    alloc: Global,
    rest: &[u32],
    new: Formula,
    a: &Formula,
) -> Result<Box<Formula>, NoMemory>
    ensures { IfOk result
        (λ part. formula_view part.value ≡ put_formula rest.now (formula_view new) (formula_view a.now)) }
{
    let a = put(alloc, rest, new, a)?;
    Ok(Box::new(alloc, a)?)
}

// The formula with another one at the end of a path.
#[cycle(put)]
fn put(alloc: Global, path: &[u32], new: Formula, old: &Formula) -> Result<Formula, NoMemory>
    ensures { IfOk result
        (λ f. formula_view f ≡ put_formula path.now (formula_view new) (formula_view old.now)) }
{
    let Some((number, rest)) = path.split_first() else {
        return Ok(new);
    };
    let number = *number;
    match old {
        Formula::And(a, b) => {
            let (a, b) = put_parts(alloc, number, rest, new, a, b)?;
            Ok(Formula::And(a, b))
        }
        Formula::Or(a, b) => {
            let (a, b) = put_parts(alloc, number, rest, new, a, b)?;
            Ok(Formula::Or(a, b))
        }
        Formula::Implies(a, b) => {
            let (a, b) = put_parts(alloc, number, rest, new, a, b)?;
            Ok(Formula::Implies(a, b))
        }
        Formula::Iff(a, b) => {
            let (a, b) = put_parts(alloc, number, rest, new, a, b)?;
            Ok(Formula::Iff(a, b))
        }
        Formula::Not(a) => {
            let a = put_part(alloc, rest, new, a)?;
            Ok(Formula::Not(a))
        }
        Formula::Forall(sort, a) => {
            let a = put_part(alloc, rest, new, a)?;
            Ok(Formula::Forall(*sort, a))
        }
        Formula::Exists(sort, a) => {
            let a = put_part(alloc, rest, new, a)?;
            Ok(Formula::Exists(*sort, a))
        }
        Formula::Updated(update, a) => {
            let update = update.copy(alloc)?;
            let a = put_part(alloc, rest, new, a)?;
            Ok(Formula::Updated(update, a))
        }
        Formula::Modal(modality, code, a) => {
            let code = code.copy(alloc)?;
            let a = put_part(alloc, rest, new, a)?;
            Ok(Formula::Modal(*modality, code, a))
        }
        _ => old.copy(alloc),
    }
}

/// Copies of the formulas.
pub fn copy_formulas(alloc: Global, formulas: &[Formula]) -> Result<Vec<Formula>, NoMemory>
    ensures { IfOk result (λ v. map formula_view v.items ≡ map formula_view formulas.now) }
{
    let mut out = Vec::with_capacity(alloc, formulas.len())?;
    for formula in formulas {
        out.push(formula.copy(alloc)?)?;
    }
    Ok(out)
}

// The formulas of a side with another one below the formula of this number.
fn put_side(
    alloc: Global,
    mut formulas: Vec<Formula>,
    index: u32,
    path: &[u32],
    new: Formula,
) -> Result<Vec<Formula>, NoMemory>
    requires some { 0 < index }
    requires within { index ≤ length formulas.items }
    ensures { IfOk result
        (λ v. map formula_view v.items ≡ put_in (map formula_view formulas.items) index path.now (formula_view new)) }
{
    let place = index as usize - 1;
    let changed = put(alloc, path, new, &formulas[place])?;
    formulas[place] = changed;
    Ok(formulas)
}

impl Sequent {
    /// A copy of the sequent.
    pub fn copy(&self, alloc: Global) -> Result<Sequent, NoMemory>
        ensures { IfOk result (λ s. sequent_view s ≡ sequent_view self.now) }
    {
        let left = copy_formulas(alloc, &self.left)?;
        let right = copy_formulas(alloc, &self.right)?;
        Ok(Sequent { left, right })
    }
}

/// The sequent with another formula at a place where a formula stands. The formulas that stay are moved.
pub fn put_at_place(
    alloc: Global,
    sequent: Sequent,
    place: &Place,
    new: Formula,
) -> Result<Sequent, NoMemory>
    requires { IsFormulaPlace (sequent_view sequent) (place_view place.now) }
    ensures { IfOk result
        (λ s. sequent_view s ≡ put_at (sequent_view sequent) (place_view place.now) (formula_view new)) }
{
    let Sequent { left, right } = sequent;
    match place.side {
        Side::Left => {
            let left = put_side(alloc, left, place.index, &place.path, new)?;
            Ok(Sequent { left, right })
        }
        Side::Right => {
            let right = put_side(alloc, right, place.index, &place.path, new)?;
            Ok(Sequent { left, right })
        }
    }
}

/// The sequent with a copy of another formula at a place where a formula stands.
pub fn replace_at(
    alloc: Global,
    sequent: &Sequent,
    place: &Place,
    with: &Formula,
) -> Result<Sequent, NoMemory>
    requires { IsFormulaPlace (sequent_view sequent.now) (place_view place.now) }
    ensures { IfOk result
        (λ s. sequent_view s ≡ put_at (sequent_view sequent.now) (place_view place.now) (formula_view with.now)) }
{
    let new = with.copy(alloc)?;
    let sequent = sequent.copy(alloc)?;
    put_at_place(alloc, sequent, place, new)
}
