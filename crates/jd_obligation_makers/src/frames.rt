//! That the heap is as it was, but for what may be assigned.

ghost use Rattle.std.specs.Prelude.{◌≡◌, ◌++◌, OnOk, map};
ghost use Rattle.jd_model.specs.Conjunctions.{frame, same_select};
ghost use Rattle.jd_model.specs.SpecialNames.{entry_heap};
ghost use Rattle.jd_oblig.specs.CaseObligations.{frame_members};
ghost use Rattle.jd_obligation_makers.specs.Frames.{is_all, was_created};
ghost use Rattle.jd_term.specs.Formulas as plain;
ghost use Rattle.jd_term.specs.Formulas.{PlainFormula, formula_view};
ghost use Rattle.jd_term.specs.Makers.{GivesBoxedFormula, GivesFormula, GivesTerm};
ghost use Rattle.jd_term.specs.Shifts.{LocFits};
ghost use Rattle.jd_term.specs.Terms.{Bound, Constant};
ghost use Rattle.jd_term.specs.TermViews.{loc_view};
ghost use Rattle.jd_base.specs.declared.sort.Sort.TheVariants as sorts;

use jd_base::{NoMemory, Sort};
use jd_row_makers::{Moment, add, and, created, equal, heap, or};
use jd_term::{Formula, Loc, Term, in_locations, select, shift_loc};
use std::alloc::Global;

// The formula in a box.
fn boxed(alloc: Global, f: Result<Formula, NoMemory>) -> Result<Box<Formula>, NoMemory>
    ensures { (x : PlainFormula) → GivesFormula f x → GivesBoxedFormula result x }
{
    Ok(Box::new(alloc, f?)?)
}

/// `(not a)`
pub(crate) fn not(alloc: Global, a: Result<Formula, NoMemory>) -> Result<Formula, NoMemory>
    ensures { (x : PlainFormula) → GivesFormula a x → GivesFormula result (plain.Not x) }
{
    Ok(Formula::Not(boxed(alloc, a)?))
}

// `(forall s a)`
fn forall(alloc: Global, sort: Sort, a: Result<Formula, NoMemory>) -> Result<Formula, NoMemory>
    ensures { (x : PlainFormula) → GivesFormula a x → GivesFormula result (plain.Forall sort x) }
{
    Ok(Formula::Forall(sort, boxed(alloc, a)?))
}

// The object that is spoken of.
fn object() -> Result<Term, NoMemory>
    ensures { GivesTerm result (Bound 1 sorts.Ref) }
{
    Ok(Term::Bound(1, Sort::Ref))
}

// Its field.
fn field() -> Result<Term, NoMemory>
    ensures { GivesTerm result (Bound 0 sorts.Field) }
{
    Ok(Term::Bound(0, Sort::Field))
}

// That the location has the value of the sort that it had.
fn is_same(alloc: Global, sort: Sort) -> Result<Formula, NoMemory>
    ensures { GivesFormula result (same_select sort (Constant entry_heap)) }
{
    equal(
        select(alloc, sort, heap(alloc, Moment::End), object(), field()),
        select(alloc, sort, heap(alloc, Moment::Entry), object(), field()),
    )
}

// That it has the value of each sort.
fn are_same(alloc: Global) -> Result<Formula, NoMemory>
    ensures { GivesFormula result (plain.And (same_select sorts.Int (Constant entry_heap)) (plain.And (same_select sorts.Bool (Constant entry_heap)) (same_select sorts.Ref (Constant entry_heap)))) }
{
    and(
        alloc,
        is_same(alloc, Sort::Int),
        and(alloc, is_same(alloc, Sort::Bool), is_same(alloc, Sort::Ref)),
    )
}

// That the object was not created before.
fn is_new(alloc: Global) -> Result<Formula, NoMemory>
    ensures { GivesFormula result (plain.Not was_created) }
{
    not(alloc, created(alloc, heap(alloc, Moment::Entry), object()))
}

// That the heap is as it was at each location outside of these, of objects that were created.
fn is_kept(alloc: Global, l: &Loc) -> Result<Formula, NoMemory>
    requires { LocFits 0 2 (loc_view l.now) }
    ensures { GivesFormula result (frame (loc_view l.now) (Constant entry_heap)) }
{
    let outside = or(alloc, is_new(alloc), are_same(alloc));
    let inside = in_locations(object(), field(), shift_loc(alloc, l, 0, 2));
    forall(
        alloc,
        Sort::Ref,
        forall(alloc, Sort::Field, or(alloc, inside, outside)),
    )
}

// Whether these are all locations.
fn are_all(l: &Loc) -> bool
    ensures { result ≡ is_all (loc_view l.now) }
{
    match l {
        Loc::NoLocations => false,
        Loc::AllLocations => true,
        Loc::Single(_, _) => false,
        Loc::ObjectFields(_) => false,
        Loc::ArrayElements(_) => false,
        Loc::ElementRange(_, _, _) => false,
        Loc::Union(_, _) => false,
    }
}

/// Adds that the heap is as it was but for these locations; of all there is nothing to say.
pub(crate) fn add_frame(alloc: Global, to: &mut Vec<Formula>, l: &Loc) -> Result<(), NoMemory>
    requires { LocFits 0 2 (loc_view l.now) }
    ensures { OnOk result (map formula_view to.new.items ≡ map formula_view to.old.items ++ frame_members (loc_view l.now)) }
{
    if are_all(l) {
        Ok(())
    } else {
        add(to, is_kept(alloc, l))
    }
}
