//! What holds where the run has ended.

ghost use Rattle.std.specs.Prelude.{◌≡◌, ◌++◌, List, OnOk, map};
ghost use Rattle.jd_model.specs.Conjunctions.{conjunction};
ghost use Rattle.jd_model.specs.ContractForms.{case_view};
ghost use Rattle.jd_oblig.specs.CaseObligations.{ObligationParts, exit_formula, invariant_members, none_thrown};
ghost use Rattle.jd_obligation_makers.specs.Exits.{end_members};
ghost use Rattle.jd_row_makers.specs.Rows.{GivesMembers};
ghost use Rattle.jd_term.specs.Formulas as plain;
ghost use Rattle.jd_term.specs.Formulas.{PlainFormula, formula_view};
ghost use Rattle.jd_term.specs.Makers.{GivesFormula};
ghost use Rattle.jd_term.specs.Shifts.{LocFits};
ghost use Rattle.jd_term.specs.TermViews.{loc_view};

use crate::conjunctions::{add_copies, all_of};
use crate::frames::{add_frame, not};
use jd_base::NoMemory;
use jd_model::CaseForm;
use jd_row_makers::{Moment, add, equal, heap, implies, invariant, receiver, thrown, well_formed};
use jd_term::{Formula, Loc, Term};
use std::alloc::Global;

// The members of an end but the receiver's invariant, which comes last where it is kept.
fn own(members: &[Formula], keeps: bool) -> &[Formula]
    ensures { (xs : List PlainFormula) → map formula_view members.now ≡ xs ++ invariant_members keeps → map formula_view result.now ≡ xs }
{
    if !keeps {
        return members;
    }
    match members.split_last() {
        None => members,
        Some((_, rest)) => rest,
    }
}

// What an end is asked for alone.
fn asked(alloc: Global, members: &[Formula], keeps: bool) -> Result<Vec<Formula>, NoMemory>
    ensures { (xs : List PlainFormula) → map formula_view members.now ≡ xs ++ invariant_members keeps → GivesMembers result xs }
{
    let mut made = Vec::new(alloc);
    add_copies(alloc, &mut made, own(members, keeps))?;
    Ok(made)
}

// That nothing was thrown.
fn is_normal(alloc: Global) -> Result<Formula, NoMemory>
    ensures { GivesFormula result none_thrown }
{
    equal(thrown(alloc), Ok(Term::NullTerm))
}

// What is asked of a normal end.
fn normal(alloc: Global, members: &[Formula], keeps: bool) -> Result<Formula, NoMemory>
    ensures { (xs : List PlainFormula) → map formula_view members.now ≡ xs ++ invariant_members keeps → GivesFormula result (plain.Implies none_thrown (conjunction xs)) }
{
    implies(
        alloc,
        is_normal(alloc),
        all_of(alloc, asked(alloc, members, keeps)),
    )
}

// What is asked of an exceptional end.
fn exceptional(alloc: Global, members: &[Formula], keeps: bool) -> Result<Formula, NoMemory>
    ensures { (xs : List PlainFormula) → map formula_view members.now ≡ xs ++ invariant_members keeps → GivesFormula result (plain.Implies (plain.Not none_thrown) (conjunction xs)) }
{
    implies(
        alloc,
        not(alloc, is_normal(alloc)),
        all_of(alloc, asked(alloc, members, keeps)),
    )
}

// Adds the receiver's invariant, where it is kept.
fn add_kept(alloc: Global, to: &mut Vec<Formula>, keeps: bool) -> Result<(), NoMemory>
    ensures { OnOk result (map formula_view to.new.items ≡ map formula_view to.old.items ++ invariant_members keeps) }
{
    if keeps {
        add(to, invariant(heap(alloc, Moment::End), receiver(alloc)))
    } else {
        Ok(())
    }
}

// What holds at the end, where this is asked of each.
fn ended(
    alloc: Global,
    normal: Result<Formula, NoMemory>,
    exceptional: Result<Formula, NoMemory>,
    keeps: bool,
    l: &Loc,
) -> Result<Vec<Formula>, NoMemory>
    requires { LocFits 0 2 (loc_view l.now) }
    ensures { (x y : PlainFormula) → GivesFormula normal x → GivesFormula exceptional y → GivesMembers result (end_members x y keeps (loc_view l.now)) }
{
    let mut members = Vec::new(alloc);
    add(&mut members, well_formed(heap(alloc, Moment::End)))?;
    add(&mut members, normal)?;
    add(&mut members, exceptional)?;
    add_kept(alloc, &mut members, keeps)?;
    add_frame(alloc, &mut members, l)?;
    Ok(members)
}

/// What holds at the end.
pub(crate) fn exit(alloc: Global, row: &CaseForm, keeps: bool) -> Result<Formula, NoMemory>
    requires { LocFits 0 2 (loc_view row.now.frame) }
    ensures { (o : ObligationParts) → o.keeps_invariant ≡ keeps → (case_view row.now).exit ≡ o.normal ++ invariant_members keeps → (case_view row.now).exceptional ≡ o.exceptional ++ invariant_members keeps → GivesFormula result (exit_formula (case_view row.now) o) }
{
    all_of(
        alloc,
        ended(
            alloc,
            normal(alloc, &row.exit, keeps),
            exceptional(alloc, &row.exceptional, keeps),
            keeps,
            &row.frame,
        ),
    )
}
