//! What holds at the entry.

ghost use Rattle.std.specs.Prelude.{◌≡◌, ◌++◌, OnOk, map};
ghost use Rattle.jd_model.specs.ContractForms.{case_view};
ghost use Rattle.jd_model.specs.SpecialNames.{entry_measure};
ghost use Rattle.jd_oblig.specs.CaseObligations.{entry_formula, measure_members};
ghost use Rattle.jd_row_makers.specs.Rows.{GivesMembers};
ghost use Rattle.jd_term.specs.Formulas.{formula_view};
ghost use Rattle.jd_term.specs.Makers.{GivesFormula, GivesTerm};
ghost use Rattle.jd_term.specs.Terms.{Constant};
ghost use Rattle.jd_term.specs.TermViews.{term_view};

use crate::conjunctions::{add_copies, all_of};
use jd_base::{NoMemory, Sort, copy_bytes};
use jd_model::CaseForm;
use jd_row_makers::{add, equal};
use jd_term::{ConstId, Formula, Term};
use std::alloc::Global;

// The measure at the entry.
fn measure(alloc: Global) -> Result<Term, NoMemory>
    ensures { GivesTerm result (Constant entry_measure) }
{
    let name = copy_bytes(alloc, b"#im")?;
    Ok(Term::Constant(ConstId {
        name,
        sort: Sort::Int,
    }))
}

// Adds that the measure is what it is at the entry, where the run is to end.
fn add_measure(
    alloc: Global,
    to: &mut Vec<Formula>,
    diverges: bool,
    measured: &Term,
) -> Result<(), NoMemory>
    ensures { OnOk result (map formula_view to.new.items ≡ map formula_view to.old.items ++ measure_members diverges (term_view measured.now)) }
{
    if diverges {
        Ok(())
    } else {
        add(to, equal(measure(alloc), measured.copy(alloc)))
    }
}

// What holds at the entry, member by member.
fn entry_members(alloc: Global, row: &CaseForm) -> Result<Vec<Formula>, NoMemory>
    ensures { GivesMembers result ((case_view row.now).entry ++ measure_members row.now.diverges (term_view row.now.measure)) }
{
    let mut members = Vec::new(alloc);
    add_copies(alloc, &mut members, &row.entry)?;
    add_measure(alloc, &mut members, row.diverges, &row.measure)?;
    Ok(members)
}

/// What holds at the entry.
pub(crate) fn entry(alloc: Global, row: &CaseForm) -> Result<Formula, NoMemory>
    ensures { GivesFormula result (entry_formula (case_view row.now)) }
{
    all_of(alloc, entry_members(alloc, row))
}
