//! Copies of members, and their conjunction.

ghost use Rattle.std.specs.Prelude.{◌≡◌, ◌++◌, List, OnOk, map};
ghost use Rattle.jd_model.specs.Conjunctions.{conjunction};
ghost use Rattle.jd_row_makers.specs.Rows.{GivesMembers};
ghost use Rattle.jd_term.specs.Formulas.{PlainFormula, formula_view};
ghost use Rattle.jd_term.specs.Makers.{GivesFormula};

use jd_base::NoMemory;
use jd_lists::put;
use jd_row_makers::and;
use jd_term::{Formula, copy};
use std::alloc::Global;

/// Adds copies of the formulas.
pub(crate) fn add_copies(
    alloc: Global,
    to: &mut Vec<Formula>,
    members: &[Formula],
) -> Result<(), NoMemory>
    ensures { OnOk result (map formula_view to.new.items ≡ map formula_view to.old.items ++ map formula_view members.now) }
{
    for f in members {
        put(to, copy(alloc, f)?)?;
    }
    Ok(())
}

/// The conjunction of the members, grouped to the right.
///
/// # Errors
///
/// `NoMemory` if memory runs out.
pub fn conjoined(alloc: Global, members: Vec<Formula>) -> Result<Formula, NoMemory>
    ensures { GivesFormula result (conjunction (map formula_view members.items)) }
{
    let mut members = members;
    let Some(last) = members.pop() else {
        return Ok(Formula::TrueFormula);
    };
    let mut whole = last;
    while let Some(member) = members.pop() {
        whole = and(alloc, Ok(member), Ok(whole))?;
    }
    Ok(whole)
}

/// The same of members that have been made.
pub(crate) fn all_of(
    alloc: Global,
    members: Result<Vec<Formula>, NoMemory>,
) -> Result<Formula, NoMemory>
    ensures { (xs : List PlainFormula) → GivesMembers members xs → GivesFormula result (conjunction xs) }
{
    conjoined(alloc, members?)
}
