//! The sequent of an obligation.

ghost use Rattle.std.specs.Prelude.{◌≡◌, ◌∷◌, [], IfOk, Option};
ghost use Rattle.jd_model.specs.ContractForms.{case_view};
ghost use Rattle.jd_model.specs.Programs.{Body};
ghost use Rattle.jd_model.specs.Sequents.{sequent_view};
ghost use Rattle.jd_oblig.specs.CaseObligations.{ObligationParts, exit_formula, modality_of, obligation_sequent, run_code, start_pairs};
ghost use Rattle.jd_obligation_makers.specs.Parts.{AreParts, IsRun};
ghost use Rattle.jd_term.specs.Formulas.{Modal, PlainFormula, Updated};
ghost use Rattle.jd_term.specs.Makers.{GivesFormula};
ghost use Rattle.jd_term.specs.Shifts.{LocFits};
ghost use Rattle.jd_term.specs.TermViews.{loc_view};

use crate::entry::entry;
use crate::exit::exit;
use crate::runs::{run, start};
use jd_base::{NoMemory, Sort, both};
use jd_lists::alone;
use jd_model::{CaseForm, Sequent};
use jd_syntax::{Code, VarDecl};
use jd_term::{Formula, Modality, modal, updated};
use std::alloc::Global;

/// The body that runs for a case.
#[derive(Clone, Copy)]
pub struct Run<'a> {
    /// Whether the first of its variables is the receiver.
    pub has_receiver: bool,
    /// The receiver, where there is one, and the parameters.
    pub variables: &'a [VarDecl],
    /// The sort of the result, where there is one.
    pub result: Option<Sort>,
    /// What it does.
    pub code: &'a Code,
    /// Whether the receiver's invariant is asked of each end; it is the last member of both.
    pub keeps_invariant: bool,
}

// A box where the run may go on for ever.
fn modality(diverges: bool) -> Modality
    ensures { result ≡ modality_of diverges }
{
    if diverges {
        Modality::Necessity
    } else {
        Modality::Possibility
    }
}

// What is to be shown.
fn shown(alloc: Global, row: &CaseForm, body: Run<'_>) -> Result<Formula, NoMemory>
    requires { LocFits 0 2 (loc_view row.now.frame) }
    ensures { (b : Body) (o : ObligationParts) → IsRun body.entry b → AreParts (case_view row.now) body.entry o
        → GivesFormula result (Updated (start_pairs b) (Modal (modality_of row.now.diverges) (run_code o.result b) (exit_formula (case_view row.now) o))) }
{
    updated(
        alloc,
        start(alloc, body.has_receiver, body.variables),
        modal(
            alloc,
            modality(row.diverges),
            run(alloc, body.result, body.code),
            exit(alloc, row, body.keeps_invariant),
        ),
    )
}

// The sequent of one formula on each side.
fn of_two(
    alloc: Global,
    left: Result<Formula, NoMemory>,
    right: Result<Formula, NoMemory>,
) -> Result<Sequent, NoMemory>
    ensures { (x y : PlainFormula) → GivesFormula left x → GivesFormula right y → IfOk result (λ s. sequent_view s ≡ record { left = x ∷ []; right = y ∷ [] }) }
{
    let (left, right) = both(left, right)?;
    let (left, right) = both(alone(alloc, left), alone(alloc, right))?;
    Ok(Sequent { left, right })
}

/// The sequent of the obligation of a case: from each state in which its entry holds, the body's run meets its exit, and ends where the case
/// does not allow that it diverges (The KeY Book, 8.3).
///
/// # Errors
///
/// `NoMemory` if memory runs out.
pub fn sequent(alloc: Global, row: &CaseForm, body: Run<'_>) -> Result<Sequent, NoMemory>
    requires { LocFits 0 2 (loc_view row.now.frame) }
    ensures { (b : Body) (o : ObligationParts) → IsRun body.entry b → AreParts (case_view row.now) body.entry o → IfOk result (λ s. sequent_view s ≡ obligation_sequent (case_view row.now) b o) }
{
    of_two(alloc, entry(alloc, row), shown(alloc, row, body))
}
