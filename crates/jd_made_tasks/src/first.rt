//! The obligation of the first case.

ghost use Rattle.std.specs.Prelude.{◌≡◌, IfOk, List, MatchOption, true};
ghost use Rattle.jd_classes.specs.Tables.{AreTables};
ghost use Rattle.jd_first_form.specs.Forms.{is_first_form};
ghost use Rattle.jd_first_tasks.specs.Tasks.{IsFirstTask};
ghost use Rattle.jd_jml_meaning.specs.JmlCases.{JmlProgram};
ghost use Rattle.jd_made_tasks.specs.Tabled.{AreOfForm, AreTabled};
ghost use Rattle.jd_model.specs.ContractForms.{contracts_view};
ghost use Rattle.jd_programs.specs.Programs.{IsProgram};
ghost use Rattle.jd_sequent.specs.Obligations.{PlainTask, obligation_view};
ghost use Rattle.jd_syntax.specs.JavaTrees.{JavaUnit};
ghost use Rattle.jd_task_classes.specs.Classes.{classes_view};

use jd_base::{NoMemory, Sort};
use jd_case_obligations::{Running, Untold, obligation};
use jd_classes::Classes;
use jd_declaration_laws::declarations_are_one;
use jd_frame_laws::frames_fit;
use jd_model::Contracts;
use jd_one_program::programs_are_one;
use jd_program_laws::tables_are_classes;
use jd_program_tables::listed_tables_are_made;
use jd_sequent::Obligation;
use std::alloc::Global;

/// The obligation of the first case of a program that has one by now; none where there is no case.
///
/// # Errors
///
/// `NoMemory` if memory runs out.
pub(crate) fn first_obligation(
    alloc: Global,
    classes: &Classes,
    contracts: &Contracts,
) -> Result<Option<Obligation>, NoMemory>
    requires { AreOfForm classes.now (contracts_view contracts.now) }
    ensures { (units : List JavaUnit) (j : JmlProgram) (is : IsProgram units j) → AreTables units classes.now → is_first_form is.declarations units ≡ true → AreTabled units j is (contracts_view contracts.now)
        → IfOk result (λ r. MatchOption r ((q : PlainTask) → IsFirstTask units q → ⊥) (λ o. IsFirstTask units (record { classes = classes_view classes.now; contracts = contracts_view contracts.now; obligation = obligation_view o }))) }
{
    tables_are_classes();
    declarations_are_one();
    programs_are_one();
    listed_tables_are_made();
    frames_fit();
    let cases = contracts.cases.as_slice();
    let bodies = contracts.bodies.as_slice();
    if cases.len() == 0 {
        return Ok(None);
    }
    if bodies.len() == 0 {
        return Ok(None);
    }
    let row = &cases[0];
    let body = &bodies[0];
    let untold = Untold {
        result: Some(Sort::Int),
        keeps_invariant: false,
    };
    let running = Running {
        has_receiver: false,
        parameters: body.params as usize,
        variables: &body.vars,
        code: &body.code,
    };
    Ok(Some(obligation(alloc, classes, row, untold, running, Vec::new(alloc))?))
}
