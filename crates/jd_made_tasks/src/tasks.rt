//! The tables and the obligation of a program.

ghost use Rattle.std.specs.Prelude.{◌≡◌, IfOk, List, length, true};
ghost use Rattle.jd_classes.specs.Tables.{AreTables};
ghost use Rattle.jd_classes.specs.declared.classes.Classes.{Classes as Tables};
ghost use Rattle.jd_first_form.specs.Forms.{is_first_form};
ghost use Rattle.jd_first_tasks.specs.Tasks.{IsFirstTask};
ghost use Rattle.jd_jml_meaning.specs.JmlCases.{JmlProgram};
ghost use Rattle.jd_made_tasks.specs.Answers.{IsFirstAnswer, made_view};
ghost use Rattle.jd_made_tasks.specs.Tabled.{AreOfForm, AreTabled, IsOfForm};
ghost use Rattle.jd_model.specs.ContractForms.{contracts_view};
ghost use Rattle.jd_programs.specs.Programs.{IsProgram};
ghost use Rattle.jd_refusals.specs.Resolving.{AreResolved};
ghost use Rattle.jd_syntax.specs.JavaTrees.{JavaUnit};

use crate::contracts::contracts;
use crate::first::first_obligation;
use jd_base::NoMemory;
use jd_classes::Classes;
use jd_declaration_laws::declarations_are_one;
use jd_declared::Declared;
use jd_first_form::is_first_form;
use jd_invariant_laws::invariants_are_resolved;
use jd_jml_formulas::Unmade;
use jd_large_obligations::large_clauses_make_large_sequents;
use jd_lists::discard;
use jd_model::Contracts;
use jd_naming::Declares;
use jd_program_laws::{programs_have_meanings, tables_are_classes};
use jd_refusals::Resolved;
use jd_sequent::{Obligation, is_within_limits};
use std::alloc::Global;

/// The tables of a program and its obligation.
#[derive(Drop)]
pub struct Made {
    /// Its contracts, invariants and bodies.
    pub contracts: Contracts,
    /// What is to be proved.
    pub obligation: Obligation,
}

/// What is made of a program.
#[derive(Drop)]
pub enum FirstTask {
    /// Its task, whose sequent is within the limits.
    Task(Made),
    /// None: the program is of a form that has no obligation yet.
    OtherForm,
    /// None: its sequent would be past a limit.
    TooLarge,
}

// A task, where its sequent is within the limits.
fn within(made: Made) -> FirstTask
    ensures { (c : Tables) (units : List JavaUnit) → IsFirstTask units (made_view c made) → IsFirstAnswer units c result }
{
    if is_within_limits(&made.obligation.sequent) {
        FirstTask::Task(made)
    } else {
        discard(made);
        FirstTask::TooLarge
    }
}

// What is made of a program of the form with these tables.
fn with_contracts(
    alloc: Global,
    classes: &Classes,
    contracts: Contracts,
) -> Result<FirstTask, NoMemory>
    requires { AreOfForm classes.now (contracts_view contracts) }
    ensures { (units : List JavaUnit) (j : JmlProgram) (is : IsProgram units j) → AreTables units classes.now → is_first_form is.declarations units ≡ true → AreTabled units j is (contracts_view contracts) → IfOk result (IsFirstAnswer units classes.now) }
{
    match first_obligation(alloc, classes, &contracts) {
        Ok(Some(obligation)) => Ok(within(Made {
            contracts,
            obligation,
        })),
        Ok(None) => {
            discard(contracts);
            Ok(FirstTask::OtherForm)
        }
        Err(NoMemory) => {
            discard(contracts);
            Err(NoMemory)
        }
    }
}

// What is made of a program of the form.
fn of_form<D: Declares>(
    alloc: Global,
    d: &D,
    classes: &Classes,
    resolved: &Resolved,
) -> Result<FirstTask, NoMemory>
    requires { IsOfForm (D.declarations d.now) classes.now resolved.now }
    ensures { (units : List JavaUnit) (j : JmlProgram) (is : IsProgram units j) → AreTables units classes.now → AreResolved units resolved.now → is.declarations ≡ D.declarations d.now → is_first_form is.declarations units ≡ true → IfOk result (IsFirstAnswer units classes.now) }
{
    tables_are_classes();
    invariants_are_resolved();
    large_clauses_make_large_sequents();
    match contracts(alloc, d, classes, resolved) {
        Ok(contracts) => with_contracts(alloc, classes, contracts),
        Err(Unmade::TooLarge) => Ok(FirstTask::TooLarge),
        Err(Unmade::NoMemory) => Err(NoMemory),
    }
}

/// The task of a program of so many files, where it is of a form that has an obligation by now.
///
/// # Errors
///
/// `NoMemory` if memory runs out.
pub fn first_task(
    alloc: Global,
    files: usize,
    classes: &Classes,
    resolved: &Resolved,
) -> Result<FirstTask, NoMemory>
    requires { (units : List JavaUnit) × AreTables units classes.now × (files ≡ length units) × AreResolved units resolved.now }
    ensures { (units : List JavaUnit) → AreTables units classes.now → files ≡ length units → AreResolved units resolved.now → IfOk result (IsFirstAnswer units classes.now) }
{
    declarations_are_one();
    programs_have_meanings();
    if !is_first_form(files, classes, &resolved.bodies.bodies, &resolved.specs) {
        return Ok(FirstTask::OtherForm);
    }
    match Declared::of(alloc, classes) {
        Err(NoMemory) => Err(NoMemory),
        Ok(declared) => of_form(alloc, &declared, classes, resolved),
    }
}
