//! The obligation of a case.

ghost use Rattle.std.specs.Prelude.{◌≡◌, ◌<◌, IfOk, List, Ok, Option, ℕ, map, not, option_map, take};
ghost use Rattle.jd_case_obligations.specs.Listed as plain;
ghost use Rattle.jd_case_obligations.specs.Listed.{case_obligation};
ghost use Rattle.jd_case_obligations.specs.Running.{IsRunning, IsUntold};
ghost use Rattle.jd_case_rows.specs.Rows.{row_of, spelled_for};
ghost use Rattle.jd_classes.specs.Tables.{AreTables, method_count_of};
ghost use Rattle.jd_jml_meaning.specs.ContractFormulas.{contract_of};
ghost use Rattle.jd_jml_meaning.specs.JmlCases.{JmlCase};
ghost use Rattle.jd_model.specs.Cases.{Contract};
ghost use Rattle.jd_model.specs.ContractForms.{case_view};
ghost use Rattle.jd_model.specs.Programs.{Body, Program};
ghost use Rattle.jd_model.specs.Tables.{receiver_then};
ghost use Rattle.jd_oblig.specs.KeptByObligations.{sort_of_result};
ghost use Rattle.jd_obligation_makers.specs.Parts.{has_name};
ghost use Rattle.jd_obligation_makers.specs.Starts.{decl_name};
ghost use Rattle.jd_row_makers.specs.Heads.{declared_view, role_view};
ghost use Rattle.jd_row_makers.specs.Rows.{IsHead};
ghost use Rattle.jd_sequent.specs.Obligations.{loop_view, obligation_view};
ghost use Rattle.jd_syntax.specs.JavaTrees.{JavaUnit};
ghost use Rattle.jd_syntax.specs.Names.{Name, decl_view};
ghost use Rattle.jd_term.specs.Shifts.{LocFits};
ghost use Rattle.jd_term.specs.TermViews.{loc_view};

use crate::constants::constants;
use crate::names::obligation_name;
use jd_base::{ConstDecl, NoMemory, Sort};
use jd_classes::Classes;
use jd_lists::{discard, put};
use jd_model::{CaseForm, Sequent};
use jd_obligation_makers::{Run, sequent};
use jd_row_makers::{DeclaredType, Head, Role, sort_of_type};
use jd_sequent::{LoopForm, Obligation};
use jd_syntax::{Code, VarDecl};
use std::alloc::Global;

/// The body that runs for a case.
#[derive(Clone, Copy)]
pub struct Running<'a> {
    /// Whether the first of its variables is the receiver.
    pub has_receiver: bool,
    /// How many of its variables are the receiver, where there is one, and the parameters.
    pub parameters: usize,
    /// Its variables: the receiver, where there is one, the parameters, the locals.
    pub variables: &'a [VarDecl],
    /// What it does.
    pub code: &'a Code,
}

/// What the row of a case does not tell of its obligation.
#[derive(Clone, Copy)]
pub struct Untold {
    /// The sort of the method's result, where it has one.
    pub result: Option<Sort>,
    /// Whether the receiver's invariant is asked of each end.
    pub keeps_invariant: bool,
}

// ---- what is asked of the body and of the head

// The first so many variables.
fn first_of(variables: &[VarDecl], count: usize) -> &[VarDecl]
    ensures { result.now ≡ take count variables.now }
{
    if count < variables.len() {
        variables.split_at(count).0
    } else {
        variables
    }
}

// The parameters, where these are the receiver, if there is one, and they.
fn parameters_of(has_receiver: bool, variables: &[VarDecl]) -> &[VarDecl]
    ensures { (x : Option Name) (xs : List Name) → has_receiver ≡ has_name x → map decl_name variables.now ≡ receiver_then x xs → map decl_name result.now ≡ xs }
{
    if !has_receiver {
        return variables;
    }
    match variables.split_first() {
        None => variables,
        Some((_, parameters)) => parameters,
    }
}

// The sort of the result, where there is one.
fn sort_of_outcome(outcome: Option<DeclaredType>) -> Option<Sort>
    ensures { option_map sort_of_result (option_map declared_view outcome) ≡ result }
{
    match outcome {
        None => None,
        Some(t) => Some(sort_of_type(t.form)),
    }
}

// Whether the receiver's invariant is asked of each end.
fn keeps_invariant(role: Role) -> bool
    ensures { result ≡ plain.keeps_invariant (role_view role) }
{
    match role {
        Role::Ordinary => true,
        Role::Static => false,
        Role::Helper => false,
        Role::Constructor(_) => false,
    }
}

/// What the row does not tell, by what the declaration says of the case.
pub fn untold_of(head: &Head) -> Untold
    ensures { (k : Contract) → IsHead head.now k → IsUntold result k }
{
    Untold {
        result: sort_of_outcome(head.result),
        keeps_invariant: keeps_invariant(head.role),
    }
}

// A copy of the variables.
fn copies(alloc: Global, variables: &[VarDecl]) -> Result<Vec<VarDecl>, NoMemory>
    ensures { IfOk result (λ v. map decl_view v.items ≡ map decl_view variables.now) }
{
    let mut made = Vec::new(alloc);
    for v in variables {
        put(&mut made, v.copy(alloc)?)?;
    }
    Ok(made)
}

// ---- the whole

// Four parts, where memory sufficed for each.
fn four<A: Drop, B: Drop, C: Drop, D: Drop>(
    a: Result<A, NoMemory>,
    b: Result<B, NoMemory>,
    c: Result<C, NoMemory>,
    d: Result<D, NoMemory>,
) -> Result<(A, B, C, D), NoMemory>
    ensures { IfOk result (λ v. (a ≡ Ok v.0) × (b ≡ Ok v.1) × (c ≡ Ok v.2) × (d ≡ Ok v.3)) }
{
    Ok((a?, b?, c?, d?))
}

/// The obligation of a case, of its row, what the row does not tell, the body that runs and what is said of the loops in it: from each
/// state in which the row's entry holds, the body's run meets the row's ends (The KeY Book, 8.3).
///
/// # Errors
///
/// `NoMemory` if memory runs out.
pub fn obligation(
    alloc: Global,
    classes: &Classes,
    row: &CaseForm,
    untold: Untold,
    body: Running<'_>,
    loops: Vec<LoopForm>,
) -> Result<Obligation, NoMemory>
    requires method { row.now.method.0 < method_count_of classes.now }
    requires frame { LocFits 0 2 (loc_view row.now.frame) }
    ensures { (units : List JavaUnit) (p : Program) (fields : ℕ → List ℕ) (c : JmlCase) (b : Body)
        → AreTables units classes.now → case_view row.now ≡ row_of p fields c b → IsUntold untold (contract_of p (spelled_for b c.contract)) → IsRunning body.entry b
        → IfOk result (λ o. obligation_view o ≡ case_obligation units p fields c b (map decl_view body.entry.variables.now) (map loop_view loops.items)) }
{
    let arguments = first_of(body.variables, body.parameters);
    let run = Run {
        has_receiver: body.has_receiver,
        variables: arguments,
        result: untold.result,
        code: body.code,
        keeps_invariant: untold.keeps_invariant,
    };
    let made = four(
        obligation_name(alloc, classes, row.class, row.method, row.number),
        copies(alloc, body.variables),
        constants(alloc, parameters_of(body.has_receiver, arguments)),
        sequent(alloc, row, run),
    );
    match made {
        Ok((name, vars, consts, sequent)) => Ok(Obligation {
            name,
            class: row.class,
            method: row.method,
            case: row.number,
            vars,
            loops,
            consts,
            diamond: !row.diverges,
            sequent,
        }),
        Err(NoMemory) => {
            discard(loops);
            Err(NoMemory)
        }
    }
}
