//! The row of a case.

ghost use Rattle.std.specs.Prelude.{◌≡◌, ◌++◌, IfOk, ℕ, List, Ok, map};
ghost use Rattle.std.specs.Global.{Vec};
ghost use Rattle.jd_case_rows.specs.Rows.{entry_members, exceptional_members, invariant_members, normal_members, only_member, signalled_members};
ghost use Rattle.jd_model.specs.Cases.{Contract};
ghost use Rattle.jd_model.specs.ContractForms.{case_view};
ghost use Rattle.jd_model.specs.Programs.{Program};
ghost use Rattle.jd_row_makers.specs.Heads.{field_view};
ghost use Rattle.jd_row_makers.specs.Rows.{AreClauses, FieldsAre, GivesMembers, IsHead, row_with};
ghost use Rattle.jd_syntax.specs.CodeNames.{heap_name};
ghost use Rattle.jd_term.specs.Formulas.{PlainFormula, formula_view};
ghost use Rattle.jd_term.specs.Terms.{ProgramVariable};

use crate::ends::{before_ensures, before_signals, behind_ensures, behind_signals};
use crate::entry::{before_requires, behind_requires};
use crate::heads::{Clauses, FieldSort, Head};
use jd_base::{ClassId, MethodId, NoMemory, both};
use jd_lists::{appended, discard};
use jd_model::CaseForm;
use jd_term::Formula;
use std::alloc::Global;

/// Which case a row is of.
#[derive(Clone, Copy)]
pub struct CaseNumber {
    /// The method or constructor.
    pub method: MethodId,
    /// The exact class of the receiver.
    pub class: ClassId,
    /// The number of the case, from 1.
    pub number: u32,
}

// The items behind what has been made.
fn then<T: Drop>(first: Result<Vec<T>, NoMemory>, second: Vec<T>) -> Result<Vec<T>, NoMemory>
    ensures { IfOk result (λ v. (a : Vec T) × (first ≡ Ok a) × (v.items ≡ a.items ++ second.items)) }
{
    appended(first?, second)
}

// The members behind what has been made.
fn then_members(
    first: Result<Vec<Formula>, NoMemory>,
    second: Vec<Formula>,
) -> Result<Vec<Formula>, NoMemory>
    ensures { (x : List PlainFormula) → GivesMembers first x → GivesMembers result (x ++ map formula_view second.items) }
{
    then(first, second)
}

// The members that have been made behind others.
fn then_made(
    first: Result<Vec<Formula>, NoMemory>,
    second: Result<Vec<Formula>, NoMemory>,
) -> Result<Vec<Formula>, NoMemory>
    ensures { (x y : List PlainFormula) → GivesMembers first x → GivesMembers second y → GivesMembers result (x ++ y) }
{
    let (first, second) = both(first, second)?;
    appended(first, second)
}

// What is asked at the entry.
fn entry(
    alloc: Global,
    class: ClassId,
    fields: &[FieldSort],
    head: &Head,
    required: Vec<Formula>,
) -> Result<Vec<Formula>, NoMemory>
    ensures { (p : Program) (own : ℕ → List ℕ) (k : Contract) → IsHead head.now k → FieldsAre p own k.role (map field_view fields.now) → map formula_view required.items ≡ k.requires_ → GivesMembers result (entry_members p own class.0 k) }
{
    then_made(
        then_members(
            before_requires(alloc, head.role, class, &head.parameters),
            required,
        ),
        behind_requires(alloc, head.role, fields),
    )
}

// What is asked at a normal end.
fn exit(alloc: Global, head: &Head, ensured: Vec<Formula>) -> Result<Vec<Formula>, NoMemory>
    ensures { (k : Contract) → IsHead head.now k → map formula_view ensured.items ≡ k.ensures_ → GivesMembers result (normal_members k ++ invariant_members k.role (ProgramVariable heap_name)) }
{
    then_made(
        then_members(before_ensures(alloc, head.result), ensured),
        behind_ensures(alloc, head.role, head.behaviour),
    )
}

// What is asked where something was thrown.
fn exceptional(
    alloc: Global,
    throwable: ClassId,
    head: &Head,
    signals: Vec<Formula>,
    signals_only: Vec<Formula>,
) -> Result<Vec<Formula>, NoMemory>
    ensures { (p : Program) (k : Contract) → p.throwable ≡ throwable.0 → IsHead head.now k → map formula_view signals.items ≡ signalled_members k.signals → map formula_view signals_only.items ≡ map only_member k.signals_only → GivesMembers result (exceptional_members p k ++ invariant_members k.role (ProgramVariable heap_name)) }
{
    then_made(
        then_members(
            then_members(before_signals(alloc, throwable), signals),
            signals_only,
        ),
        behind_signals(alloc, head.role, head.behaviour),
    )
}

// Three lists, where memory sufficed for each.
fn three<T: Drop>(
    a: Result<Vec<T>, NoMemory>,
    b: Result<Vec<T>, NoMemory>,
    c: Result<Vec<T>, NoMemory>,
) -> Result<(Vec<T>, Vec<T>, Vec<T>), NoMemory>
    ensures { IfOk result (λ v. (a ≡ Ok v.0) × (b ≡ Ok v.1) × (c ≡ Ok v.2)) }
{
    Ok((a?, b?, c?))
}

/// The row of a case: its members at the entry and at each end, in the names of the body that runs (The KeY Book, 8.2; JML Reference
/// Manual, 8.2 and 9). The fields are those that a new object of the constructor's class has; of another method none matter.
///
/// # Errors
///
/// `NoMemory` if memory runs out.
pub fn case_form(
    alloc: Global,
    id: CaseNumber,
    throwable: ClassId,
    fields: &[FieldSort],
    head: &Head,
    clauses: Clauses,
) -> Result<CaseForm, NoMemory>
    ensures { (p : Program) (own : ℕ → List ℕ) (k : Contract) → p.throwable ≡ throwable.0 → IsHead head.now k → FieldsAre p own k.role (map field_view fields.now) → AreClauses clauses k → IfOk result (λ f. case_view f ≡ row_with p own id.method.0 id.class.0 id.number k) }
{
    let Clauses {
        required,
        ensured,
        signals,
        signals_only,
        assignable,
        measure,
    } = clauses;
    let made = three(
        entry(alloc, id.class, fields, head, required),
        exit(alloc, head, ensured),
        exceptional(alloc, throwable, head, signals, signals_only),
    );
    match made {
        Ok((entry, exit, exceptional)) => Ok(CaseForm {
            method: id.method,
            class: id.class,
            number: id.number,
            entry,
            exit,
            exceptional,
            frame: assignable,
            measure,
            diverges: head.diverges,
        }),
        Err(NoMemory) => {
            discard(assignable);
            discard(measure);
            Err(NoMemory)
        }
    }
}
