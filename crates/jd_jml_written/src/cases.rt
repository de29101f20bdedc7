//! The cases that are written at a method or constructor.

ghost use Rattle.std.specs.Prelude.{◌≡◌, ◌++◌, ◌∷◌, [], IfOk, List, Some, map};
ghost use Rattle.jd_jml_written.specs.Marked as marked;
ghost use Rattle.jd_jml_written.specs.Parts as parts;
ghost use Rattle.jd_jml_written.specs.Views.{case_view, current_view, ended_by, marks_view};
ghost use Rattle.jd_specifications.specs.WrittenCases.{more};
ghost use Rattle.jd_syntax.specs.JavaTrees.{method_view};
ghost use Rattle.jd_syntax.specs.SpecTrees.{PlainClause, clause_view};

use crate::marks::marks_of;
use jd_base::{MethodId, NoMemory, both};
use jd_jml_copies::copy_clause;
use jd_lists::ended;
use jd_syntax::{ClauseForm, Marks, MethodDecl, SpecCase, SpecClause};
use std::alloc::Global;

// What a clause or word is to the cases of a contract.
#[derive(Clone, Copy)]
enum Part {
    // It begins another.
    Next,
    // It is of one.
    Clause,
    // It is of none.
    Word,
}

fn part_of(c: &SpecClause) -> Part
    ensures { result ≡ parts.part_of (clause_view c.now) }
{
    match &c.form {
        ClauseForm::Also => Part::Next,
        ClauseForm::Requires(_)
        | ClauseForm::Ensures(_)
        | ClauseForm::Signals(_, _, _)
        | ClauseForm::SignalsOnly(_)
        | ClauseForm::Assignable(_)
        | ClauseForm::MeasuredBy(_)
        | ClauseForm::Diverges(_)
        | ClauseForm::NormalBehavior
        | ClauseForm::ExceptionalBehavior
        | ClauseForm::Behavior => Part::Clause,
        ClauseForm::LoopInvariant(_)
        | ClauseForm::Decreases(_)
        | ClauseForm::Invariant(_)
        | ClauseForm::Pure
        | ClauseForm::Helper
        | ClauseForm::Nullable
        | ClauseForm::NonNull
        | ClauseForm::SpecPublic
        | ClauseForm::SpecProtected => Part::Word,
    }
}

// The cases so far, and that which has begun.
#[derive(Drop)]
pub(crate) struct Sofar {
    pub(crate) done: Vec<SpecCase>,
    pub(crate) current: Option<Vec<SpecClause>>,
}

// The declaration at which cases are written.
#[derive(Clone, Copy)]
struct Declaration<'a> {
    number: MethodId,
    method: &'a MethodDecl,
}

// A case of the declaration.
fn case_with(
    declared: MethodId,
    marks: Result<Marks, NoMemory>,
    clauses: Vec<SpecClause>,
) -> Result<SpecCase, NoMemory>
    ensures { (m : marked.PlainMarks) → IfOk marks (λ v. marks_view v ≡ m) → IfOk result (λ v. case_view v ≡ marked.case_of declared.0 m (map clause_view clauses.items)) }
{
    let (marks, clauses) = both(marks, Ok(clauses))?;
    Ok(SpecCase {
        declared,
        marks,
        clauses,
    })
}

// The cases with that which has begun.
fn with_current(alloc: Global, at: Declaration<'_>, sofar: Sofar) -> Result<Vec<SpecCase>, NoMemory>
    ensures { IfOk result (λ v. map case_view v.items ≡ ended_by at.entry.number.0 (marked.marks_of (method_view at.entry.method.now)) sofar []) }
{
    let Sofar { done, current } = sofar;
    match current {
        None => Ok(done),
        Some(clauses) => ended(
            done,
            case_with(at.number, marks_of(alloc, at.method), clauses),
        ),
    }
}

// The clauses of the case that has begun, with one more.
fn with_clause(
    alloc: Global,
    current: Option<Vec<SpecClause>>,
    c: &SpecClause,
) -> Result<Vec<SpecClause>, NoMemory>
    ensures { IfOk result (λ v. Some (map clause_view v.items) ≡ more (current_view current) (clause_view c.now)) }
{
    match current {
        None => ended(Vec::new(alloc), copy_clause(alloc, c)),
        Some(clauses) => ended(clauses, copy_clause(alloc, c)),
    }
}

// The cases behind a clause or word: what is left of the contract comes to the same.
fn next(alloc: Global, at: Declaration<'_>, sofar: Sofar, c: &SpecClause) -> Result<Sofar, NoMemory>
    ensures { IfOk result (λ s. (cs : List PlainClause) → ended_by at.entry.number.0 (marked.marks_of (method_view at.entry.method.now)) sofar (clause_view c.now ∷ cs) ≡ ended_by at.entry.number.0 (marked.marks_of (method_view at.entry.method.now)) s cs) }
{
    match part_of(c) {
        Part::Word => Ok(sofar),
        Part::Next => Ok(Sofar {
            done: with_current(alloc, at, sofar)?,
            current: None,
        }),
        Part::Clause => {
            let Sofar { done, current } = sofar;
            let (done, current) = both(Ok(done), with_clause(alloc, current, c))?;
            Ok(Sofar {
                done,
                current: Some(current),
            })
        }
    }
}

fn behind(
    alloc: Global,
    at: Declaration<'_>,
    sofar: Sofar,
    cs: &[SpecClause],
) -> Result<Sofar, NoMemory>
    ensures { IfOk result (λ s. (rest : List PlainClause) → ended_by at.entry.number.0 (marked.marks_of (method_view at.entry.method.now)) sofar (map clause_view cs.now ++ rest) ≡ ended_by at.entry.number.0 (marked.marks_of (method_view at.entry.method.now)) s rest) }
{
    let mut sofar = sofar;
    for c in cs {
        sofar = next(alloc, at, sofar, c)?;
    }
    Ok(sofar)
}

/// The cases that are written at a method or constructor, in the order of the text (JML Reference Manual, 9.3).
///
/// # Errors
///
/// `NoMemory`.
pub fn own_cases(
    alloc: Global,
    number: MethodId,
    method: &MethodDecl,
) -> Result<Vec<SpecCase>, NoMemory>
    ensures { IfOk result (λ v. map case_view v.items ≡ marked.own_cases number.0 (method_view method.now)) }
{
    let at = Declaration { number, method };
    let mut sofar = Sofar {
        done: Vec::new(alloc),
        current: None,
    };
    for b in &method.specs {
        sofar = behind(alloc, at, sofar, &b.clauses)?;
    }
    with_current(alloc, at, sofar)
}
