//! The terms by which rows speak of the heap, the receiver, the result and what is thrown.

ghost use Rattle.std.specs.Prelude.{◌≡◌, IfOk};
ghost use Rattle.jd_syntax.specs.CodeNames.{heap_name};
ghost use Rattle.jd_syntax.specs.Names.{Name, var_view};
ghost use Rattle.jd_model.specs.SpecialNames.{receiver, result_variable, thrown_variable};
ghost use Rattle.jd_row_makers.specs.Terms.{heap_at, subject_term};
ghost use Rattle.jd_term.specs.Makers.{GivesTerm};
ghost use Rattle.jd_term.specs.Terms.{Constant, ProgramVariable};
ghost use Rattle.jd_term.specs.TermViews.{const_view};

use jd_base::{NoMemory, Sort, copy_bytes};
use jd_syntax::VarId;
use jd_term::{ConstId, Term};
use std::alloc::Global;

/// When a row's member is true.
#[derive(Clone, Copy)]
pub enum Moment {
    /// At the entry.
    Entry,
    /// Where the method has ended.
    End,
}

/// What has a declared type.
#[derive(Clone, Copy)]
pub(crate) enum Subject<'a> {
    /// The value of a parameter.
    Parameter(&'a ConstId),
    /// The result, of this sort.
    Result(Sort),
}

// The variable of this name.
fn named(alloc: Global, name: &[u8], sort: Sort) -> Result<VarId, NoMemory>
    ensures { IfOk result (λ v. var_view v ≡ record { text = name.now; sort = sort }) }
{
    let name = copy_bytes(alloc, name)?;
    Ok(VarId { name, sort })
}

/// The heap's variable.
pub fn heap_variable(alloc: Global) -> Result<VarId, NoMemory>
    ensures { IfOk result (λ v. var_view v ≡ heap_name) }
{
    named(alloc, b"@heap", Sort::Heap)
}

/// The variable of what was thrown.
pub fn thrown_variable(alloc: Global) -> Result<VarId, NoMemory>
    ensures { IfOk result (λ v. var_view v ≡ thrown_variable) }
{
    named(alloc, b"@rexc", Sort::Ref)
}

/// The variable of a result of this sort.
pub fn result_variable(alloc: Global, sort: Sort) -> Result<VarId, NoMemory>
    ensures { IfOk result (λ v. var_view v ≡ result_variable sort) }
{
    match sort {
        Sort::Int => named(alloc, b"@ires", Sort::Int),
        Sort::Bool => named(alloc, b"@bres", Sort::Bool),
        Sort::Ref => named(alloc, b"@rres", Sort::Ref),
        Sort::Heap => named(alloc, b"@hres", Sort::Heap),
        Sort::Field => named(alloc, b"@fres", Sort::Field),
    }
}

// The variable as a term.
fn read(v: Result<VarId, NoMemory>) -> Result<Term, NoMemory>
    ensures { (x : Name) → IfOk v (λ w. var_view w ≡ x) → GivesTerm result (ProgramVariable x) }
{
    Ok(Term::ProgramVariable(v?))
}

// The constant of this name.
fn constant(alloc: Global, name: &[u8], sort: Sort) -> Result<Term, NoMemory>
    ensures { GivesTerm result (Constant (record { text = name.now; sort = sort })) }
{
    let name = copy_bytes(alloc, name)?;
    Ok(Term::Constant(ConstId { name, sort }))
}

/// The heap at this time.
pub fn heap(alloc: Global, at: Moment) -> Result<Term, NoMemory>
    ensures { GivesTerm result (heap_at at) }
{
    match at {
        Moment::Entry => constant(alloc, b"#hpre", Sort::Heap),
        Moment::End => read(heap_variable(alloc)),
    }
}

/// The receiver.
pub fn receiver(alloc: Global) -> Result<Term, NoMemory>
    ensures { GivesTerm result (Constant receiver) }
{
    constant(alloc, b"#r_this", Sort::Ref)
}

/// What was thrown.
pub fn thrown(alloc: Global) -> Result<Term, NoMemory>
    ensures { GivesTerm result (ProgramVariable thrown_variable) }
{
    read(thrown_variable(alloc))
}

// A copy of the constant.
fn constant_of(alloc: Global, c: &ConstId) -> Result<Term, NoMemory>
    ensures { GivesTerm result (Constant (const_view c.now)) }
{
    let c = c.copy(alloc)?;
    Ok(Term::Constant(c))
}

/// The term of what has a declared type.
pub(crate) fn term_of(alloc: Global, s: Subject<'_>) -> Result<Term, NoMemory>
    ensures { GivesTerm result (subject_term s.entry) }
{
    match s {
        Subject::Parameter(c) => constant_of(alloc, c),
        Subject::Result(sort) => read(result_variable(alloc, sort)),
    }
}
