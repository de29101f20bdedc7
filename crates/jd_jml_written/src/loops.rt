//! What JML says of the loops of a body.

ghost use Rattle.std.specs.Prelude.{◌≡◌, ◌++◌, ◌∷◌, [], IfOk, OnOk, flat_map, map, option_map};
ghost use Rattle.std.specs.List.{slice_get};
ghost use Rattle.jd_jcalls.specs.Handlers.{java_handler_view};
ghost use Rattle.jd_jml_written.specs.Loops as plain;
ghost use Rattle.jd_jml_written.specs.Said.{locations_in, measure_in};
ghost use Rattle.jd_jml_written.specs.Views.{before_view, loop_view, said_in};
ghost use Rattle.jd_syntax.specs.JavaTrees.{java_handlers, java_stmt_view};
ghost use Rattle.jd_syntax.specs.SpecTrees.{location_view, spec_block_view, spec_view};

use crate::said::{Wanted, add_block, add_places};
use jd_base::{NoMemory, both};
use jd_lists::put;
use jd_syntax::{Handler, LocExpr, SpecBlock, SpecExpr, Stmt, StmtForm};
use std::alloc::Global;

/// What JML says of a loop (JML Reference Manual, 13.2).
#[derive(Drop)]
pub struct LoopAnn {
    /// What holds before each turn.
    pub invariants: Vec<SpecExpr>,
    /// What each turn makes less, where that is said.
    pub decreases: Option<SpecExpr>,
    /// The locations that its turns may assign; none where nothing is said.
    pub assignable: Vec<LocExpr>,
}

/// The JML before a loop and its labels.
#[derive(Clone, Copy)]
pub(crate) enum Before<'a> {
    /// None.
    Nothing,
    /// Others, and one place more.
    Behind(&'a Before<'a>, &'a Option<SpecBlock>),
}

fn nothing<'n>() -> Before<'n>
    ensures { before_view result ≡ [] }
{
    Before::Nothing
}

fn behind<'n>(before: &'n Before<'n>, block: &'n Option<SpecBlock>) -> Before<'n>
    ensures { before_view result ≡ before_view before.now ++ plain.clauses_at (option_map spec_block_view block.now) }
{
    Before::Behind(before, block)
}

// Adds what is said before a loop.
fn add_said(
    alloc: Global,
    wanted: Wanted,
    made: &mut Vec<SpecExpr>,
    before: &Before<'_>,
) -> Result<(), NoMemory>
    ensures { OnOk result (map spec_view made.new.items ≡ map spec_view made.old.items ++ flat_map (said_in wanted) (before_view before.now)) }
{
    match before {
        Before::Nothing => Ok(()),
        Before::Behind(others, block) => {
            add_said(alloc, wanted, made, others)?;
            add_block(alloc, wanted, made, block)
        }
    }
}

// What is said before a loop.
fn said(alloc: Global, wanted: Wanted, before: &Before<'_>) -> Result<Vec<SpecExpr>, NoMemory>
    ensures { IfOk result (λ v. map spec_view v.items ≡ flat_map (said_in wanted) (before_view before.now)) }
{
    let mut made = Vec::new(alloc);
    add_said(alloc, wanted, &mut made, before)?;
    Ok(made)
}

// The first item.
fn first_of<T: Drop>(items: Vec<T>) -> Option<T>
    ensures { result ≡ slice_get items.items 0 }
{
    let mut items = items;
    if items.is_empty() {
        None
    } else {
        Some(items.swap_remove(0))
    }
}

// The measure that is said before a loop.
fn measure(alloc: Global, before: &Before<'_>) -> Result<Option<SpecExpr>, NoMemory>
    ensures { IfOk result (λ o. option_map spec_view o ≡ slice_get (flat_map measure_in (before_view before.now)) 0) }
{
    let items = said(alloc, Wanted::Measures, before)?;
    Ok(first_of(items))
}

// Adds the locations that are listed before a loop.
fn add_assignable(
    alloc: Global,
    made: &mut Vec<LocExpr>,
    before: &Before<'_>,
) -> Result<(), NoMemory>
    ensures { OnOk result (map location_view made.new.items ≡ map location_view made.old.items ++ flat_map locations_in (before_view before.now)) }
{
    match before {
        Before::Nothing => Ok(()),
        Before::Behind(others, block) => {
            add_assignable(alloc, made, others)?;
            add_places(alloc, made, block)
        }
    }
}

// The locations that are listed before a loop.
fn assignable(alloc: Global, before: &Before<'_>) -> Result<Vec<LocExpr>, NoMemory>
    ensures { IfOk result (λ v. map location_view v.items ≡ flat_map locations_in (before_view before.now)) }
{
    let mut made = Vec::new(alloc);
    add_assignable(alloc, &mut made, before)?;
    Ok(made)
}

// What is said of a loop.
fn annotation(alloc: Global, before: &Before<'_>) -> Result<LoopAnn, NoMemory>
    ensures { IfOk result (λ l. loop_view l ≡ plain.loop_of (before_view before.now)) }
{
    let ((invariants, decreases), assignable) = both(
        both(
            said(alloc, Wanted::LoopInvariants, before),
            measure(alloc, before),
        ),
        assignable(alloc, before),
    )?;
    Ok(LoopAnn {
        invariants,
        decreases,
        assignable,
    })
}

// Adds a loop.
fn add_loop(
    alloc: Global,
    made: &mut Vec<LoopAnn>,
    before: &Before<'_>,
    own: &Option<SpecBlock>,
) -> Result<(), NoMemory>
    ensures { OnOk result (map loop_view made.new.items ≡ map loop_view made.old.items ++ plain.loop_of (before_view before.now ++ plain.clauses_at (option_map spec_block_view own.now)) ∷ []) }
{
    put(made, annotation(alloc, &behind(before, own))?)
}

// Adds the loops in a statement.
#[cycle(loops)]
fn add_loops<'n>(
    alloc: Global,
    made: &mut Vec<LoopAnn>,
    s: &'n Stmt,
    before: &'n Before<'n>,
) -> Result<(), NoMemory>
    ensures { OnOk result (map loop_view made.new.items ≡ map loop_view made.old.items ++ plain.loops (before_view before.now) (java_stmt_view s.now)) }
{
    match &s.form {
        StmtForm::Block(ss) => add_each(alloc, made, ss),
        StmtForm::Label(block, _, inner) => {
            add_loops(alloc, made, inner, &behind(before, block))
        }
        StmtForm::If(_, inner) => add_loops(alloc, made, inner, &nothing()),
        StmtForm::IfElse(_, first, second) => {
            add_loops(alloc, made, first, &nothing())?;
            add_loops(alloc, made, second, &nothing())
        }
        StmtForm::While(own, _, inner) | StmtForm::For(own, _, _, _, inner) => {
            add_loop(alloc, made, before, own)?;
            add_loops(alloc, made, inner, &nothing())
        }
        StmtForm::Try(ss, hs) => {
            add_each(alloc, made, ss)?;
            add_handled(alloc, made, hs)
        }
        StmtForm::TryFinally(ss, hs, fs) => {
            add_each(alloc, made, ss)?;
            add_handled(alloc, made, hs)?;
            add_each(alloc, made, fs)
        }
        StmtForm::Empty
        | StmtForm::Local(_, _)
        | StmtForm::Evaluate(_)
        | StmtForm::Break(_)
        | StmtForm::Continue(_)
        | StmtForm::Return(_)
        | StmtForm::Throw(_)
        | StmtForm::Super(_) => Ok(()),
    }
}

// The same of statements.
#[cycle(loops)]
#[tactic(auto, using(jd_syntax::proofs::Lists::rest))]
fn add_each(alloc: Global, made: &mut Vec<LoopAnn>, ss: &[Stmt]) -> Result<(), NoMemory>
    ensures { OnOk result (map loop_view made.new.items ≡ map loop_view made.old.items ++ plain.loops_of (map java_stmt_view ss.now)) }
{
    for s in ss {
        add_loops(alloc, made, s, &nothing())?;
    }
    Ok(())
}

// The same of handlers.
#[cycle(loops)]
#[tactic(auto, using(jd_syntax::proofs::Lists::rest))]
fn add_handled(alloc: Global, made: &mut Vec<LoopAnn>, hs: &[Handler]) -> Result<(), NoMemory>
    ensures { OnOk result (map loop_view made.new.items ≡ map loop_view made.old.items ++ plain.loops_in_handlers (java_handlers (map java_handler_view hs.now))) }
{
    for handler in hs {
        add_each(alloc, made, &handler.body)?;
    }
    Ok(())
}

/// What JML says of the loops of a body, by their numbers (JML Reference Manual, 13.2).
///
/// # Errors
///
/// `NoMemory`.
pub fn body_loops(alloc: Global, body: &[Stmt]) -> Result<Vec<LoopAnn>, NoMemory>
    ensures { IfOk result (λ v. map loop_view v.items ≡ plain.loops_of (map java_stmt_view body.now)) }
{
    let mut made = Vec::new(alloc);
    add_each(alloc, &mut made, body)?;
    Ok(made)
}
