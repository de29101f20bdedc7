//! The expressions and locations that clauses say.

ghost use Rattle.std.specs.Prelude.{◌≡◌, ◌++◌, OnOk, flat_map, map, option_map};
ghost use Rattle.jd_jml_written.specs.Loops.{clauses_at};
ghost use Rattle.jd_jml_written.specs.Said.{invariant_in, locations_in, loop_invariant_in, measure_in};
ghost use Rattle.jd_jml_written.specs.Views.{said_in};
ghost use Rattle.jd_syntax.specs.SpecTrees.{clause_view, location_view, spec_block_view, spec_view};

use jd_base::NoMemory;
use jd_jml_copies::{copy_expression, copy_locations};
use jd_lists::put;
use jd_syntax::{ClauseForm, LocExpr, SpecBlock, SpecClause, SpecExpr};
use std::alloc::Global;

// The expressions that are looked for.
#[derive(Clone, Copy)]
pub(crate) enum Wanted {
    LoopInvariants,
    Measures,
    Invariants,
}

fn add_loop_invariant(
    alloc: Global,
    made: &mut Vec<SpecExpr>,
    c: &SpecClause,
) -> Result<(), NoMemory>
    ensures { OnOk result (map spec_view made.new.items ≡ map spec_view made.old.items ++ loop_invariant_in (clause_view c.now)) }
{
    match &c.form {
        ClauseForm::LoopInvariant(e) => put(made, copy_expression(alloc, e)?),
        _ => Ok(()),
    }
}

fn add_measure(alloc: Global, made: &mut Vec<SpecExpr>, c: &SpecClause) -> Result<(), NoMemory>
    ensures { OnOk result (map spec_view made.new.items ≡ map spec_view made.old.items ++ measure_in (clause_view c.now)) }
{
    match &c.form {
        ClauseForm::Decreases(e) => put(made, copy_expression(alloc, e)?),
        _ => Ok(()),
    }
}

fn add_invariant(alloc: Global, made: &mut Vec<SpecExpr>, c: &SpecClause) -> Result<(), NoMemory>
    ensures { OnOk result (map spec_view made.new.items ≡ map spec_view made.old.items ++ invariant_in (clause_view c.now)) }
{
    match &c.form {
        ClauseForm::Invariant(e) => put(made, copy_expression(alloc, e)?),
        _ => Ok(()),
    }
}

// Adds what a clause says of the kind.
fn add_expression(
    alloc: Global,
    wanted: Wanted,
    made: &mut Vec<SpecExpr>,
    c: &SpecClause,
) -> Result<(), NoMemory>
    ensures { OnOk result (map spec_view made.new.items ≡ map spec_view made.old.items ++ said_in wanted (clause_view c.now)) }
{
    match wanted {
        Wanted::LoopInvariants => add_loop_invariant(alloc, made, c),
        Wanted::Measures => add_measure(alloc, made, c),
        Wanted::Invariants => add_invariant(alloc, made, c),
    }
}

/// Adds what clauses say of the kind.
#[tactic(auto, using(jd_syntax::proofs::Lists::rest))]
pub(crate) fn add_expressions(
    alloc: Global,
    wanted: Wanted,
    made: &mut Vec<SpecExpr>,
    cs: &[SpecClause],
) -> Result<(), NoMemory>
    ensures { OnOk result (map spec_view made.new.items ≡ map spec_view made.old.items ++ flat_map (said_in wanted) (map clause_view cs.now)) }
{
    for c in cs {
        add_expression(alloc, wanted, made, c)?;
    }
    Ok(())
}

/// Adds what is said at a place.
pub(crate) fn add_block(
    alloc: Global,
    wanted: Wanted,
    made: &mut Vec<SpecExpr>,
    block: &Option<SpecBlock>,
) -> Result<(), NoMemory>
    ensures { OnOk result (map spec_view made.new.items ≡ map spec_view made.old.items ++ flat_map (said_in wanted) (clauses_at (option_map spec_block_view block.now))) }
{
    match block {
        None => Ok(()),
        Some(b) => add_expressions(alloc, wanted, made, &b.clauses),
    }
}

// Adds the locations that a clause lists.
fn add_listed(alloc: Global, made: &mut Vec<LocExpr>, c: &SpecClause) -> Result<(), NoMemory>
    ensures { OnOk result (map location_view made.new.items ≡ map location_view made.old.items ++ locations_in (clause_view c.now)) }
{
    match &c.form {
        ClauseForm::Assignable(ls) => {
            let mut others = copy_locations(alloc, ls)?;
            made.append(&mut others)?;
            Ok(())
        }
        _ => Ok(()),
    }
}

// Adds the locations that clauses list.
#[tactic(auto, using(jd_syntax::proofs::Lists::rest))]
fn add_locations(alloc: Global, made: &mut Vec<LocExpr>, cs: &[SpecClause]) -> Result<(), NoMemory>
    ensures { OnOk result (map location_view made.new.items ≡ map location_view made.old.items ++ flat_map locations_in (map clause_view cs.now)) }
{
    for c in cs {
        add_listed(alloc, made, c)?;
    }
    Ok(())
}

/// Adds the locations that are listed at a place.
pub(crate) fn add_places(
    alloc: Global,
    made: &mut Vec<LocExpr>,
    block: &Option<SpecBlock>,
) -> Result<(), NoMemory>
    ensures { OnOk result (map location_view made.new.items ≡ map location_view made.old.items ++ flat_map locations_in (clauses_at (option_map spec_block_view block.now))) }
{
    match block {
        None => Ok(()),
        Some(b) => add_locations(alloc, made, &b.clauses),
    }
}
