//! The tables of a program.

ghost use Rattle.std.specs.Prelude.{◌≡◌, ◌⊎◌, Err, IfErr, IfOk, List, Ok};
ghost use Rattle.jd_classes.specs.Tables.{AreTables};
ghost use Rattle.jd_jml_formulas.specs.declared.whole.Unmade.TheVariants as causes;
ghost use Rattle.jd_jml_meaning.specs.JmlCases.{JmlProgram};
ghost use Rattle.jd_made_tasks.specs.Tabled.{AreTabled, TellsOfTables};
ghost use Rattle.jd_model.specs.ContractForms.{contracts_view};
ghost use Rattle.jd_programs.specs.Programs.{IsProgram};
ghost use Rattle.jd_refusals.specs.Resolving.{AreResolved};
ghost use Rattle.jd_syntax.specs.JavaTrees.{JavaUnit};

use jd_base::NoMemory;
use jd_body_tables::{body_rows, invariant_rows};
use jd_case_tables::case_rows;
use jd_classes::Classes;
use jd_declaration_laws::declarations_are_one;
use jd_jml_formulas::Unmade;
use jd_model::Contracts;
use jd_naming::Declares;
use jd_refusals::Resolved;
use std::alloc::Global;

/// A formula has at most so many nodes.
const NODE_LIMIT: u32 = 100_000;

// The result, with want of memory as a cause.
fn kept<T: Drop>(r: Result<T, NoMemory>) -> Result<T, Unmade>
    ensures made { IfOk result (λ x. r ≡ Ok x) }
    ensures why { IfErr result (λ u. u ≡ causes.NoMemory) }
{
    match r {
        Ok(x) => Ok(x),
        Err(NoMemory) => Err(Unmade::NoMemory),
    }
}

// Three results, where all are there.
fn three<A: Drop, B: Drop, C: Drop>(
    a: Result<A, Unmade>,
    b: Result<B, Unmade>,
    c: Result<C, Unmade>,
) -> Result<(A, B, C), Unmade>
    ensures made { IfOk result (λ p. (a ≡ Ok p.0) × (b ≡ Ok p.1) × (c ≡ Ok p.2)) }
    ensures why { IfErr result (λ u. (a ≡ Err u) ⊎ ((b ≡ Err u) ⊎ (c ≡ Err u))) }
{
    Ok((a?, b?, c?))
}

/// The cases, invariants and bodies of a program.
///
/// # Errors
///
/// `TooLarge` where a formula of one of them has more nodes or levels than it may; else `NoMemory`.
pub(crate) fn contracts<D: Declares>(
    alloc: Global,
    d: &D,
    classes: &Classes,
    resolved: &Resolved,
) -> Result<Contracts, Unmade>
    requires { (units : List JavaUnit) × AreTables units classes.now × AreResolved units resolved.now }
    ensures made { (units : List JavaUnit) (j : JmlProgram) (is : IsProgram units j) → AreTables units classes.now → AreResolved units resolved.now → is.declarations ≡ D.declarations d.now
        → IfOk result (λ c. AreTabled units j is (contracts_view c)) }
    ensures why { (units : List JavaUnit) (j : JmlProgram) (is : IsProgram units j) → AreTables units classes.now → AreResolved units resolved.now → is.declarations ≡ D.declarations d.now
        → IfErr result (TellsOfTables units j is) }
{
    declarations_are_one();
    let cases = case_rows(
        alloc,
        d,
        classes,
        &resolved.specs.methods,
        &resolved.bodies.bodies,
        NODE_LIMIT,
    );
    let invariants = invariant_rows(alloc, d, &resolved.specs, NODE_LIMIT);
    let bodies = kept(body_rows(alloc, classes, &resolved.bodies.bodies));
    match three(cases, invariants, bodies) {
        Ok((cases, invariants, bodies)) => Ok(Contracts {
            cases,
            invariants,
            bodies,
        }),
        Err(cause) => Err(cause),
    }
}
