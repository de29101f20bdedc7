//! All clauses of a case.

ghost use Rattle.std.specs.Prelude.{◌≡◌, ◌<◌, ◌⊎◌, Err, IfErr, IfOk, Ok, map};
ghost use Rattle.jd_case_clauses.specs.Frames.{assignable_term};
ghost use Rattle.jd_case_clauses.specs.Said.{level_limit};
ghost use Rattle.jd_case_clauses.specs.Whole.{SaysClauses, TellsOfCase};
ghost use Rattle.jd_jml_formulas.specs.Spellings.{spelling_view};
ghost use Rattle.jd_jml_formulas.specs.declared.whole.Unmade.TheVariants as causes;
ghost use Rattle.jd_jml_known.specs.Members.{FieldsHaveSorts};
ghost use Rattle.jd_jml_known.specs.Scopes.{known_of};
ghost use Rattle.jd_jml_meaning.specs.ContractFormulas.{contract_of};
ghost use Rattle.jd_jml_meaning.specs.JmlContracts.{JmlContract};
ghost use Rattle.jd_jml_meaning.specs.Meaning.{Before};
ghost use Rattle.jd_jml_meaning.specs.Translation as translation;
ghost use Rattle.jd_model.specs.Programs.{Program};
ghost use Rattle.jd_row_makers.specs.Rows.{AreClauses};
ghost use Rattle.jd_specifications.specs.WrittenCases as plain;
ghost use Rattle.jd_syntax.specs.SpecTrees.{clause_view};
ghost use Rattle.jd_term.specs.Makers.{GivesLoc};
ghost use Rattle.jd_term.specs.TermSizes.{loc_depth};
ghost use Rattle.jd_term.specs.TermViews.{loc_view};

use crate::framing::{are_many, frame, measure, says_frame};
use crate::said::{Kind, formulas};
use crate::throwing::{signals, signals_only};
use jd_base::NoMemory;
use jd_jml_formulas::{Making, Unmade, When};
use jd_jml_known::KnownNames;
use jd_naming::Declares;
use jd_row_makers::Clauses;
use jd_syntax::SpecClause;
use jd_term::{Loc, boxed_term};
use std::alloc::Global;

// What may be assigned where no clause says so: all, by what is pure nothing, and by a pure constructor the fields of `this`.
fn unsaid<D: Declares>(m: &Making<'_, D>, pure: bool, constructor: bool) -> Result<Loc, NoMemory>
    ensures { (p : Program) → GivesLoc result (translation.locations p (spelling_view m.now.spelled.now) Before (plain.assignable_else (D.declarations m.now.sight.declared.now) pure constructor)) }
{
    if !pure {
        Ok(Loc::AllLocations)
    } else if constructor {
        let this = m.spelled.this.copy(m.alloc)?;
        Ok(Loc::ObjectFields(boxed_term(m.alloc, this)?))
    } else {
        Ok(Loc::NoLocations)
    }
}

// The result, with want of memory as a cause.
fn kept<T: Drop>(r: Result<T, NoMemory>) -> Result<T, Unmade>
    ensures made { IfOk result (λ x. r ≡ Ok x) }
    ensures why { IfErr result (λ u. u ≡ causes.NoMemory) }
{
    match r {
        Ok(x) => Ok(x),
        Err(NoMemory) => Err(Unmade::NoMemory),
    }
}

// What may be assigned.
fn assignable<D: Declares>(
    m: &Making<'_, D>,
    names: &KnownNames,
    cs: &[SpecClause],
    pure: bool,
    constructor: bool,
) -> Result<Loc, Unmade>
    ensures made { (p : Program) → FieldsHaveSorts (D.declarations m.now.sight.declared.now) p
        → IfOk result (λ l. loc_view l ≡ assignable_term p (D.declarations m.now.sight.declared.now) m.now.sight.class m.now.sight.result (spelling_view m.now.spelled.now) (known_of names.now) pure constructor (map clause_view cs.now)) }
    ensures why { (p : Program)
        → IfErr result (λ u. u ≡ causes.TooLarge → level_limit < loc_depth (assignable_term p (D.declarations m.now.sight.declared.now) m.now.sight.class m.now.sight.result (spelling_view m.now.spelled.now) (known_of names.now) pure constructor (map clause_view cs.now))) }
{
    if !says_frame(cs) {
        return kept(unsaid(m, pure, constructor));
    }
    if are_many(cs) {
        return Err(Unmade::TooLarge);
    }
    kept(frame(m, names, cs))
}

// Two results, where both are there.
fn two<A: Drop, B: Drop>(a: Result<A, Unmade>, b: Result<B, Unmade>) -> Result<(A, B), Unmade>
    ensures made { IfOk result (λ p. (a ≡ Ok p.0) × (b ≡ Ok p.1)) }
    ensures why { IfErr result (λ u. (a ≡ Err u) ⊎ (b ≡ Err u)) }
{
    Ok((a?, b?))
}

/// The clauses of a case as members of its row, where no token of them is refused (JML Reference Manual, 9.9). The names in scope are those of
/// the method's parameters; what may be assigned where no clause says so hangs on whether the method is pure and whether it is a constructor.
///
/// # Errors
///
/// `TooLarge` where one of the formulas has more nodes or levels than it may, or what may be assigned has more levels; else `NoMemory`.
pub fn clauses<D: Declares>(
    m: &Making<'_, D>,
    names: &KnownNames,
    cs: &[SpecClause],
    pure: bool,
    constructor: bool,
) -> Result<Clauses, Unmade>
    ensures made { (p : Program) (c : JmlContract) → FieldsHaveSorts (D.declarations m.now.sight.declared.now) p
        → SaysClauses (D.declarations m.now.sight.declared.now) m.now.sight.class m.now.sight.result (known_of names.now) (spelling_view m.now.spelled.now) pure constructor (map clause_view cs.now) c
        → IfOk result (λ v. AreClauses v (contract_of p c)) }
    ensures why { (p : Program) (c : JmlContract) → FieldsHaveSorts (D.declarations m.now.sight.declared.now) p
        → SaysClauses (D.declarations m.now.sight.declared.now) m.now.sight.class m.now.sight.result (known_of names.now) (spelling_view m.now.spelled.now) pure constructor (map clause_view cs.now) c
        → IfErr result (TellsOfCase m.now.limit (contract_of p c)) }
{
    let states = two(
        formulas(m, When::Before, Kind::Requires, names, cs),
        formulas(m, When::Now, Kind::Ensures, names, cs),
    );
    let thrown = two(
        signals(m, names, cs),
        signals_only(m.alloc, m.sight.declared, cs),
    );
    let others = two(
        assignable(m, names, cs, pure, constructor),
        kept(measure(m, names, cs)),
    );
    let ((required, ensured), ((signals, signals_only), (assignable, measure))) = two(
        states,
        two(thrown, others),
    )?;
    Ok(Clauses {
        required,
        ensured,
        signals,
        signals_only,
        assignable,
        measure,
    })
}
