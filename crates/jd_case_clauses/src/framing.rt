//! The measure of a case, and what it may assign.

ghost use Rattle.std.specs.Prelude.{◌≡◌, ◌<◌, ◌++◌, true, IfOk, List, length, map, option_map};
ghost use Rattle.std.specs.Borrow.{Bor};
ghost use Rattle.jd_case_clauses.specs.Frames.{all_assignable, assignable_in, is_assignable, measured_in, says_assignable};
ghost use Rattle.jd_case_clauses.specs.Said.{level_limit};
ghost use Rattle.jd_jml_formulas.specs.Meant.{locations_meant};
ghost use Rattle.jd_jml_formulas.specs.Spellings.{spelling_view};
ghost use Rattle.jd_jml_known.specs.Members.{FieldsHaveSorts};
ghost use Rattle.jd_jml_known.specs.Scopes.{known_of};
ghost use Rattle.jd_jml_meaning.specs.Meaning.{Before};
ghost use Rattle.jd_jml_meaning.specs.Translation as translation;
ghost use Rattle.jd_model.specs.Programs.{Program};
ghost use Rattle.jd_specifications.specs.Resolution.{resolved};
ghost use Rattle.jd_specifications.specs.WrittenCases as plain;
ghost use Rattle.jd_syntax.specs.SpecTrees.{PlainLocation, clause_view, location_view, spec_view};
ghost use Rattle.jd_syntax.specs.declared.spec.SpecExpr.{SpecExpr};
ghost use Rattle.jd_term.specs.Makers.{GivesLoc, GivesTerm};

use jd_base::NoMemory;
use jd_jml_copies::copy_locations;
use jd_jml_formulas::{Making, When, locations, term};
use jd_jml_known::{KnownNames, of_method};
use jd_lists::{appended, discard};
use jd_naming::Declares;
use jd_syntax::{ClauseForm, LocExpr, SpecClause, SpecExpr};
use jd_term::{Loc, Term};
use std::alloc::Global;

/// How many levels a location set of an obligation has at most.
const LEVEL_LIMIT: usize = 1000;

// ---- `measured_by`

// The measure that a clause says, if it does.
fn measured(c: &SpecClause) -> Option<&SpecExpr>
    ensures { option_map (λ (e : Bor SpecExpr). spec_view e.now) result ≡ measured_in (clause_view c.now) }
{
    match &c.form {
        ClauseForm::MeasuredBy(e) => Some(e),
        _ => None,
    }
}

// The term of the measure.
fn measure_term<D: Declares>(
    m: &Making<'_, D>,
    names: &KnownNames,
    e: &SpecExpr,
) -> Result<Term, NoMemory>
    ensures { (p : Program) → FieldsHaveSorts (D.declarations m.now.sight.declared.now) p
        → GivesTerm result (translation.term p (spelling_view m.now.spelled.now) Before (resolved (D.declarations m.now.sight.declared.now) m.now.sight.class m.now.sight.result (known_of names.now) (spec_view e.now))) }
{
    let scope = of_method(names);
    term(m, When::Before, e, &scope)
}

/// The measure of a case, where no token is refused; it is 0 where none is said (JML Reference Manual, 9.9.13).
///
/// # Errors
///
/// `NoMemory` if memory runs out.
pub fn measure<D: Declares>(
    m: &Making<'_, D>,
    names: &KnownNames,
    cs: &[SpecClause],
) -> Result<Term, NoMemory>
    ensures { (p : Program) → FieldsHaveSorts (D.declarations m.now.sight.declared.now) p
        → GivesTerm result (translation.term p (spelling_view m.now.spelled.now) Before (plain.measure_of (D.declarations m.now.sight.declared.now) m.now.sight.class m.now.sight.result (known_of names.now) (map clause_view cs.now))) }
{
    for c in cs {
        if let Some(e) = measured(c) {
            return measure_term(m, names, e);
        }
    }
    Ok(Term::Number(0))
}

// ---- `assignable`

// Whether the clause says what may be assigned.
fn is_frame(c: &SpecClause) -> bool
    ensures { result ≡ is_assignable (clause_view c.now) }
{
    matches!(&c.form, ClauseForm::Assignable(_))
}

/// Whether a clause says what may be assigned.
pub(crate) fn says_frame(cs: &[SpecClause]) -> bool
    ensures { result ≡ says_assignable (map clause_view cs.now) }
{
    for c in cs {
        if is_frame(c) {
            return true;
        }
    }
    false
}

// How many sets of locations the clause says.
fn count_in(c: &SpecClause) -> usize
    ensures { result ≡ length (assignable_in (clause_view c.now)) }
{
    match &c.form {
        ClauseForm::Assignable(ls) => ls.len(),
        _ => 0,
    }
}

/// Whether there are so many sets that their union would have too many levels.
pub(crate) fn are_many(cs: &[SpecClause]) -> bool
    ensures { result ≡ true → level_limit < length (all_assignable (map clause_view cs.now)) }
{
    let mut left = LEVEL_LIMIT;
    for c in cs {
        let count = count_in(c);
        if count > left {
            return true;
        }
        left -= count;
    }
    false
}

// With copies of those that the clause says.
fn with_those(alloc: Global, made: Vec<LocExpr>, c: &SpecClause) -> Result<Vec<LocExpr>, NoMemory>
    ensures { IfOk result (λ v. map location_view v.items ≡ map location_view made.items ++ assignable_in (clause_view c.now)) }
{
    match &c.form {
        ClauseForm::Assignable(ls) => {
            let copies = copy_locations(alloc, ls);
            joined(made, copies)
        }
        _ => Ok(made),
    }
}

// Both lists.
fn joined(
    made: Vec<LocExpr>,
    more: Result<Vec<LocExpr>, NoMemory>,
) -> Result<Vec<LocExpr>, NoMemory>
    ensures { (ls : List PlainLocation) → IfOk more (λ v. map location_view v.items ≡ ls) → IfOk result (λ v. map location_view v.items ≡ map location_view made.items ++ ls) }
{
    match more {
        Ok(more) => appended(made, more),
        Err(NoMemory) => {
            discard(made);
            Err(NoMemory)
        }
    }
}

// Copies of all that the clauses say.
fn all_said(alloc: Global, cs: &[SpecClause]) -> Result<Vec<LocExpr>, NoMemory>
    ensures { IfOk result (λ v. map location_view v.items ≡ all_assignable (map clause_view cs.now)) }
{
    let mut made = Vec::new(alloc);
    for c in cs {
        made = with_those(alloc, made, c)?;
    }
    Ok(made)
}

/// The locations that the clauses say, as one list.
pub(crate) fn frame<D: Declares>(
    m: &Making<'_, D>,
    names: &KnownNames,
    cs: &[SpecClause],
) -> Result<Loc, NoMemory>
    ensures { (p : Program) → FieldsHaveSorts (D.declarations m.now.sight.declared.now) p
        → GivesLoc result (locations_meant p (D.declarations m.now.sight.declared.now) m.now.sight.class m.now.sight.result (spelling_view m.now.spelled.now) Before (known_of names.now) (all_assignable (map clause_view cs.now))) }
{
    let ls = all_said(m.alloc, cs)?;
    let scope = of_method(names);
    locations(m, When::Before, &ls, &scope)
}
