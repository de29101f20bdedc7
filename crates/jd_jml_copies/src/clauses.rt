//! Copies of clauses.

ghost use Rattle.std.specs.Prelude.{◌≡◌, IfOk, map};
ghost use Rattle.jd_syntax.specs.SpecTrees.{clause_view};

use crate::copies::{copy_expression, copy_locations};
use crate::names::{copy_identifier, copy_identifiers, copy_optional};
use jd_base::{NoMemory, both};
use jd_syntax::{ClauseForm, SpecClause};
use std::alloc::Global;

/// A copy of the clause.
pub fn copy_clause(alloc: Global, c: &SpecClause) -> Result<SpecClause, NoMemory>
    ensures { IfOk result (λ d. clause_view d ≡ clause_view c.now) }
{
    let at = c.at;
    match &c.form {
        ClauseForm::Requires(e) => Ok(SpecClause {
            at,
            form: ClauseForm::Requires(copy_expression(alloc, e)?),
        }),
        ClauseForm::Ensures(e) => Ok(SpecClause {
            at,
            form: ClauseForm::Ensures(copy_expression(alloc, e)?),
        }),
        ClauseForm::MeasuredBy(e) => Ok(SpecClause {
            at,
            form: ClauseForm::MeasuredBy(copy_expression(alloc, e)?),
        }),
        ClauseForm::LoopInvariant(e) => Ok(SpecClause {
            at,
            form: ClauseForm::LoopInvariant(copy_expression(alloc, e)?),
        }),
        ClauseForm::Decreases(e) => Ok(SpecClause {
            at,
            form: ClauseForm::Decreases(copy_expression(alloc, e)?),
        }),
        ClauseForm::Invariant(e) => Ok(SpecClause {
            at,
            form: ClauseForm::Invariant(copy_expression(alloc, e)?),
        }),
        ClauseForm::Signals(k, x, e) => {
            let (k, (x, e)) = both(
                copy_identifier(alloc, k),
                both(copy_optional(alloc, x), copy_expression(alloc, e)),
            )?;
            Ok(SpecClause {
                at,
                form: ClauseForm::Signals(k, x, e),
            })
        }
        ClauseForm::SignalsOnly(ks) => Ok(SpecClause {
            at,
            form: ClauseForm::SignalsOnly(copy_identifiers(alloc, ks)?),
        }),
        ClauseForm::Assignable(ls) => Ok(SpecClause {
            at,
            form: ClauseForm::Assignable(copy_locations(alloc, ls)?),
        }),
        ClauseForm::Diverges(b) => Ok(SpecClause {
            at,
            form: ClauseForm::Diverges(*b),
        }),
        ClauseForm::NormalBehavior => Ok(SpecClause {
            at,
            form: ClauseForm::NormalBehavior,
        }),
        ClauseForm::ExceptionalBehavior => Ok(SpecClause {
            at,
            form: ClauseForm::ExceptionalBehavior,
        }),
        ClauseForm::Behavior => Ok(SpecClause {
            at,
            form: ClauseForm::Behavior,
        }),
        ClauseForm::Also => Ok(SpecClause {
            at,
            form: ClauseForm::Also,
        }),
        ClauseForm::Pure => Ok(SpecClause {
            at,
            form: ClauseForm::Pure,
        }),
        ClauseForm::Helper => Ok(SpecClause {
            at,
            form: ClauseForm::Helper,
        }),
        ClauseForm::Nullable => Ok(SpecClause {
            at,
            form: ClauseForm::Nullable,
        }),
        ClauseForm::NonNull => Ok(SpecClause {
            at,
            form: ClauseForm::NonNull,
        }),
        ClauseForm::SpecPublic => Ok(SpecClause {
            at,
            form: ClauseForm::SpecPublic,
        }),
        ClauseForm::SpecProtected => Ok(SpecClause {
            at,
            form: ClauseForm::SpecProtected,
        }),
    }
}

/// Copies of the clauses.
pub fn copy_clauses(alloc: Global, cs: &[SpecClause]) -> Result<Vec<SpecClause>, NoMemory>
    ensures { IfOk result (λ v. map clause_view v.items ≡ map clause_view cs.now) }
{
    let mut copies = Vec::with_capacity(alloc, cs.len())?;
    for c in cs {
        copies.push(copy_clause(alloc, c)?)?;
    }
    Ok(copies)
}
