//! What the words at a declaration say of it.

ghost use Rattle.std.specs.Prelude.{◌≡◌, IfOk, map};
ghost use Rattle.std.specs.List.{list_any};
ghost use Rattle.jd_jml_written.specs.Marked as marked;
ghost use Rattle.jd_jml_written.specs.Views.{mark_test, marks_view};
ghost use Rattle.jd_specifications.specs.WrittenCases as plain;
ghost use Rattle.jd_syntax.specs.JavaTrees.{method_view, parameter_view};
ghost use Rattle.jd_syntax.specs.SpecTrees.{clause_view, spec_block_view};

use jd_base::NoMemory;
use jd_syntax::{ClauseForm, Marks, MethodDecl, Parameter, SpecBlock, SpecClause};
use std::alloc::Global;

fn is_pure(c: &SpecClause) -> bool
    ensures { result ≡ plain.is_pure (clause_view c.now) }
{
    matches!(&c.form, ClauseForm::Pure)
}

fn is_helper(c: &SpecClause) -> bool
    ensures { result ≡ plain.is_helper (clause_view c.now) }
{
    matches!(&c.form, ClauseForm::Helper)
}

fn is_nullable(c: &SpecClause) -> bool
    ensures { result ≡ plain.is_nullable (clause_view c.now) }
{
    matches!(&c.form, ClauseForm::Nullable)
}

// The words among the clauses of a place that are looked for.
#[derive(Clone, Copy)]
pub(crate) enum Mark {
    Pure,
    Helper,
    Nullable,
}

fn is_mark(mark: Mark, c: &SpecClause) -> bool
    ensures { result ≡ mark_test mark (clause_view c.now) }
{
    match mark {
        Mark::Pure => is_pure(c),
        Mark::Helper => is_helper(c),
        Mark::Nullable => is_nullable(c),
    }
}

fn is_among(mark: Mark, cs: &[SpecClause]) -> bool
    ensures { result ≡ list_any (mark_test mark) (map clause_view cs.now) }
{
    for c in cs {
        if is_mark(mark, c) {
            return true;
        }
    }
    false
}

/// Whether the word stands at one of the places.
pub(crate) fn has_mark(mark: Mark, bs: &[SpecBlock]) -> bool
    ensures { result ≡ plain.has_mark (mark_test mark) (map spec_block_view bs.now) }
{
    for b in bs {
        if is_among(mark, &b.clauses) {
            return true;
        }
    }
    false
}

fn nullable_of(alloc: Global, parameters: &[Parameter]) -> Result<Vec<bool>, NoMemory>
    ensures { IfOk result (λ v. v.items ≡ marked.nullable_parameters (map parameter_view parameters.now)) }
{
    let mut nullable = Vec::with_capacity(alloc, parameters.len())?;
    for x in parameters {
        nullable.push(has_mark(Mark::Nullable, &x.specs))?;
    }
    Ok(nullable)
}

/// The marks of a method or constructor.
pub(crate) fn marks_of(alloc: Global, m: &MethodDecl) -> Result<Marks, NoMemory>
    ensures { IfOk result (λ v. marks_view v ≡ marked.marks_of (method_view m.now)) }
{
    let nullable_params = nullable_of(alloc, &m.parameters)?;
    Ok(Marks {
        is_pure: has_mark(Mark::Pure, &m.specs),
        is_helper: has_mark(Mark::Helper, &m.specs),
        nullable_result: has_mark(Mark::Nullable, &m.specs),
        nullable_params,
    })
}
