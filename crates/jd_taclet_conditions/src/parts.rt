//! Parts that conditions compute.

ghost use Rattle.std.specs.Prelude.{◌≡◌, option_map};
ghost use Rattle.std.specs.Option.{option_and_then};
ghost use Rattle.jd_patterns.specs.Bindings.{TheFormula};
ghost use Rattle.jd_schema_trees.specs.TacletViews.{number_test};
ghost use Rattle.jd_syntax.specs.CodeViews.{expr_view, kind_view};
ghost use Rattle.jd_model.specs.Programs.{ReferenceType};
ghost use Rattle.jd_taclet_matching.specs.OwnedParts.{owned_part};
ghost use Rattle.jd_taclets.specs.Conditions.{default_expr, default_term, passes, truth_formula, typing};
ghost use Rattle.jd_term.specs.Formulas.{formula_view};
ghost use Rattle.jd_term.specs.Makers.{GivesFormula};
ghost use Rattle.jd_term.specs.TermViews.{term_view};
ghost use Rattle.jd_told_tables.specs.Lent.{term_or};
ghost use Rattle.jd_told_tables.specs.Types.{type_meant};

use crate::numbers::passes;
use jd_base::{NoMemory, Sort};
use jd_row_makers::{and, created, equal, in_int, instance, or};
use jd_schema_trees::NumberTest;
use jd_syntax::{CodeExpr, Kind};
use jd_taclet_matching::OwnedPart;
use jd_term::{Formula, Term};
use jd_told_tables::{FieldType, copied};
use std::alloc::Global;

/// `true` or `false`
pub(crate) fn truth(holds: bool) -> Formula
    ensures { formula_view result ≡ truth_formula holds }
{
    if holds {
        Formula::TrueFormula
    } else {
        Formula::FalseFormula
    }
}

/// What entries of the sort hold before they are written, as a term (JLS 4.12.5).
pub(crate) fn default_term(sort: Sort) -> Term
    ensures { term_view result ≡ default_term sort }
{
    match sort {
        Sort::Int => Term::Number(0),
        Sort::Bool => Term::Boolean(false),
        Sort::Ref => Term::NullTerm,
        Sort::Heap => Term::NullTerm,
        Sort::Field => Term::NullTerm,
    }
}

/// The same as code.
pub(crate) fn default_expr(sort: Sort) -> CodeExpr
    ensures { expr_view result ≡ default_expr sort }
{
    match sort {
        Sort::Int => CodeExpr::IntLiteral(0),
        Sort::Bool => CodeExpr::BoolLiteral(false),
        Sort::Ref => CodeExpr::NullLiteral,
        Sort::Heap => CodeExpr::NullLiteral,
        Sort::Field => CodeExpr::NullLiteral,
    }
}

/// Whether the numbers that are there pass the test, as a part.
pub(crate) fn passed(test: NumberTest, x: Option<i128>, y: Option<i128>) -> Option<OwnedPart>
    ensures { option_map owned_part result ≡ option_and_then (λ x. option_map (λ y. TheFormula (truth_formula (passes (number_test test) x y))) y) x }
{
    match x {
        Some(x) => match y {
            Some(y) => Some(OwnedPart::Formula(truth(passes(test, x, y)))),
            None => None,
        },
        None => None,
    }
}

// That the reference is null or an instance that was created.
fn typed_reference(
    alloc: Global,
    kind: Kind,
    heap: Option<&Term>,
    value: Option<&Term>,
) -> Result<Formula, NoMemory>
    ensures { GivesFormula result (typing (ReferenceType (kind_view kind)) (term_or (option_map (λ t. term_view t.now) heap.entry)) (term_or (option_map (λ t. term_view t.now) value.entry))) }
{
    or(
        alloc,
        equal(copied(alloc, value), Ok(Term::NullTerm)),
        and(
            alloc,
            instance(kind, copied(alloc, value)),
            created(alloc, copied(alloc, heap), copied(alloc, value)),
        ),
    )
}

/// What a well-formed heap says of a value of the type.
pub(crate) fn typed(
    alloc: Global,
    ty: FieldType,
    heap: Option<&Term>,
    value: Option<&Term>,
) -> Result<Formula, NoMemory>
    ensures { GivesFormula result (typing (type_meant ty) (term_or (option_map (λ t. term_view t.now) heap.entry)) (term_or (option_map (λ t. term_view t.now) value.entry))) }
{
    match ty {
        FieldType::Int => in_int(copied(alloc, value)),
        FieldType::Boolean => Ok(Formula::TrueFormula),
        FieldType::Reference(kind) => typed_reference(alloc, kind, heap, value),
    }
}
