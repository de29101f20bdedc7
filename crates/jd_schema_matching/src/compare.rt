//! How two parts compare.

ghost use Rattle.std.specs.Prelude.{◌≡◌, map, option_map};
ghost use Rattle.jd_syntax.specs.CodeViews.{expr_view, kind_view, stmt_view};
ghost use Rattle.jd_syntax.specs.Codes.{stmts_of};
ghost use Rattle.jd_syntax.specs.Names.{var_view};
ghost use Rattle.jd_term.specs.Formulas.{formula_view};
ghost use Rattle.jd_term.specs.TermViews.{loc_view, term_view};
ghost use Rattle.jd_patterns.specs.Bindings.{TheFormula, TheTerm, TheLiteral, TheLocations, TheKind, TheSort, TheName, TheResult, TheField, TheClass, TheLabel, TheCode, TheReturn, TheSimple, TheModality, TheContext, compare, verdict};
ghost use Rattle.jd_schema_matching.specs.Foci.{context_at};
ghost use Rattle.jd_schema_matching.specs.PartViews.{part_view, verdict_view};
ghost use Rattle.jd_schema_matching.specs.Tested.{tests};

use crate::contexts::{FocusTest, same_context};
use crate::parts::PartRef;
use crate::tests::{
    same_code, same_formula, same_kind, same_literal, same_locations, same_modality, same_name,
    same_number, same_result, same_return, same_simple, same_sort, same_term,
};
use jd_base::{ClassId, FieldId, Sort};
use jd_syntax::{CodeExpr, CodeStmt, Kind, VarId};
use jd_term::{Formula, Loc, Modality, Term};

/// How two parts compare.
#[derive(Clone, Copy, PartialEq, Eq)]
pub(crate) enum Verdict {
    /// They are of two kinds.
    OtherKind,
    /// They are equal.
    Equal,
    /// They are of one kind, and different.
    Different,
}

fn verdict_of(same: bool) -> Verdict
    ensures { verdict_view result ≡ verdict same }
{
    if same {
        Verdict::Equal
    } else {
        Verdict::Different
    }
}

/// How two parts compare.
pub(crate) fn compare(x: PartRef<'_>, y: PartRef<'_>) -> Verdict
    ensures { verdict_view result ≡ compare tests (part_view x.entry) (part_view y.entry) }
{
    match x {
        PartRef::Formula(a) => compare_formula(a, y),
        PartRef::Term(a) => compare_term(a, y),
        PartRef::Literal(a) => compare_literal(a, y),
        PartRef::Locations(a) => compare_locations(a, y),
        PartRef::Kind(a) => compare_kind(a, y),
        PartRef::Sort(a) => compare_sort(a, y),
        PartRef::Name(a) => compare_name(a, y),
        PartRef::Result(a) => compare_result(a, y),
        PartRef::Field(a) => compare_field(a, y),
        PartRef::Class(a) => compare_class(a, y),
        PartRef::Label(a) => compare_label(a, y),
        PartRef::Code(a) => compare_code(a, y),
        PartRef::Return(a) => compare_return(a, y),
        PartRef::Simple(a) => compare_simple(a, y),
        PartRef::Modality(a) => compare_modality(a, y),
        PartRef::Context(a, test) => compare_context(a, test, y),
    }
}

fn compare_formula(a: &Formula, y: PartRef<'_>) -> Verdict
    ensures { verdict_view result ≡ compare tests (TheFormula (formula_view a.now)) (part_view y.entry) }
{
    match y {
        PartRef::Formula(b) => verdict_of(same_formula(a, b)),
        _ => Verdict::OtherKind,
    }
}

fn compare_term(a: &Term, y: PartRef<'_>) -> Verdict
    ensures { verdict_view result ≡ compare tests (TheTerm (term_view a.now)) (part_view y.entry) }
{
    match y {
        PartRef::Term(b) => verdict_of(same_term(a, b)),
        _ => Verdict::OtherKind,
    }
}

fn compare_literal(a: i128, y: PartRef<'_>) -> Verdict
    ensures { verdict_view result ≡ compare tests (TheLiteral a) (part_view y.entry) }
{
    match y {
        PartRef::Literal(b) => verdict_of(same_literal(a, b)),
        _ => Verdict::OtherKind,
    }
}

fn compare_locations(a: &Loc, y: PartRef<'_>) -> Verdict
    ensures { verdict_view result ≡ compare tests (TheLocations (loc_view a.now)) (part_view y.entry) }
{
    match y {
        PartRef::Locations(b) => verdict_of(same_locations(a, b)),
        _ => Verdict::OtherKind,
    }
}

fn compare_kind(a: Kind, y: PartRef<'_>) -> Verdict
    ensures { verdict_view result ≡ compare tests (TheKind (kind_view a)) (part_view y.entry) }
{
    match y {
        PartRef::Kind(b) => verdict_of(same_kind(a, b)),
        _ => Verdict::OtherKind,
    }
}

fn compare_sort(a: Sort, y: PartRef<'_>) -> Verdict
    ensures { verdict_view result ≡ compare tests (TheSort a) (part_view y.entry) }
{
    match y {
        PartRef::Sort(b) => verdict_of(same_sort(a, b)),
        _ => Verdict::OtherKind,
    }
}

fn compare_name(a: &VarId, y: PartRef<'_>) -> Verdict
    ensures { verdict_view result ≡ compare tests (TheName (var_view a.now)) (part_view y.entry) }
{
    match y {
        PartRef::Name(b) => verdict_of(same_name(a, b)),
        _ => Verdict::OtherKind,
    }
}

fn compare_result(a: &Option<VarId>, y: PartRef<'_>) -> Verdict
    ensures { verdict_view result ≡ compare tests (TheResult (option_map var_view a.now)) (part_view y.entry) }
{
    match y {
        PartRef::Result(b) => verdict_of(same_result(a, b)),
        _ => Verdict::OtherKind,
    }
}

fn compare_field(a: FieldId, y: PartRef<'_>) -> Verdict
    ensures { verdict_view result ≡ compare tests (TheField a.0) (part_view y.entry) }
{
    match y {
        PartRef::Field(b) => verdict_of(same_number(a.0, b.0)),
        _ => Verdict::OtherKind,
    }
}

fn compare_class(a: ClassId, y: PartRef<'_>) -> Verdict
    ensures { verdict_view result ≡ compare tests (TheClass a.0) (part_view y.entry) }
{
    match y {
        PartRef::Class(b) => verdict_of(same_number(a.0, b.0)),
        _ => Verdict::OtherKind,
    }
}

fn compare_label(a: u32, y: PartRef<'_>) -> Verdict
    ensures { verdict_view result ≡ compare tests (TheLabel a) (part_view y.entry) }
{
    match y {
        PartRef::Label(b) => verdict_of(same_number(a, b)),
        _ => Verdict::OtherKind,
    }
}

fn compare_code(a: &[CodeStmt], y: PartRef<'_>) -> Verdict
    ensures { verdict_view result ≡ compare tests (TheCode (stmts_of (map stmt_view a.now))) (part_view y.entry) }
{
    match y {
        PartRef::Code(b) => verdict_of(same_code(a, b)),
        _ => Verdict::OtherKind,
    }
}

fn compare_return(a: &CodeStmt, y: PartRef<'_>) -> Verdict
    ensures { verdict_view result ≡ compare tests (TheReturn (stmt_view a.now)) (part_view y.entry) }
{
    match y {
        PartRef::Return(b) => verdict_of(same_return(a, b)),
        _ => Verdict::OtherKind,
    }
}

fn compare_simple(a: &CodeExpr, y: PartRef<'_>) -> Verdict
    ensures { verdict_view result ≡ compare tests (TheSimple (expr_view a.now)) (part_view y.entry) }
{
    match y {
        PartRef::Simple(b) => verdict_of(same_simple(a, b)),
        _ => Verdict::OtherKind,
    }
}

fn compare_modality(a: Modality, y: PartRef<'_>) -> Verdict
    ensures { verdict_view result ≡ compare tests (TheModality a) (part_view y.entry) }
{
    match y {
        PartRef::Modality(b) => verdict_of(same_modality(a, b)),
        _ => Verdict::OtherKind,
    }
}

fn compare_context(a: &[CodeStmt], test: FocusTest, y: PartRef<'_>) -> Verdict
    ensures { verdict_view result ≡ compare tests (TheContext (context_at test (stmts_of (map stmt_view a.now)))) (part_view y.entry) }
{
    match y {
        PartRef::Context(b, other) => verdict_of(same_context(a, test, b, other)),
        _ => Verdict::OtherKind,
    }
}
