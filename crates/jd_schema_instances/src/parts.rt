//! Parts as parts of a kind. Where there is none of the kind, each has a default.

ghost use Rattle.std.specs.Prelude.{◌≡◌, IfOk, Some, map, option_map};
ghost use Rattle.jd_model.specs.SimpleExpressions.{term_of};
ghost use Rattle.jd_patterns.specs.Chosen.{as_class, as_code, as_context, as_field, as_formula, as_kind, as_label, as_literal, as_locations, as_modality, as_name, as_result, as_return, as_simple, as_sort, as_term};
ghost use Rattle.jd_schema_matching.specs.Foci.{context_at};
ghost use Rattle.jd_schema_matching.specs.PartViews.{part_view};
ghost use Rattle.jd_syntax.specs.CodeNames.{heap_name};
ghost use Rattle.jd_syntax.specs.CodeViews.{expr_view, kind_view, stmt_view};
ghost use Rattle.jd_syntax.specs.Codes.{stmts_of};
ghost use Rattle.jd_syntax.specs.Names.{var_view};
ghost use Rattle.jd_term.specs.Makers.{GivesFormula, GivesLoc, GivesTerm};

use jd_base::{ClassId, FieldId, NoMemory, Sort, copy_bytes};
use jd_schema_matching::{FocusTest, PartRef};
use jd_syntax::{CodeExpr, CodeStmt, Kind, VarId};
use jd_term::{Formula, Loc, Modality, Term};
use std::alloc::Global;

/// The literal that the part is; 0 where it is none.
pub fn as_literal(x: Option<PartRef<'_>>) -> i128
    ensures { result ≡ as_literal (option_map part_view x.entry) }
{
    match x {
        Some(PartRef::Literal(z)) => z,
        _ => 0,
    }
}

/// The class, or `int[]`, that the part is; `int[]` where it is neither.
pub fn as_kind(x: Option<PartRef<'_>>) -> Kind
    ensures { kind_view result ≡ as_kind (option_map part_view x.entry) }
{
    match x {
        Some(PartRef::Kind(k)) => k,
        _ => Kind::IntArray,
    }
}

/// The sort that the part is; `Int` where it is none.
pub fn as_sort(x: Option<PartRef<'_>>) -> Sort
    ensures { result ≡ as_sort (option_map part_view x.entry) }
{
    match x {
        Some(PartRef::Sort(s)) => s,
        _ => Sort::Int,
    }
}

pub(crate) fn as_modality(x: Option<PartRef<'_>>) -> Modality
    ensures { result ≡ as_modality (option_map part_view x.entry) }
{
    match x {
        Some(PartRef::Modality(m)) => m,
        _ => Modality::Necessity,
    }
}

/// The field that the part is; the first one where it is none.
pub fn as_field(x: Option<PartRef<'_>>) -> FieldId
    ensures { result.0 ≡ as_field (option_map part_view x.entry) }
{
    match x {
        Some(PartRef::Field(f)) => f,
        _ => FieldId(0),
    }
}

pub(crate) fn as_class(x: Option<PartRef<'_>>) -> ClassId
    ensures { result.0 ≡ as_class (option_map part_view x.entry) }
{
    match x {
        Some(PartRef::Class(c)) => c,
        _ => ClassId(0),
    }
}

pub(crate) fn as_label(x: Option<PartRef<'_>>) -> u32
    ensures { result ≡ as_label (option_map part_view x.entry) }
{
    match x {
        Some(PartRef::Label(l)) => l,
        _ => 0,
    }
}

pub(crate) fn as_code<'t>(x: Option<PartRef<'t>>) -> &'t [CodeStmt]
    ensures { stmts_of (map stmt_view result.now) ≡ as_code (option_map part_view x.entry) }
{
    match x {
        Some(PartRef::Code(c)) => c,
        _ => &[],
    }
}

/// What is around a focus: the code, and the test of the focus.
#[derive(Clone, Copy)]
pub(crate) struct Around<'t> {
    pub stmts: &'t [CodeStmt],
    pub test: FocusTest,
}

fn context_of<'t>(x: PartRef<'t>) -> Around<'t>
    ensures { context_at result.test (stmts_of (map stmt_view result.stmts.now)) ≡ as_context (Some (part_view x.entry)) }
{
    match x {
        PartRef::Context(stmts, test) => Around { stmts, test },
        _ => Around {
            stmts: &[],
            test: FocusTest::Bare,
        },
    }
}

pub(crate) fn as_context<'t>(x: Option<PartRef<'t>>) -> Around<'t>
    ensures { context_at result.test (stmts_of (map stmt_view result.stmts.now)) ≡ as_context (option_map part_view x.entry) }
{
    match x {
        Some(part) => context_of(part),
        None => Around {
            stmts: &[],
            test: FocusTest::Bare,
        },
    }
}

// The heap's variable.
fn heap_variable(alloc: Global) -> Result<VarId, NoMemory>
    ensures { IfOk result (λ v. var_view v ≡ heap_name) }
{
    let name = copy_bytes(alloc, b"@heap")?;
    Ok(VarId {
        name,
        sort: Sort::Heap,
    })
}

/// A copy of the program variable that the part is; the heap's where it is none.
pub fn as_name(alloc: Global, x: Option<PartRef<'_>>) -> Result<VarId, NoMemory>
    ensures { IfOk result (λ v. var_view v ≡ as_name (option_map part_view x.entry)) }
{
    match x {
        Some(PartRef::Name(v)) => v.copy(alloc),
        _ => heap_variable(alloc),
    }
}

pub(crate) fn copy_result(alloc: Global, v: &Option<VarId>) -> Result<Option<VarId>, NoMemory>
    ensures { IfOk result (λ w. option_map var_view w ≡ option_map var_view v.now) }
{
    match v {
        None => Ok(None),
        Some(v) => Ok(Some(v.copy(alloc)?)),
    }
}

pub(crate) fn as_result(alloc: Global, x: Option<PartRef<'_>>) -> Result<Option<VarId>, NoMemory>
    ensures { IfOk result (λ r. option_map var_view r ≡ as_result (option_map part_view x.entry)) }
{
    match x {
        Some(PartRef::Result(r)) => copy_result(alloc, r),
        _ => Ok(None),
    }
}

pub(crate) fn as_simple(alloc: Global, x: Option<PartRef<'_>>) -> Result<CodeExpr, NoMemory>
    ensures { IfOk result (λ e. expr_view e ≡ as_simple (option_map part_view x.entry)) }
{
    match x {
        Some(PartRef::Simple(e)) => e.copy(alloc),
        _ => Ok(CodeExpr::NullLiteral),
    }
}

pub(crate) fn as_return(alloc: Global, x: Option<PartRef<'_>>) -> Result<CodeStmt, NoMemory>
    ensures { IfOk result (λ s. stmt_view s ≡ as_return (option_map part_view x.entry)) }
{
    match x {
        Some(PartRef::Return(s)) => s.copy(alloc),
        _ => Ok(CodeStmt::ReturnVoid),
    }
}

pub(crate) fn as_term(alloc: Global, x: Option<PartRef<'_>>) -> Result<Term, NoMemory>
    ensures { GivesTerm result (as_term (option_map part_view x.entry)) }
{
    match x {
        Some(PartRef::Term(t)) => t.copy(alloc),
        _ => Ok(Term::NullTerm),
    }
}

pub(crate) fn as_locations(alloc: Global, x: Option<PartRef<'_>>) -> Result<Loc, NoMemory>
    ensures { GivesLoc result (as_locations (option_map part_view x.entry)) }
{
    match x {
        Some(PartRef::Locations(l)) => l.copy(alloc),
        _ => Ok(Loc::NoLocations),
    }
}

pub(crate) fn as_formula(alloc: Global, x: Option<PartRef<'_>>) -> Result<Formula, NoMemory>
    ensures { GivesFormula result (as_formula (option_map part_view x.entry)) }
{
    match x {
        Some(PartRef::Formula(f)) => f.copy(alloc),
        _ => Ok(Formula::TrueFormula),
    }
}

// A simple expression as a term.
fn simple_term(alloc: Global, e: &CodeExpr) -> Result<Term, NoMemory>
    ensures { GivesTerm result (term_of (expr_view e.now)) }
{
    match e {
        CodeExpr::IntLiteral(z) => Ok(Term::Number(*z as i128)),
        CodeExpr::BoolLiteral(b) => Ok(Term::Boolean(*b)),
        CodeExpr::Variable(x) => Ok(Term::ProgramVariable(x.copy(alloc)?)),
        _ => Ok(Term::NullTerm),
    }
}

/// A simple expression as a term.
pub(crate) fn as_simple_term(alloc: Global, x: Option<PartRef<'_>>) -> Result<Term, NoMemory>
    ensures { GivesTerm result (term_of (as_simple (option_map part_view x.entry))) }
{
    match x {
        Some(PartRef::Simple(e)) => simple_term(alloc, e),
        _ => Ok(Term::NullTerm),
    }
}
