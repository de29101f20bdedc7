//! Equality of parts as the answer of the exact tests, over which matching goes.

ghost use Rattle.std.specs.Prelude.{◌≡◌, ◌↔◌, IsTrue, map, option_map};
ghost use Rattle.jd_syntax.specs.CodeViews.{expr_view, kind_view, stmt_view};
ghost use Rattle.jd_syntax.specs.Codes.{stmts_of};
ghost use Rattle.jd_syntax.specs.Names.{var_view};
ghost use Rattle.jd_term.specs.Formulas.{formula_view};
ghost use Rattle.jd_term.specs.TermViews.{loc_view, term_view};
ghost use Rattle.jd_schema_matching.specs.Tested.{tests};

use jd_base::Sort;
use jd_syntax::{BinaryOp, CodeExpr, CodeStmt, Kind, UnaryOp, VarId};
use jd_term::{ArithmeticOp, Formula, Loc, Modality, Term};

/// Whether both are one variable.
pub fn same_variable(a: &[u8], b: &[u8]) -> bool
    ensures { result ≡ tests.variable.same a.now b.now }
{
    a == b
}

pub(crate) fn same_formula(a: &Formula, b: &Formula) -> bool
    ensures { result ≡ tests.formula.same (formula_view a.now) (formula_view b.now) }
{
    a.equals(b)
}

pub(crate) fn same_term(a: &Term, b: &Term) -> bool
    ensures { result ≡ tests.term.same (term_view a.now) (term_view b.now) }
{
    a.equals(b)
}

/// Whether the term is this one.
pub(crate) fn is_given(given: Term, t: &Term) -> bool
    ensures { result ≡ tests.term.same (term_view given) (term_view t.now) }
{
    same_term(&given, t)
}

pub(crate) fn same_literal(a: i128, b: i128) -> bool
    ensures { result ≡ tests.literal.same a b }
{
    a == b
}

pub(crate) fn same_locations(a: &Loc, b: &Loc) -> bool
    ensures { result ≡ tests.locations.same (loc_view a.now) (loc_view b.now) }
{
    a.equals(b)
}

pub(crate) fn same_kind(a: Kind, b: Kind) -> bool
    ensures { result ≡ tests.kind.same (kind_view a) (kind_view b) }
{
    a.equals(&b)
}

pub(crate) fn same_sort(a: Sort, b: Sort) -> bool
    ensures { result ≡ tests.sort.same a b }
{
    a == b
}

pub(crate) fn same_name(a: &VarId, b: &VarId) -> bool
    ensures { result ≡ tests.name.same (var_view a.now) (var_view b.now) }
{
    a.equals(b)
}

pub(crate) fn equal_results(a: &Option<VarId>, b: &Option<VarId>) -> bool
    ensures { IsTrue result ↔ option_map var_view a.now ≡ option_map var_view b.now }
{
    match (a, b) {
        (None, None) => true,
        (Some(a), Some(b)) => a.equals(b),
        _ => false,
    }
}

pub(crate) fn same_result(a: &Option<VarId>, b: &Option<VarId>) -> bool
    ensures { result ≡ tests.result.same (option_map var_view a.now) (option_map var_view b.now) }
{
    equal_results(a, b)
}

pub(crate) fn same_number(a: u32, b: u32) -> bool
    ensures { result ≡ tests.number.same a b }
{
    a == b
}

#[tactic(auto, using(jd_syntax::proofs::Lists::at_each))]
fn equal_stmts(a: &[CodeStmt], b: &[CodeStmt]) -> bool
    ensures { IsTrue result ↔ map stmt_view a.now ≡ map stmt_view b.now }
{
    if a.len() != b.len() {
        return false;
    }
    for i in 0..a.len() {
        if !a[i].equals(&b[i]) {
            return false;
        }
    }
    true
}

#[tactic(auto, using(jd_syntax::proofs::CodeLemmas::stmts_same))]
pub(crate) fn equal_codes(a: &[CodeStmt], b: &[CodeStmt]) -> bool
    ensures { IsTrue result ↔ stmts_of (map stmt_view a.now) ≡ stmts_of (map stmt_view b.now) }
{
    equal_stmts(a, b)
}

pub(crate) fn same_code(a: &[CodeStmt], b: &[CodeStmt]) -> bool
    ensures { result ≡ tests.code.same (stmts_of (map stmt_view a.now)) (stmts_of (map stmt_view b.now)) }
{
    equal_codes(a, b)
}

pub(crate) fn same_return(a: &CodeStmt, b: &CodeStmt) -> bool
    ensures { result ≡ tests.returned.same (stmt_view a.now) (stmt_view b.now) }
{
    a.equals(b)
}

pub(crate) fn same_simple(a: &CodeExpr, b: &CodeExpr) -> bool
    ensures { result ≡ tests.simple.same (expr_view a.now) (expr_view b.now) }
{
    a.equals(b)
}

pub(crate) fn same_modality(a: Modality, b: Modality) -> bool
    ensures { result ≡ tests.modality.same a b }
{
    a == b
}

pub(crate) fn same_operation(a: ArithmeticOp, b: ArithmeticOp) -> bool
    ensures { result ≡ tests.arithmetic.same a b }
{
    a == b
}

pub(crate) fn same_unary(a: UnaryOp, b: UnaryOp) -> bool
    ensures { result ≡ tests.unary.same a b }
{
    a == b
}

pub(crate) fn same_binary(a: BinaryOp, b: BinaryOp) -> bool
    ensures { result ≡ tests.binary.same a b }
{
    a == b
}
