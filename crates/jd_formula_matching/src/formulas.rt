//! Patterns of formulas against formulas.

ghost use Rattle.std.specs.Prelude.{◌≡◌, IfOk, option_map};
ghost use Rattle.jd_syntax.specs.CodeViews.{code_view, stmt_view};
ghost use Rattle.jd_term.specs.Formulas.{formula_view};
ghost use Rattle.jd_patterns.specs.Foci.{first_in, sought};
ghost use Rattle.jd_patterns.specs.Bindings.{TheContext, TheModality, bind, next, on};
ghost use Rattle.jd_patterns.specs.Matching.{match_formula, match_stmt};
ghost use Rattle.jd_schema_trees.specs.CodeViews.{stmt_pattern};
ghost use Rattle.jd_schema_trees.specs.FormulaViews.{formula_pattern};
ghost use Rattle.jd_schema_matching.specs.Bound.{answered};
ghost use Rattle.jd_formula_matching.specs.Sought.{sought_test};
ghost use Rattle.jd_schema_matching.specs.Foci.{context_at};
ghost use Rattle.jd_schema_matching.specs.PartViews.{bindings, part_view};
ghost use Rattle.jd_schema_matching.specs.Tested.{tests};

use jd_base::NoMemory;
use jd_schema_matching::{
    FocusTest, Found, PartRef, bind, first_focus, match_kind, match_loc, match_modality,
    match_sort, match_stmt, match_term, match_whole,
};
use jd_schema_trees::{SCode, SFormula, SStmt};
use jd_syntax::{Code, CodeStmt};
use jd_term::{Formula, Modality};

// Which statement a pattern looks for: an outer one where its first list begins with a statement, else a bare one.
fn sought(p: &SStmt) -> FocusTest
    ensures { result ≡ sought_test (stmt_pattern p.now) }
{
    match p {
        SStmt::Block(_, c) => match &**c {
            SCode::Then(_, _) => FocusTest::Outer,
            _ => FocusTest::Bare,
        },
        SStmt::BlockPast(_, _, _) => FocusTest::Outer,
        SStmt::Frame(_, c) => match &**c {
            SCode::Then(_, _) => FocusTest::Outer,
            _ => FocusTest::Bare,
        },
        SStmt::Catch(c, _, _) => match &**c {
            SCode::Then(_, _) => FocusTest::Outer,
            _ => FocusTest::Bare,
        },
        SStmt::Finally(c, _) => match &**c {
            SCode::Then(_, _) => FocusTest::Outer,
            _ => FocusTest::Bare,
        },
        _ => FocusTest::Bare,
    }
}

// The statement at the focus where one like the pattern may stand.
fn focus_for<'t>(s: &SStmt, c: &'t Code) -> Option<&'t CodeStmt>
    ensures { option_map (λ t. (context_at (sought_test (stmt_pattern s.now)) (code_view c.now), stmt_view t.now)) result ≡ first_in (sought (stmt_pattern s.now)) (code_view c.now) }
{
    first_focus(&c.stmts, sought(s))
}

// What is around that focus.
fn around_focus<'t>(s: &SStmt, c: &'t Code) -> PartRef<'t>
    ensures { part_view result ≡ TheContext (context_at (sought_test (stmt_pattern s.now)) (code_view c.now)) }
{
    PartRef::Context(&c.stmts, sought(s))
}

// Whether the pattern can stand for the statement at the focus, and the variable for what is around it.
fn match_focus<'t>(
    s: &'t SStmt,
    k: &'t [u8],
    c: &'t Code,
    found: &mut Found<'t>,
) -> Result<bool, NoMemory>
    ensures { IfOk result (λ b. answered b (bindings found.new) ≡ on (first_in (sought (stmt_pattern s.now)) (code_view c.now)) (λ q. next (bind tests k.now (TheContext q.0) (bindings found.old)) (λ φ. match_stmt tests (stmt_pattern s.now) q.1 φ))) }
{
    match focus_for(s, c) {
        None => Ok(false),
        Some(t) => Ok(bind(k, around_focus(s, c), found)? && match_stmt(s, t, found)?),
    }
}

// Whether the variable can stand for the modality, and the pattern for the statement at the focus.
fn match_focused<'t>(
    n: &'t [u8],
    k: &'t [u8],
    s: &'t SStmt,
    m: Modality,
    d: &'t Code,
    found: &mut Found<'t>,
) -> Result<bool, NoMemory>
    ensures { IfOk result (λ b. answered b (bindings found.new) ≡ next (bind tests n.now (TheModality m) (bindings found.old)) (λ υ. on (first_in (sought (stmt_pattern s.now)) (code_view d.now)) (λ q. next (bind tests k.now (TheContext q.0) υ) (λ φ. match_stmt tests (stmt_pattern s.now) q.1 φ)))) }
{
    Ok(bind(n, PartRef::Modality(m), found)? && match_focus(s, k, d, found)?)
}

/// Whether the pattern can stand for the formula, with what was found.
pub fn match_formula<'t>(
    p: &'t SFormula,
    f: &'t Formula,
    found: &mut Found<'t>,
) -> Result<bool, NoMemory>
    ensures { IfOk result (λ b. answered b (bindings found.new) ≡ match_formula tests (formula_pattern p.now) (formula_view f.now) (bindings found.old)) }
{
    match p {
        SFormula::Any(n) => bind(n, PartRef::Formula(f), found),
        SFormula::Put(_, _) | SFormula::Lifted(_) | SFormula::Updated(_, _, _) => Ok(false),
        SFormula::TrueFormula => match f {
            Formula::TrueFormula => Ok(true),
            _ => Ok(false),
        },
        SFormula::FalseFormula => match f {
            Formula::FalseFormula => Ok(true),
            _ => Ok(false),
        },
        SFormula::Not(p) => match f {
            Formula::Not(a) => match_formula(p, a, found),
            _ => Ok(false),
        },
        SFormula::And(p, q) => match f {
            Formula::And(a, b) => Ok(match_formula(p, a, found)? && match_formula(q, b, found)?),
            _ => Ok(false),
        },
        SFormula::Or(p, q) => match f {
            Formula::Or(a, b) => Ok(match_formula(p, a, found)? && match_formula(q, b, found)?),
            _ => Ok(false),
        },
        SFormula::Implies(p, q) => match f {
            Formula::Implies(a, b) => Ok(
                match_formula(p, a, found)? && match_formula(q, b, found)?,
            ),
            _ => Ok(false),
        },
        SFormula::Iff(p, q) => match f {
            Formula::Iff(a, b) => Ok(match_formula(p, a, found)? && match_formula(q, b, found)?),
            _ => Ok(false),
        },
        SFormula::Equal(p, q) => match f {
            Formula::Equal(a, b) => Ok(match_term(p, a, found)? && match_term(q, b, found)?),
            _ => Ok(false),
        },
        SFormula::Less(p, q) => match f {
            Formula::Less(a, b) => Ok(match_term(p, a, found)? && match_term(q, b, found)?),
            _ => Ok(false),
        },
        SFormula::LessOrEqual(p, q) => match f {
            Formula::LessOrEqual(a, b) => Ok(match_term(p, a, found)? && match_term(q, b, found)?),
            _ => Ok(false),
        },
        SFormula::Invariant(p, q) => match f {
            Formula::Invariant(a, b) => Ok(match_term(p, a, found)? && match_term(q, b, found)?),
            _ => Ok(false),
        },
        SFormula::Forall(s, p) => match f {
            Formula::Forall(r, a) => Ok(match_sort(s, *r, found)? && match_formula(p, a, found)?),
            _ => Ok(false),
        },
        SFormula::Exists(s, p) => match f {
            Formula::Exists(r, a) => Ok(match_sort(s, *r, found)? && match_formula(p, a, found)?),
            _ => Ok(false),
        },
        SFormula::InInt(p) => match f {
            Formula::InInt(a) => match_term(p, a, found),
            _ => Ok(false),
        },
        SFormula::WellFormed(p) => match f {
            Formula::WellFormed(a) => match_term(p, a, found),
            _ => Ok(false),
        },
        SFormula::IsInstance(k, p) => match f {
            Formula::IsInstance(l, a) => Ok(match_kind(k, *l, found)? && match_term(p, a, found)?),
            _ => Ok(false),
        },
        SFormula::IsExactInstance(k, p) => match f {
            Formula::IsExactInstance(l, a) => Ok(
                match_kind(k, *l, found)? && match_term(p, a, found)?,
            ),
            _ => Ok(false),
        },
        SFormula::Focus(n, k, c, p) => match c {
            SCode::Then(s, rest) => match &**rest {
                SCode::Done => match f {
                    Formula::Modal(m, d, a) => Ok(
                        match_focused(n, k, s, *m, d, found)? && match_formula(p, a, found)?,
                    ),
                    _ => Ok(false),
                },
                _ => Ok(false),
            },
            _ => Ok(false),
        },
        SFormula::Modal(m, c, p) => match f {
            Formula::Modal(n, d, a) => Ok(
                match_modality(m, *n, found)?
                    && match_whole(c, d, found)?
                    && match_formula(p, a, found)?,
            ),
            _ => Ok(false),
        },
        SFormula::InLocations(p, q, l) => match f {
            Formula::InLocations(a, b, m) => Ok(
                match_term(p, a, found)? && match_term(q, b, found)? && match_loc(l, m, found)?,
            ),
            _ => Ok(false),
        },
    }
}
