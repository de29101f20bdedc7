//! Patterns of formulas.

ghost use Rattle.std.specs.Prelude.{ℕ, ◌≡◌, IfOk, List};
ghost use Rattle.jd_patterns.specs.Patterns as plain;
ghost use Rattle.jd_patterns.specs.Patterns.{FormulaPattern, InIntOf, SortPattern, TermPattern, Tested};
ghost use Rattle.jd_schema_trees.specs.FormulaViews.{formula_pattern};
ghost use Rattle.jd_row_data.specs.Data.{comparison, connective, formula_data, quantifier};
ghost use Rattle.jd_row_data.specs.Gives.{GivesFormula, GivesName, GivesSort, GivesTerm};

use crate::data::{Comparison, Connective, FormulaData, Quantifier};
use crate::terms::{boxed_term, sort, term};
use jd_base::{NoMemory, both, copy_bytes};
use jd_lists::boxed;
use jd_schema_trees::{SFormula, SSort, STerm};
use std::alloc::Global;

fn any_formula(name: Result<Vec<u8>, NoMemory>) -> Result<SFormula, NoMemory>
    ensures { (n : List ℕ) → GivesName name n → GivesFormula result (plain.FormulaVar n) }
{
    Ok(SFormula::Any(name?))
}

fn put_in(
    alloc: Global,
    name: Result<Vec<u8>, NoMemory>,
    t: Result<STerm, NoMemory>,
) -> Result<SFormula, NoMemory>
    ensures { (n : List ℕ) (x : TermPattern) → GivesName name n → GivesTerm t x → GivesFormula result (plain.PutIn n x) }
{
    let (name, t) = both(name, boxed_term(alloc, t))?;
    Ok(SFormula::Put(name, t))
}

// The part in a box.
fn part(alloc: Global, a: Result<SFormula, NoMemory>) -> Result<Box<SFormula>, NoMemory>
    ensures { (x : FormulaPattern) → GivesFormula a x → IfOk result (λ b. formula_pattern b.value ≡ x) }
{
    boxed(alloc, a?)
}

fn not(alloc: Global, a: Result<SFormula, NoMemory>) -> Result<SFormula, NoMemory>
    ensures { (x : FormulaPattern) → GivesFormula a x → GivesFormula result (plain.Not x) }
{
    Ok(SFormula::Not(part(alloc, a)?))
}

// What joins both.
fn joined_by(k: Connective, a: Box<SFormula>, b: Box<SFormula>) -> SFormula
    ensures { formula_pattern result ≡ plain.Connected (connective k) (formula_pattern a.value) (formula_pattern b.value) }
{
    match k {
        Connective::And => SFormula::And(a, b),
        Connective::Or => SFormula::Or(a, b),
        Connective::Implies => SFormula::Implies(a, b),
        Connective::Iff => SFormula::Iff(a, b),
    }
}

fn connected(
    alloc: Global,
    k: Connective,
    a: Result<SFormula, NoMemory>,
    b: Result<SFormula, NoMemory>,
) -> Result<SFormula, NoMemory>
    ensures { (x y : FormulaPattern) → GivesFormula a x → GivesFormula b y → GivesFormula result (plain.Connected (connective k) x y) }
{
    let (a, b) = both(part(alloc, a), part(alloc, b))?;
    Ok(joined_by(k, a, b))
}

fn compared(
    alloc: Global,
    k: Comparison,
    t: Result<STerm, NoMemory>,
    u: Result<STerm, NoMemory>,
) -> Result<SFormula, NoMemory>
    ensures { (x y : TermPattern) → GivesTerm t x → GivesTerm u y → GivesFormula result (plain.Compared (comparison k) x y) }
{
    let (t, u) = both(boxed_term(alloc, t), boxed_term(alloc, u))?;
    match k {
        Comparison::Equal => Ok(SFormula::Equal(t, u)),
        Comparison::Less => Ok(SFormula::Less(t, u)),
        Comparison::LessOrEqual => Ok(SFormula::LessOrEqual(t, u)),
    }
}

fn quantified(
    alloc: Global,
    k: Quantifier,
    s: Result<SSort, NoMemory>,
    a: Result<SFormula, NoMemory>,
) -> Result<SFormula, NoMemory>
    ensures { (z : SortPattern) (x : FormulaPattern) → GivesSort s z → GivesFormula a x → GivesFormula result (plain.Quantified (quantifier k) z x) }
{
    let (s, a) = both(s, part(alloc, a))?;
    match k {
        Quantifier::Forall => Ok(SFormula::Forall(s, a)),
        Quantifier::Exists => Ok(SFormula::Exists(s, a)),
    }
}

fn in_int(alloc: Global, t: Result<STerm, NoMemory>) -> Result<SFormula, NoMemory>
    ensures { (x : TermPattern) → GivesTerm t x → GivesFormula result (Tested InIntOf x) }
{
    Ok(SFormula::InInt(boxed_term(alloc, t)?))
}

/// The formula of a row.
pub(crate) fn formula(alloc: Global, a: &FormulaData) -> Result<SFormula, NoMemory>
    ensures { GivesFormula result (formula_data a.now) }
{
    match a {
        FormulaData::AnyFormula(n) => any_formula(copy_bytes(alloc, n)),
        FormulaData::PutIn(n, t) => put_in(alloc, copy_bytes(alloc, n), term(alloc, t)),
        FormulaData::True => Ok(SFormula::TrueFormula),
        FormulaData::False => Ok(SFormula::FalseFormula),
        FormulaData::Not(a) => not(alloc, formula(alloc, a)),
        FormulaData::Connected(k, a, b) => connected(
            alloc,
            *k,
            formula(alloc, a),
            formula(alloc, b),
        ),
        FormulaData::Compared(k, t, u) => compared(alloc, *k, term(alloc, t), term(alloc, u)),
        FormulaData::Quantified(k, s, a) => quantified(
            alloc,
            *k,
            sort(alloc, s),
            formula(alloc, a),
        ),
        FormulaData::InInt(t) => in_int(alloc, term(alloc, t)),
    }
}
