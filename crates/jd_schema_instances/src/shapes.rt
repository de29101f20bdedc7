//! Makers of formulas, some of the form that a pattern has: each takes the results of its parts and gives the result of the whole.

ghost use Rattle.std.specs.Prelude.{◌∷◌, []};
ghost use Rattle.jd_code_makers.specs.Makers.{GivesName};
ghost use Rattle.jd_schema_instances.specs.Forms.{with_class_head, with_quantifier, with_test_head};
ghost use Rattle.jd_schema_trees.specs.FormulaViews.{formula_pattern};
ghost use Rattle.jd_syntax.specs.CodeViews.{kind_view};
ghost use Rattle.jd_syntax.specs.Names.{Name};
ghost use Rattle.jd_term.specs.Formulas.{And, Equal, Iff, Implies, Invariant, Less, LessOrEqual, Not, Or, PlainFormula};
ghost use Rattle.jd_term.specs.Makers.{GivesBoxedFormula, GivesFormula, GivesTerm, GivesUpdate};
ghost use Rattle.jd_term.specs.Terms.{PlainTerm};

use jd_base::{NoMemory, Sort, both};
use jd_schema_trees::SFormula;
use jd_syntax::{Kind, VarId};
use jd_term::{Elementary, Formula, Term, Update};
use std::alloc::Global;

/// The formula in a box.
pub(crate) fn boxed(alloc: Global, f: Result<Formula, NoMemory>) -> Result<Box<Formula>, NoMemory>
    ensures { (x : PlainFormula) → GivesFormula f x → GivesBoxedFormula result x }
{
    Ok(Box::new(alloc, f?)?)
}

/// `(not a)`
pub(crate) fn negated(a: Result<Box<Formula>, NoMemory>) -> Result<Formula, NoMemory>
    ensures { (x : PlainFormula) → GivesBoxedFormula a x → GivesFormula result (Not x) }
{
    Ok(Formula::Not(a?))
}

/// `(and a b)`
pub(crate) fn conjunction(
    a: Result<Box<Formula>, NoMemory>,
    b: Result<Box<Formula>, NoMemory>,
) -> Result<Formula, NoMemory>
    ensures { (x y : PlainFormula) → GivesBoxedFormula a x → GivesBoxedFormula b y → GivesFormula result (And x y) }
{
    let (a, b) = both(a, b)?;
    Ok(Formula::And(a, b))
}

/// `(or a b)`
pub(crate) fn disjunction(
    a: Result<Box<Formula>, NoMemory>,
    b: Result<Box<Formula>, NoMemory>,
) -> Result<Formula, NoMemory>
    ensures { (x y : PlainFormula) → GivesBoxedFormula a x → GivesBoxedFormula b y → GivesFormula result (Or x y) }
{
    let (a, b) = both(a, b)?;
    Ok(Formula::Or(a, b))
}

/// `(imp a b)`
pub(crate) fn implication(
    a: Result<Box<Formula>, NoMemory>,
    b: Result<Box<Formula>, NoMemory>,
) -> Result<Formula, NoMemory>
    ensures { (x y : PlainFormula) → GivesBoxedFormula a x → GivesBoxedFormula b y → GivesFormula result (Implies x y) }
{
    let (a, b) = both(a, b)?;
    Ok(Formula::Implies(a, b))
}

/// `(iff a b)`
pub(crate) fn equivalence(
    a: Result<Box<Formula>, NoMemory>,
    b: Result<Box<Formula>, NoMemory>,
) -> Result<Formula, NoMemory>
    ensures { (x y : PlainFormula) → GivesBoxedFormula a x → GivesBoxedFormula b y → GivesFormula result (Iff x y) }
{
    let (a, b) = both(a, b)?;
    Ok(Formula::Iff(a, b))
}

/// `(eq a b)`
pub(crate) fn equation(
    a: Result<Term, NoMemory>,
    b: Result<Term, NoMemory>,
) -> Result<Formula, NoMemory>
    ensures { (x y : PlainTerm) → GivesTerm a x → GivesTerm b y → GivesFormula result (Equal x y) }
{
    let (a, b) = both(a, b)?;
    Ok(Formula::Equal(a, b))
}

/// `(lt a b)`
pub(crate) fn less(
    a: Result<Term, NoMemory>,
    b: Result<Term, NoMemory>,
) -> Result<Formula, NoMemory>
    ensures { (x y : PlainTerm) → GivesTerm a x → GivesTerm b y → GivesFormula result (Less x y) }
{
    let (a, b) = both(a, b)?;
    Ok(Formula::Less(a, b))
}

/// `(le a b)`
pub(crate) fn less_or_equal(
    a: Result<Term, NoMemory>,
    b: Result<Term, NoMemory>,
) -> Result<Formula, NoMemory>
    ensures { (x y : PlainTerm) → GivesTerm a x → GivesTerm b y → GivesFormula result (LessOrEqual x y) }
{
    let (a, b) = both(a, b)?;
    Ok(Formula::LessOrEqual(a, b))
}

/// `(inv a b)`
pub(crate) fn invariant(
    a: Result<Term, NoMemory>,
    b: Result<Term, NoMemory>,
) -> Result<Formula, NoMemory>
    ensures { (x y : PlainTerm) → GivesTerm a x → GivesTerm b y → GivesFormula result (Invariant x y) }
{
    let (a, b) = both(a, b)?;
    Ok(Formula::Invariant(a, b))
}

/// A formula below the pattern's quantifier; below `exists` where it has none.
pub(crate) fn quantified(
    like: &SFormula,
    s: Sort,
    a: Result<Box<Formula>, NoMemory>,
) -> Result<Formula, NoMemory>
    ensures { (x : PlainFormula) → GivesBoxedFormula a x → GivesFormula result (with_quantifier (formula_pattern like.now) s x) }
{
    let a = a?;
    match like {
        SFormula::Forall(_, _) => Ok(Formula::Forall(s, a)),
        _ => Ok(Formula::Exists(s, a)),
    }
}

/// A term, tested as in the pattern; by `wf` where it tests none.
pub(crate) fn tested(like: &SFormula, a: Result<Term, NoMemory>) -> Result<Formula, NoMemory>
    ensures { (x : PlainTerm) → GivesTerm a x → GivesFormula result (with_test_head (formula_pattern like.now) x) }
{
    let a = a?;
    match like {
        SFormula::InInt(_) => Ok(Formula::InInt(a)),
        _ => Ok(Formula::WellFormed(a)),
    }
}

/// A term and a kind, as in the pattern; by `exact` where it has none.
pub(crate) fn classed(
    like: &SFormula,
    k: Kind,
    a: Result<Term, NoMemory>,
) -> Result<Formula, NoMemory>
    ensures { (x : PlainTerm) → GivesTerm a x → GivesFormula result (with_class_head (formula_pattern like.now) (kind_view k) x) }
{
    let a = a?;
    match like {
        SFormula::IsInstance(_, _) => Ok(Formula::IsInstance(k, a)),
        _ => Ok(Formula::IsExactInstance(k, a)),
    }
}

/// An update of one variable.
pub(crate) fn one_update(
    alloc: Global,
    x: Result<VarId, NoMemory>,
    t: Result<Term, NoMemory>,
) -> Result<Update, NoMemory>
    ensures { (n : Name) (y : PlainTerm) → GivesName x n → GivesTerm t y → GivesUpdate result ((n, y) ∷ []) }
{
    let (variable, value) = both(x, t)?;
    let mut pairs = Vec::new(alloc);
    pairs.push(Elementary { variable, value })?;
    Ok(Update { pairs })
}
