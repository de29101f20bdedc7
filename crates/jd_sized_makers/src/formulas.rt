//! Formulas with their sizes.

ghost use Rattle.jd_sized_makers.specs.Made.{IsFormula, IsTerm, bound_by, comparing, connecting, truth_formula};
ghost use Rattle.jd_syntax.specs.CodeViews.{kind_view};
ghost use Rattle.jd_term.specs.Formulas as plain;
ghost use Rattle.jd_term.specs.Formulas.{PlainFormula};
ghost use Rattle.jd_term.specs.Makers.{GivesBoxedFormula, GivesFormula, GivesTerm};
ghost use Rattle.jd_term.specs.Terms.{PlainTerm};

use crate::sizes::{over_one, over_two};
use crate::terms::MadeTerm;
use jd_base::{NoMemory, Sort, both};
use jd_lists::discard;
use jd_syntax::{Kind, Quantifier};
use jd_term::{Formula, Term};
use std::alloc::Global;

/// A formula, where memory sufficed, and how many formulas, terms and location sets it has, at most `u64::MAX`.
#[derive(Drop)]
pub struct MadeFormula {
    /// The formula.
    pub tree: Result<Formula, NoMemory>,
    /// Its size.
    pub size: u64,
}

/// A form of formulas with two formulas inside.
#[derive(Clone, Copy)]
pub enum Connective {
    /// `(and a b)`
    And,
    /// `(or a b)`
    Or,
    /// `(imp a b)`
    Implies,
    /// `(iff a b)`
    Iff,
}

/// A form of formulas with two terms inside.
#[derive(Clone, Copy)]
pub enum Comparison {
    /// `(= a b)`
    Equal,
    /// `(< a b)`
    Less,
    /// `(<= a b)`
    LessOrEqual,
    /// `(inv h o)`
    Invariant,
}

/// `true` or `false`
pub fn truth(holds: bool) -> MadeFormula
    ensures { IsFormula result (truth_formula holds) }
{
    if holds {
        MadeFormula {
            tree: Ok(Formula::TrueFormula),
            size: 1,
        }
    } else {
        MadeFormula {
            tree: Ok(Formula::FalseFormula),
            size: 1,
        }
    }
}

// The formula in a box.
#[inline(never)]
fn boxed(alloc: Global, f: Result<Formula, NoMemory>) -> Result<Box<Formula>, NoMemory>
    ensures { (x : PlainFormula) → GivesFormula f x → GivesBoxedFormula result x }
{
    Ok(Box::new(alloc, f?)?)
}

// A formula of this form.
fn of_formulas(
    form: Connective,
    a: Result<Box<Formula>, NoMemory>,
    b: Result<Box<Formula>, NoMemory>,
) -> Result<Formula, NoMemory>
    ensures { (x y : PlainFormula) → GivesBoxedFormula a x → GivesBoxedFormula b y → GivesFormula result (connecting form x y) }
{
    let (a, b) = both(a, b)?;
    match form {
        Connective::And => Ok(Formula::And(a, b)),
        Connective::Or => Ok(Formula::Or(a, b)),
        Connective::Implies => Ok(Formula::Implies(a, b)),
        Connective::Iff => Ok(Formula::Iff(a, b)),
    }
}

/// A formula of this form.
pub fn connected(alloc: Global, form: Connective, a: MadeFormula, b: MadeFormula) -> MadeFormula
    ensures { (x y : PlainFormula) → IsFormula a x → IsFormula b y → IsFormula result (connecting form x y) }
{
    let MadeFormula {
        tree: first,
        size: m,
    } = a;
    let MadeFormula {
        tree: second,
        size: n,
    } = b;
    MadeFormula {
        size: over_two(m, n),
        tree: of_formulas(form, boxed(alloc, first), boxed(alloc, second)),
    }
}

// A formula of this form.
fn of_terms(
    form: Comparison,
    a: Result<Term, NoMemory>,
    b: Result<Term, NoMemory>,
) -> Result<Formula, NoMemory>
    ensures { (x y : PlainTerm) → GivesTerm a x → GivesTerm b y → GivesFormula result (comparing form x y) }
{
    let (a, b) = both(a, b)?;
    match form {
        Comparison::Equal => Ok(Formula::Equal(a, b)),
        Comparison::Less => Ok(Formula::Less(a, b)),
        Comparison::LessOrEqual => Ok(Formula::LessOrEqual(a, b)),
        Comparison::Invariant => Ok(Formula::Invariant(a, b)),
    }
}

/// A formula of this form.
pub fn compared(form: Comparison, a: MadeTerm, b: MadeTerm) -> MadeFormula
    ensures { (x y : PlainTerm) → IsTerm a x → IsTerm b y → IsFormula result (comparing form x y) }
{
    let MadeTerm {
        tree: first,
        size: m,
    } = a;
    let MadeTerm {
        tree: second,
        size: n,
    } = b;
    MadeFormula {
        size: over_two(m, n),
        tree: of_terms(form, first, second),
    }
}

// `(inInt t)`
fn of_int(a: Result<Term, NoMemory>) -> Result<Formula, NoMemory>
    ensures { (x : PlainTerm) → GivesTerm a x → GivesFormula result (plain.InInt x) }
{
    Ok(Formula::InInt(a?))
}

/// That the number is one of 32 bits.
pub fn in_int(a: MadeTerm) -> MadeFormula
    ensures { (x : PlainTerm) → IsTerm a x → IsFormula result (plain.InInt x) }
{
    let MadeTerm { tree, size } = a;
    MadeFormula {
        size: over_one(size),
        tree: of_int(tree),
    }
}

// `(inst k t)`
fn of_kind(kind: Kind, a: Result<Term, NoMemory>) -> Result<Formula, NoMemory>
    ensures { (x : PlainTerm) → GivesTerm a x → GivesFormula result (plain.IsInstance (kind_view kind) x) }
{
    Ok(Formula::IsInstance(kind, a?))
}

/// That the reference is an instance.
pub fn instance(kind: Kind, a: MadeTerm) -> MadeFormula
    ensures { (x : PlainTerm) → IsTerm a x → IsFormula result (plain.IsInstance (kind_view kind) x) }
{
    let MadeTerm { tree, size } = a;
    MadeFormula {
        size: over_one(size),
        tree: of_kind(kind, tree),
    }
}

// `(not a)`
fn denied(a: Result<Box<Formula>, NoMemory>) -> Result<Formula, NoMemory>
    ensures { (x : PlainFormula) → GivesBoxedFormula a x → GivesFormula result (plain.Not x) }
{
    Ok(Formula::Not(a?))
}

/// The denial.
pub fn not(alloc: Global, a: MadeFormula) -> MadeFormula
    ensures { (x : PlainFormula) → IsFormula a x → IsFormula result (plain.Not x) }
{
    let MadeFormula { tree, size } = a;
    MadeFormula {
        size: over_one(size),
        tree: denied(boxed(alloc, tree)),
    }
}

// `(forall s a)` or `(exists s a)`
fn of_all(
    quantifier: Quantifier,
    sort: Sort,
    a: Result<Box<Formula>, NoMemory>,
) -> Result<Formula, NoMemory>
    ensures { (x : PlainFormula) → GivesBoxedFormula a x → GivesFormula result (bound_by quantifier sort x) }
{
    let a = a?;
    match quantifier {
        Quantifier::ForAll => Ok(Formula::Forall(sort, a)),
        Quantifier::Exists => Ok(Formula::Exists(sort, a)),
    }
}

/// What holds of all values of the sort, or of one.
pub fn bound(alloc: Global, quantifier: Quantifier, sort: Sort, a: MadeFormula) -> MadeFormula
    ensures { (x : PlainFormula) → IsFormula a x → IsFormula result (bound_by quantifier sort x) }
{
    let MadeFormula { tree, size } = a;
    MadeFormula {
        size: over_one(size),
        tree: of_all(quantifier, sort, boxed(alloc, tree)),
    }
}

// The formula and a copy of it.
fn doubled(
    alloc: Global,
    f: Result<Formula, NoMemory>,
) -> (Result<Formula, NoMemory>, Result<Formula, NoMemory>)
    ensures { (x : PlainFormula) → GivesFormula f x → GivesFormula result.0 x × GivesFormula result.1 x }
{
    match f {
        Err(NoMemory) => (Err(NoMemory), Err(NoMemory)),
        Ok(f) => {
            let copy = f.copy(alloc);
            (Ok(f), copy)
        }
    }
}

// The same of one with at most so many nodes; of one with more, want of memory.
fn doubled_within(
    alloc: Global,
    within: bool,
    f: Result<Formula, NoMemory>,
) -> (Result<Formula, NoMemory>, Result<Formula, NoMemory>)
    ensures { (x : PlainFormula) → GivesFormula f x → GivesFormula result.0 x × GivesFormula result.1 x }
{
    if within {
        doubled(alloc, f)
    } else {
        discard(f);
        (Err(NoMemory), Err(NoMemory))
    }
}

/// The formula twice. One with more nodes than the limit is let go, and its size alone stays.
pub fn twice(alloc: Global, limit: u32, a: MadeFormula) -> (MadeFormula, MadeFormula)
    ensures { (x : PlainFormula) → IsFormula a x → IsFormula result.0 x × IsFormula result.1 x }
{
    let MadeFormula { tree, size } = a;
    let (one, other) = doubled_within(alloc, size <= u64::from(limit), tree);
    (
        MadeFormula { tree: one, size },
        MadeFormula { tree: other, size },
    )
}
