//! Makers of boxed parts: each takes the results of its parts, which stand in boxes, and gives the result of the whole. A part takes two
//! words of the stack while the others are made, and not what a tree takes. The error is `NoMemory` alone.

ghost use Rattle.jd_syntax.specs.Codes.{PlainCode};
ghost use Rattle.jd_term.specs.Formulas.{Modal, Pairs, PlainFormula, Updated, formula_view};
ghost use Rattle.jd_term.specs.Makers.{GivesBoxedFormula, GivesBoxedLoc, GivesBoxedTerm, GivesCode, GivesFormula, GivesLoc, GivesTerm, GivesUpdate, with_formula, with_formulas, with_object, with_one};
ghost use Rattle.jd_term.specs.Terms.{Anon, Arithmetic, Create, ElementRange, PlainLoc, PlainTerm, Select, Single, Store, Sum, Union};
ghost use Rattle.jd_term.specs.TermViews.{loc_view, term_view};

use crate::formula::{Formula, Modality, Update};
use crate::term::{ArithmeticOp, Loc, Term};
use jd_base::{NoMemory, Sort, both};
use jd_syntax::Code;
use std::alloc::Global;

/// The term in a box.
#[inline(never)]
pub(crate) fn boxed(alloc: Global, t: Result<Term, NoMemory>) -> Result<Box<Term>, NoMemory>
    ensures { (x : PlainTerm) → GivesTerm t x → GivesBoxedTerm result x }
{
    Ok(Box::new(alloc, t?)?)
}

/// The location set in a box.
#[inline(never)]
pub(crate) fn boxed_loc(alloc: Global, l: Result<Loc, NoMemory>) -> Result<Box<Loc>, NoMemory>
    ensures { (x : PlainLoc) → GivesLoc l x → GivesBoxedLoc result x }
{
    Ok(Box::new(alloc, l?)?)
}

/// The formula in a box.
#[inline(never)]
pub(crate) fn boxed_formula(
    alloc: Global,
    f: Result<Formula, NoMemory>,
) -> Result<Box<Formula>, NoMemory>
    ensures { (x : PlainFormula) → GivesFormula f x → GivesBoxedFormula result x }
{
    Ok(Box::new(alloc, f?)?)
}

/// As [`crate::with_one`].
pub(crate) fn with_one(like: &Term, a: Result<Box<Term>, NoMemory>) -> Result<Term, NoMemory>
    ensures { (x : PlainTerm) → GivesBoxedTerm a x → GivesTerm result (with_one (term_view like.now) x) }
{
    let a = a?;
    match like {
        Term::Negation(_) => Ok(Term::Negation(a)),
        Term::Wrap(_) => Ok(Term::Wrap(a)),
        Term::Length(_) => Ok(Term::Length(a)),
        _ => Ok(Term::ElementField(a)),
    }
}

/// As [`crate::arithmetic`].
pub(crate) fn arithmetic(
    operation: ArithmeticOp,
    a: Result<Box<Term>, NoMemory>,
    b: Result<Box<Term>, NoMemory>,
) -> Result<Term, NoMemory>
    ensures { (x : PlainTerm) (y : PlainTerm) → GivesBoxedTerm a x → GivesBoxedTerm b y → GivesTerm result (Arithmetic operation x y) }
{
    let (a, b) = both(a, b)?;
    Ok(Term::Arithmetic(operation, a, b))
}

/// As [`crate::create`].
pub(crate) fn create(
    a: Result<Box<Term>, NoMemory>,
    b: Result<Box<Term>, NoMemory>,
) -> Result<Term, NoMemory>
    ensures { (x : PlainTerm) (y : PlainTerm) → GivesBoxedTerm a x → GivesBoxedTerm b y → GivesTerm result (Create x y) }
{
    let (a, b) = both(a, b)?;
    Ok(Term::Create(a, b))
}

/// As [`crate::select`].
pub(crate) fn select(
    sort: Sort,
    a: Result<Box<Term>, NoMemory>,
    b: Result<Box<Term>, NoMemory>,
    c: Result<Box<Term>, NoMemory>,
) -> Result<Term, NoMemory>
    ensures { (x : PlainTerm) (y : PlainTerm) (z : PlainTerm) → GivesBoxedTerm a x → GivesBoxedTerm b y → GivesBoxedTerm c z → GivesTerm result (Select sort x y z) }
{
    let (a, (b, c)) = both(a, both(b, c))?;
    Ok(Term::Select(sort, a, b, c))
}

/// As [`crate::sum`].
pub(crate) fn sum(
    a: Result<Box<Term>, NoMemory>,
    b: Result<Box<Term>, NoMemory>,
    c: Result<Box<Term>, NoMemory>,
) -> Result<Term, NoMemory>
    ensures { (x : PlainTerm) (y : PlainTerm) (z : PlainTerm) → GivesBoxedTerm a x → GivesBoxedTerm b y → GivesBoxedTerm c z → GivesTerm result (Sum x y z) }
{
    let (a, (b, c)) = both(a, both(b, c))?;
    Ok(Term::Sum(a, b, c))
}

/// As [`crate::store`].
pub(crate) fn store(
    a: Result<Box<Term>, NoMemory>,
    b: Result<Box<Term>, NoMemory>,
    c: Result<Box<Term>, NoMemory>,
    d: Result<Box<Term>, NoMemory>,
) -> Result<Term, NoMemory>
    ensures { (x : PlainTerm) (y : PlainTerm) (z : PlainTerm) (w : PlainTerm) → GivesBoxedTerm a x → GivesBoxedTerm b y → GivesBoxedTerm c z → GivesBoxedTerm d w → GivesTerm result (Store x y z w) }
{
    let ((a, b), (c, d)) = both(both(a, b), both(c, d))?;
    Ok(Term::Store(a, b, c, d))
}

/// As [`crate::anon`].
pub(crate) fn anon(
    a: Result<Box<Term>, NoMemory>,
    l: Result<Box<Loc>, NoMemory>,
    b: Result<Box<Term>, NoMemory>,
) -> Result<Term, NoMemory>
    ensures { (x : PlainTerm) (y : PlainLoc) (z : PlainTerm) → GivesBoxedTerm a x → GivesBoxedLoc l y → GivesBoxedTerm b z → GivesTerm result (Anon x y z) }
{
    let (a, (l, b)) = both(a, both(l, b))?;
    Ok(Term::Anon(a, l, b))
}

/// As [`crate::with_object`].
pub(crate) fn with_object(like: &Loc, a: Result<Box<Term>, NoMemory>) -> Result<Loc, NoMemory>
    ensures { (x : PlainTerm) → GivesBoxedTerm a x → GivesLoc result (with_object (loc_view like.now) x) }
{
    let a = a?;
    match like {
        Loc::ObjectFields(_) => Ok(Loc::ObjectFields(a)),
        _ => Ok(Loc::ArrayElements(a)),
    }
}

/// As [`crate::single`].
pub(crate) fn single(
    a: Result<Box<Term>, NoMemory>,
    b: Result<Box<Term>, NoMemory>,
) -> Result<Loc, NoMemory>
    ensures { (x : PlainTerm) (y : PlainTerm) → GivesBoxedTerm a x → GivesBoxedTerm b y → GivesLoc result (Single x y) }
{
    let (a, b) = both(a, b)?;
    Ok(Loc::Single(a, b))
}

/// As [`crate::element_range`].
pub(crate) fn element_range(
    a: Result<Box<Term>, NoMemory>,
    b: Result<Box<Term>, NoMemory>,
    c: Result<Box<Term>, NoMemory>,
) -> Result<Loc, NoMemory>
    ensures { (x : PlainTerm) (y : PlainTerm) (z : PlainTerm) → GivesBoxedTerm a x → GivesBoxedTerm b y → GivesBoxedTerm c z → GivesLoc result (ElementRange x y z) }
{
    let (a, (b, c)) = both(a, both(b, c))?;
    Ok(Loc::ElementRange(a, b, c))
}

/// As [`crate::union`].
pub(crate) fn union(
    l: Result<Box<Loc>, NoMemory>,
    m: Result<Box<Loc>, NoMemory>,
) -> Result<Loc, NoMemory>
    ensures { (x : PlainLoc) (y : PlainLoc) → GivesBoxedLoc l x → GivesBoxedLoc m y → GivesLoc result (Union x y) }
{
    let (l, m) = both(l, m)?;
    Ok(Loc::Union(l, m))
}

/// As [`crate::with_formula`].
pub(crate) fn with_formula(
    like: &Formula,
    a: Result<Box<Formula>, NoMemory>,
) -> Result<Formula, NoMemory>
    ensures { (x : PlainFormula) → GivesBoxedFormula a x → GivesFormula result (with_formula (formula_view like.now) x) }
{
    let a = a?;
    match like {
        Formula::Forall(s, _) => Ok(Formula::Forall(*s, a)),
        Formula::Exists(s, _) => Ok(Formula::Exists(*s, a)),
        _ => Ok(Formula::Not(a)),
    }
}

/// As [`crate::with_formulas`].
pub(crate) fn with_formulas(
    like: &Formula,
    a: Result<Box<Formula>, NoMemory>,
    b: Result<Box<Formula>, NoMemory>,
) -> Result<Formula, NoMemory>
    ensures { (x : PlainFormula) (y : PlainFormula) → GivesBoxedFormula a x → GivesBoxedFormula b y → GivesFormula result (with_formulas (formula_view like.now) x y) }
{
    let (a, b) = both(a, b)?;
    match like {
        Formula::And(_, _) => Ok(Formula::And(a, b)),
        Formula::Or(_, _) => Ok(Formula::Or(a, b)),
        Formula::Implies(_, _) => Ok(Formula::Implies(a, b)),
        _ => Ok(Formula::Iff(a, b)),
    }
}

/// As [`crate::updated`].
pub(crate) fn updated(
    u: Result<Update, NoMemory>,
    a: Result<Box<Formula>, NoMemory>,
) -> Result<Formula, NoMemory>
    ensures { (x : Pairs) (y : PlainFormula) → GivesUpdate u x → GivesBoxedFormula a y → GivesFormula result (Updated x y) }
{
    let (u, a) = both(u, a)?;
    Ok(Formula::Updated(u, a))
}

/// As [`crate::modal`].
pub(crate) fn modal(
    m: Modality,
    c: Result<Code, NoMemory>,
    a: Result<Box<Formula>, NoMemory>,
) -> Result<Formula, NoMemory>
    ensures { (x : PlainCode) (y : PlainFormula) → GivesCode c x → GivesBoxedFormula a y → GivesFormula result (Modal m x y) }
{
    let (c, a) = both(c, a)?;
    Ok(Formula::Modal(m, c, a))
}
