//! The forms of rows' members. Each takes what was made of the parts.

ghost use Rattle.std.specs.Prelude.{◌≡◌, true};
ghost use Rattle.jd_case_rows.specs.Rows.{default_term};
ghost use Rattle.jd_model.specs.Conjunctions.{created_at};
ghost use Rattle.jd_syntax.specs.CodeViews.{kind_view};
ghost use Rattle.jd_term.specs.Formulas as plain;
ghost use Rattle.jd_term.specs.Formulas.{PlainFormula};
ghost use Rattle.jd_term.specs.Makers.{GivesBoxedFormula, GivesFormula, GivesTerm};
ghost use Rattle.jd_term.specs.Terms.{PlainTerm};
ghost use Rattle.jd_term.specs.TermViews.{term_view};

use jd_base::{NoMemory, Sort, both};
use jd_syntax::Kind;
use jd_term::{Formula, Term, select};
use std::alloc::Global;

// The formula in a box.
fn boxed(alloc: Global, f: Result<Formula, NoMemory>) -> Result<Box<Formula>, NoMemory>
    ensures { (x : PlainFormula) → GivesFormula f x → GivesBoxedFormula result x }
{
    Ok(Box::new(alloc, f?)?)
}

// `(and a b)`
fn both_of(
    a: Result<Box<Formula>, NoMemory>,
    b: Result<Box<Formula>, NoMemory>,
) -> Result<Formula, NoMemory>
    ensures { (x y : PlainFormula) → GivesBoxedFormula a x → GivesBoxedFormula b y → GivesFormula result (plain.And x y) }
{
    let (a, b) = both(a, b)?;
    Ok(Formula::And(a, b))
}

// `(or a b)`
fn one_of(
    a: Result<Box<Formula>, NoMemory>,
    b: Result<Box<Formula>, NoMemory>,
) -> Result<Formula, NoMemory>
    ensures { (x y : PlainFormula) → GivesBoxedFormula a x → GivesBoxedFormula b y → GivesFormula result (plain.Or x y) }
{
    let (a, b) = both(a, b)?;
    Ok(Formula::Or(a, b))
}

// `(imp a b)`
fn implied(
    a: Result<Box<Formula>, NoMemory>,
    b: Result<Box<Formula>, NoMemory>,
) -> Result<Formula, NoMemory>
    ensures { (x y : PlainFormula) → GivesBoxedFormula a x → GivesBoxedFormula b y → GivesFormula result (plain.Implies x y) }
{
    let (a, b) = both(a, b)?;
    Ok(Formula::Implies(a, b))
}

/// `(and a b)`
pub fn and(
    alloc: Global,
    a: Result<Formula, NoMemory>,
    b: Result<Formula, NoMemory>,
) -> Result<Formula, NoMemory>
    ensures { (x y : PlainFormula) → GivesFormula a x → GivesFormula b y → GivesFormula result (plain.And x y) }
{
    both_of(boxed(alloc, a), boxed(alloc, b))
}

/// `(or a b)`
pub fn or(
    alloc: Global,
    a: Result<Formula, NoMemory>,
    b: Result<Formula, NoMemory>,
) -> Result<Formula, NoMemory>
    ensures { (x y : PlainFormula) → GivesFormula a x → GivesFormula b y → GivesFormula result (plain.Or x y) }
{
    one_of(boxed(alloc, a), boxed(alloc, b))
}

/// `(imp a b)`
pub fn implies(
    alloc: Global,
    a: Result<Formula, NoMemory>,
    b: Result<Formula, NoMemory>,
) -> Result<Formula, NoMemory>
    ensures { (x y : PlainFormula) → GivesFormula a x → GivesFormula b y → GivesFormula result (plain.Implies x y) }
{
    implied(boxed(alloc, a), boxed(alloc, b))
}

/// `(eq a b)`
pub fn equal(a: Result<Term, NoMemory>, b: Result<Term, NoMemory>) -> Result<Formula, NoMemory>
    ensures { (x y : PlainTerm) → GivesTerm a x → GivesTerm b y → GivesFormula result (plain.Equal x y) }
{
    let (a, b) = both(a, b)?;
    Ok(Formula::Equal(a, b))
}

/// `(inv a b)`
pub fn invariant(a: Result<Term, NoMemory>, b: Result<Term, NoMemory>) -> Result<Formula, NoMemory>
    ensures { (x y : PlainTerm) → GivesTerm a x → GivesTerm b y → GivesFormula result (plain.Invariant x y) }
{
    let (a, b) = both(a, b)?;
    Ok(Formula::Invariant(a, b))
}

/// `(wf a)`
pub fn well_formed(a: Result<Term, NoMemory>) -> Result<Formula, NoMemory>
    ensures { (x : PlainTerm) → GivesTerm a x → GivesFormula result (plain.WellFormed x) }
{
    Ok(Formula::WellFormed(a?))
}

/// `(inInt a)`
pub fn in_int(a: Result<Term, NoMemory>) -> Result<Formula, NoMemory>
    ensures { (x : PlainTerm) → GivesTerm a x → GivesFormula result (plain.InInt x) }
{
    Ok(Formula::InInt(a?))
}

/// `(inst k a)`
pub fn instance(kind: Kind, a: Result<Term, NoMemory>) -> Result<Formula, NoMemory>
    ensures { (x : PlainTerm) → GivesTerm a x → GivesFormula result (plain.IsInstance (kind_view kind) x) }
{
    Ok(Formula::IsInstance(kind, a?))
}

/// `(exact k a)`
pub fn exact(kind: Kind, a: Result<Term, NoMemory>) -> Result<Formula, NoMemory>
    ensures { (x : PlainTerm) → GivesTerm a x → GivesFormula result (plain.IsExactInstance (kind_view kind) x) }
{
    Ok(Formula::IsExactInstance(kind, a?))
}

/// That the object is created in the heap.
pub fn created(
    alloc: Global,
    heap: Result<Term, NoMemory>,
    object: Result<Term, NoMemory>,
) -> Result<Formula, NoMemory>
    ensures { (h o : PlainTerm) → GivesTerm heap h → GivesTerm object o → GivesFormula result (created_at h o) }
{
    equal(
        select(alloc, Sort::Bool, heap, object, Ok(Term::CreatedField)),
        Ok(Term::Boolean(true)),
    )
}

/// What a field of this sort holds before it is written (JLS 4.12.5).
pub(crate) fn default_of(sort: Sort) -> Term
    ensures { term_view result ≡ default_term sort }
{
    match sort {
        Sort::Int => Term::Number(0),
        Sort::Bool => Term::Boolean(false),
        Sort::Ref => Term::NullTerm,
        Sort::Heap => Term::NullTerm,
        Sort::Field => Term::CreatedField,
    }
}
