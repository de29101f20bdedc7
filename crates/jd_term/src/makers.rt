//! Makers: each takes the results of its parts and gives the result of the whole, so that calls nest without a `?`. The error is
//! `NoMemory` alone, where a part is missing or memory runs out.

ghost use Rattle.jd_syntax.specs.Codes.{PlainCode};
ghost use Rattle.jd_term.specs.Makers.{GivesCode, GivesFormula, GivesLoc, GivesTerm, GivesUpdate, IsLeaf, with_formula, with_formulas, with_object, with_one, with_term, with_terms};
ghost use Rattle.jd_term.specs.Formulas.{InLocations, Modal, Pairs, PlainFormula, Updated, formula_view};
ghost use Rattle.jd_term.specs.Terms.{Anon, Arithmetic, Create, ElementRange, PlainLoc, PlainTerm, Select, Single, Store, Sum, Union};
ghost use Rattle.jd_term.specs.TermViews.{const_view, loc_view, term_view};
ghost use Rattle.std.specs.Prelude.{◌≡◌, IfOk};

use crate::boxes;
use crate::boxes::{boxed, boxed_formula, boxed_loc};
use crate::formula::{Formula, Modality, Update};
use crate::term::{ArithmeticOp, ConstId, Loc, Term};
use jd_base::{NoMemory, Sort, both, copy_bytes};
use jd_syntax::Code;
use std::alloc::Global;

impl ConstId {
    /// A copy of the constant.
    pub fn copy(&self, alloc: Global) -> Result<ConstId, NoMemory>
        ensures { IfOk result (λ c. const_view c ≡ const_view self.now) }
    {
        let name = copy_bytes(alloc, &self.name)?;
        Ok(ConstId {
            name,
            sort: self.sort,
        })
    }
}

/// A copy of a term with nothing inside.
pub fn copy_leaf(alloc: Global, t: &Term) -> Result<Term, NoMemory>
    requires { IsLeaf (term_view t.now) }
    ensures { GivesTerm result (term_view t.now) }
{
    match t {
        Term::Number(n) => Ok(Term::Number(*n)),
        Term::Boolean(b) => Ok(Term::Boolean(*b)),
        Term::NullTerm => Ok(Term::NullTerm),
        Term::ProgramVariable(x) => Ok(Term::ProgramVariable(x.copy(alloc)?)),
        Term::Constant(c) => Ok(Term::Constant(c.copy(alloc)?)),
        Term::Bound(i, s) => Ok(Term::Bound(*i, *s)),
        Term::NamedField(f) => Ok(Term::NamedField(*f)),
        _ => Ok(Term::CreatedField),
    }
}

/// The form of `like` with another part; of a form that has not one part alone, `(idx a)`.
pub fn with_one(alloc: Global, like: &Term, a: Result<Term, NoMemory>) -> Result<Term, NoMemory>
    ensures { (x : PlainTerm) → GivesTerm a x → GivesTerm result (with_one (term_view like.now) x) }
{
    boxes::with_one(like, boxed(alloc, a))
}

/// An operation on two integers: `(add a b)` and the like.
pub fn arithmetic(
    alloc: Global,
    operation: ArithmeticOp,
    a: Result<Term, NoMemory>,
    b: Result<Term, NoMemory>,
) -> Result<Term, NoMemory>
    ensures { (x y : PlainTerm) → GivesTerm a x → GivesTerm b y → GivesTerm result (Arithmetic operation x y) }
{
    boxes::arithmetic(operation, boxed(alloc, a), boxed(alloc, b))
}

/// The heap in which an object is created: `(create a b)`.
pub fn create(
    alloc: Global,
    a: Result<Term, NoMemory>,
    b: Result<Term, NoMemory>,
) -> Result<Term, NoMemory>
    ensures { (x y : PlainTerm) → GivesTerm a x → GivesTerm b y → GivesTerm result (Create x y) }
{
    boxes::create(boxed(alloc, a), boxed(alloc, b))
}

/// What a heap holds at a field of an object: `(selI a b c)` and the like.
pub fn select(
    alloc: Global,
    sort: Sort,
    a: Result<Term, NoMemory>,
    b: Result<Term, NoMemory>,
    c: Result<Term, NoMemory>,
) -> Result<Term, NoMemory>
    ensures { (x y z : PlainTerm) → GivesTerm a x → GivesTerm b y → GivesTerm c z → GivesTerm result (Select sort x y z) }
{
    boxes::select(sort, boxed(alloc, a), boxed(alloc, b), boxed(alloc, c))
}

/// A bounded sum: `(bsum a b c)`; `c` stands below one more binder.
pub fn sum(
    alloc: Global,
    a: Result<Term, NoMemory>,
    b: Result<Term, NoMemory>,
    c: Result<Term, NoMemory>,
) -> Result<Term, NoMemory>
    ensures { (x y z : PlainTerm) → GivesTerm a x → GivesTerm b y → GivesTerm c z → GivesTerm result (Sum x y z) }
{
    boxes::sum(boxed(alloc, a), boxed(alloc, b), boxed(alloc, c))
}

/// The heap in which a location is written: `(store a b c d)`.
pub fn store(
    alloc: Global,
    a: Result<Term, NoMemory>,
    b: Result<Term, NoMemory>,
    c: Result<Term, NoMemory>,
    d: Result<Term, NoMemory>,
) -> Result<Term, NoMemory>
    ensures { (x y z w : PlainTerm) → GivesTerm a x → GivesTerm b y → GivesTerm c z → GivesTerm d w → GivesTerm result (Store x y z w) }
{
    boxes::store(
        boxed(alloc, a),
        boxed(alloc, b),
        boxed(alloc, c),
        boxed(alloc, d),
    )
}

/// The heap that is as another at locations: `(anon a l b)`.
pub fn anon(
    alloc: Global,
    a: Result<Term, NoMemory>,
    l: Result<Loc, NoMemory>,
    b: Result<Term, NoMemory>,
) -> Result<Term, NoMemory>
    ensures { (x : PlainTerm) (y : PlainLoc) (z : PlainTerm) → GivesTerm a x → GivesLoc l y → GivesTerm b z → GivesTerm result (Anon x y z) }
{
    boxes::anon(boxed(alloc, a), boxed_loc(alloc, l), boxed(alloc, b))
}

/// The form of `like` with another object; of a form that has none, `(arrall a)`.
pub fn with_object(alloc: Global, like: &Loc, a: Result<Term, NoMemory>) -> Result<Loc, NoMemory>
    ensures { (x : PlainTerm) → GivesTerm a x → GivesLoc result (with_object (loc_view like.now) x) }
{
    boxes::with_object(like, boxed(alloc, a))
}

/// One location: `(loc a b)`.
pub fn single(
    alloc: Global,
    a: Result<Term, NoMemory>,
    b: Result<Term, NoMemory>,
) -> Result<Loc, NoMemory>
    ensures { (x y : PlainTerm) → GivesTerm a x → GivesTerm b y → GivesLoc result (Single x y) }
{
    boxes::single(boxed(alloc, a), boxed(alloc, b))
}

/// The elements of an array between two indices: `(arr a b c)`.
pub fn element_range(
    alloc: Global,
    a: Result<Term, NoMemory>,
    b: Result<Term, NoMemory>,
    c: Result<Term, NoMemory>,
) -> Result<Loc, NoMemory>
    ensures { (x y z : PlainTerm) → GivesTerm a x → GivesTerm b y → GivesTerm c z → GivesLoc result (ElementRange x y z) }
{
    boxes::element_range(boxed(alloc, a), boxed(alloc, b), boxed(alloc, c))
}

/// What is in one of two location sets: `(union l m)`.
pub fn union(
    alloc: Global,
    l: Result<Loc, NoMemory>,
    m: Result<Loc, NoMemory>,
) -> Result<Loc, NoMemory>
    ensures { (x y : PlainLoc) → GivesLoc l x → GivesLoc m y → GivesLoc result (Union x y) }
{
    boxes::union(boxed_loc(alloc, l), boxed_loc(alloc, m))
}

/// The form of `like` with another formula inside; of a form that has not one alone, `(not a)`.
pub fn with_formula(
    alloc: Global,
    like: &Formula,
    a: Result<Formula, NoMemory>,
) -> Result<Formula, NoMemory>
    ensures { (x : PlainFormula) → GivesFormula a x → GivesFormula result (with_formula (formula_view like.now) x) }
{
    boxes::with_formula(like, boxed_formula(alloc, a))
}

/// The form of `like` with two other formulas inside; of a form that has not two, `(iff a b)`.
pub fn with_formulas(
    alloc: Global,
    like: &Formula,
    a: Result<Formula, NoMemory>,
    b: Result<Formula, NoMemory>,
) -> Result<Formula, NoMemory>
    ensures { (x y : PlainFormula) → GivesFormula a x → GivesFormula b y → GivesFormula result (with_formulas (formula_view like.now) x y) }
{
    boxes::with_formulas(like, boxed_formula(alloc, a), boxed_formula(alloc, b))
}

/// The form of `like` with two other terms; of a form that has not two, `(inv a b)`.
pub fn with_terms(
    like: &Formula,
    a: Result<Term, NoMemory>,
    b: Result<Term, NoMemory>,
) -> Result<Formula, NoMemory>
    ensures { (x y : PlainTerm) → GivesTerm a x → GivesTerm b y → GivesFormula result (with_terms (formula_view like.now) x y) }
{
    let (a, b) = both(a, b)?;
    match like {
        Formula::Equal(_, _) => Ok(Formula::Equal(a, b)),
        Formula::Less(_, _) => Ok(Formula::Less(a, b)),
        Formula::LessOrEqual(_, _) => Ok(Formula::LessOrEqual(a, b)),
        _ => Ok(Formula::Invariant(a, b)),
    }
}

/// The form of `like` with another term; of a form that has not one alone, `(wf a)`.
pub fn with_term(like: &Formula, a: Result<Term, NoMemory>) -> Result<Formula, NoMemory>
    ensures { (x : PlainTerm) → GivesTerm a x → GivesFormula result (with_term (formula_view like.now) x) }
{
    let a = a?;
    match like {
        Formula::InInt(_) => Ok(Formula::InInt(a)),
        Formula::IsInstance(k, _) => Ok(Formula::IsInstance(*k, a)),
        Formula::IsExactInstance(k, _) => Ok(Formula::IsExactInstance(*k, a)),
        _ => Ok(Formula::WellFormed(a)),
    }
}

/// A formula behind an update: `(upd (..) a)`.
pub fn updated(
    alloc: Global,
    u: Result<Update, NoMemory>,
    a: Result<Formula, NoMemory>,
) -> Result<Formula, NoMemory>
    ensures { (x : Pairs) (y : PlainFormula) → GivesUpdate u x → GivesFormula a y → GivesFormula result (Updated x y) }
{
    boxes::updated(u, boxed_formula(alloc, a))
}

/// A formula behind code: `(box c a)` or `(dia c a)`.
pub fn modal(
    alloc: Global,
    m: Modality,
    c: Result<Code, NoMemory>,
    a: Result<Formula, NoMemory>,
) -> Result<Formula, NoMemory>
    ensures { (x : PlainCode) (y : PlainFormula) → GivesCode c x → GivesFormula a y → GivesFormula result (Modal m x y) }
{
    boxes::modal(m, c, boxed_formula(alloc, a))
}

/// That a location is in a set: `(in a b l)`.
pub fn in_locations(
    a: Result<Term, NoMemory>,
    b: Result<Term, NoMemory>,
    l: Result<Loc, NoMemory>,
) -> Result<Formula, NoMemory>
    ensures { (x y : PlainTerm) (z : PlainLoc) → GivesTerm a x → GivesTerm b y → GivesLoc l z → GivesFormula result (InLocations x y z) }
{
    let (a, (b, l)) = both(a, both(b, l))?;
    Ok(Formula::InLocations(a, b, l))
}
