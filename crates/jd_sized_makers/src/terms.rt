//! Terms with their sizes.

ghost use Rattle.std.specs.Prelude.{◌≡◌, IfOk};
ghost use Rattle.jd_sized_makers.specs.Made.{IsTerm, of_one};
ghost use Rattle.jd_syntax.specs.Names.{Name, var_view};
ghost use Rattle.jd_term.specs.Makers.{GivesBoxedTerm, GivesTerm, IsLeaf};
ghost use Rattle.jd_term.specs.Terms as plain;
ghost use Rattle.jd_term.specs.Terms.{PlainTerm};
ghost use Rattle.jd_term.specs.TermViews.{term_view};

use crate::sizes::{over_one, over_three, over_two};
use jd_base::{FieldId, NoMemory, Sort};
use jd_syntax::VarId;
use jd_term as trees;
use jd_term::{ArithmeticOp, Term, size_term};
use std::alloc::Global;

/// A term, where memory sufficed, and how many terms and location sets it has, at most `u64::MAX`.
#[derive(Drop)]
pub struct MadeTerm {
    /// The term.
    pub tree: Result<Term, NoMemory>,
    /// Its size.
    pub size: u64,
}

/// A form of terms with one part.
#[derive(Clone, Copy)]
pub enum OnePart {
    /// `(neg t)`
    Negation,
    /// `(len o)`
    Length,
    /// `(idx t)`
    Element,
}

/// A term with nothing inside.
pub fn leaf(tree: Result<Term, NoMemory>) -> MadeTerm
    ensures { (x : PlainTerm) → IsLeaf x → GivesTerm tree x → IsTerm result x }
{
    MadeTerm { tree, size: 1 }
}

// The number as a term.
fn of_number(n: i128) -> Result<Term, NoMemory>
    ensures { GivesTerm result (plain.Number n) }
{
    Ok(Term::Number(n))
}

/// A number.
pub fn number(n: i128) -> MadeTerm
    ensures { IsTerm result (plain.Number n) }
{
    leaf(of_number(n))
}

/// `true` or `false`
pub fn boolean(b: bool) -> MadeTerm
    ensures { IsTerm result (plain.Boolean b) }
{
    leaf(Ok(Term::Boolean(b)))
}

/// `null`
pub fn null() -> MadeTerm
    ensures { IsTerm result plain.NullTerm }
{
    leaf(Ok(Term::NullTerm))
}

// The variable as a term.
fn of_variable(v: Result<VarId, NoMemory>) -> Result<Term, NoMemory>
    ensures { (x : Name) → IfOk v (λ w. var_view w ≡ x) → GivesTerm result (plain.ProgramVariable x) }
{
    Ok(Term::ProgramVariable(v?))
}

/// A program variable.
pub fn variable(alloc: Global, v: &VarId) -> MadeTerm
    ensures { IsTerm result (plain.ProgramVariable (var_view v.now)) }
{
    leaf(of_variable(v.copy(alloc)))
}

/// What the binder outward of so many others binds.
pub fn bound_variable(index: u32, sort: Sort) -> MadeTerm
    ensures { IsTerm result (plain.Bound index sort) }
{
    leaf(Ok(Term::Bound(index, sort)))
}

/// A field, by its number.
pub fn named_field(field: u32) -> MadeTerm
    ensures { IsTerm result (plain.NamedField field) }
{
    leaf(Ok(Term::NamedField(FieldId(field))))
}

/// `created`
pub fn created_field() -> MadeTerm
    ensures { IsTerm result plain.CreatedField }
{
    leaf(Ok(Term::CreatedField))
}

/// A copy of the term.
pub fn copied(alloc: Global, t: &Term) -> MadeTerm
    ensures { IsTerm result (term_view t.now) }
{
    MadeTerm {
        size: size_term(t),
        tree: t.copy(alloc),
    }
}

// The term in a box.
#[inline(never)]
fn boxed(alloc: Global, t: Result<Term, NoMemory>) -> Result<Box<Term>, NoMemory>
    ensures { (x : PlainTerm) → GivesTerm t x → GivesBoxedTerm result x }
{
    Ok(Box::new(alloc, t?)?)
}

// A term of this form.
fn formed(form: OnePart, a: Result<Box<Term>, NoMemory>) -> Result<Term, NoMemory>
    ensures { (x : PlainTerm) → GivesBoxedTerm a x → GivesTerm result (of_one form x) }
{
    let a = a?;
    match form {
        OnePart::Negation => Ok(Term::Negation(a)),
        OnePart::Length => Ok(Term::Length(a)),
        OnePart::Element => Ok(Term::ElementField(a)),
    }
}

/// A term of this form.
pub fn one_part(alloc: Global, form: OnePart, a: MadeTerm) -> MadeTerm
    ensures { (x : PlainTerm) → IsTerm a x → IsTerm result (of_one form x) }
{
    let MadeTerm { tree, size } = a;
    MadeTerm {
        size: over_one(size),
        tree: formed(form, boxed(alloc, tree)),
    }
}

/// An operation on two integers.
pub fn arithmetic(alloc: Global, operation: ArithmeticOp, a: MadeTerm, b: MadeTerm) -> MadeTerm
    ensures { (x y : PlainTerm) → IsTerm a x → IsTerm b y → IsTerm result (plain.Arithmetic operation x y) }
{
    let MadeTerm {
        tree: first,
        size: m,
    } = a;
    let MadeTerm {
        tree: second,
        size: n,
    } = b;
    MadeTerm {
        size: over_two(m, n),
        tree: trees::arithmetic(alloc, operation, first, second),
    }
}

/// What a heap holds at a field of an object.
pub fn select(alloc: Global, sort: Sort, a: MadeTerm, b: MadeTerm, c: MadeTerm) -> MadeTerm
    ensures { (x y z : PlainTerm) → IsTerm a x → IsTerm b y → IsTerm c z → IsTerm result (plain.Select sort x y z) }
{
    let MadeTerm {
        tree: first,
        size: m,
    } = a;
    let MadeTerm {
        tree: second,
        size: n,
    } = b;
    let MadeTerm {
        tree: third,
        size: k,
    } = c;
    MadeTerm {
        size: over_three(m, n, k),
        tree: trees::select(alloc, sort, first, second, third),
    }
}

/// A bounded sum; the third part stands below one more binder.
pub fn sum(alloc: Global, a: MadeTerm, b: MadeTerm, c: MadeTerm) -> MadeTerm
    ensures { (x y z : PlainTerm) → IsTerm a x → IsTerm b y → IsTerm c z → IsTerm result (plain.Sum x y z) }
{
    let MadeTerm {
        tree: first,
        size: m,
    } = a;
    let MadeTerm {
        tree: second,
        size: n,
    } = b;
    let MadeTerm {
        tree: third,
        size: k,
    } = c;
    MadeTerm {
        size: over_three(m, n, k),
        tree: trees::sum(alloc, first, second, third),
    }
}

// The term and a copy of it.
fn doubled(
    alloc: Global,
    t: Result<Term, NoMemory>,
) -> (Result<Term, NoMemory>, Result<Term, NoMemory>)
    ensures { (x : PlainTerm) → GivesTerm t x → GivesTerm result.0 x × GivesTerm result.1 x }
{
    match t {
        Err(NoMemory) => (Err(NoMemory), Err(NoMemory)),
        Ok(t) => {
            let copy = t.copy(alloc);
            (Ok(t), copy)
        }
    }
}

/// The term twice.
pub fn twice_term(alloc: Global, a: MadeTerm) -> (MadeTerm, MadeTerm)
    ensures { (x : PlainTerm) → IsTerm a x → IsTerm result.0 x × IsTerm result.1 x }
{
    let MadeTerm { tree, size } = a;
    let (one, other) = doubled(alloc, tree);
    (MadeTerm { tree: one, size }, MadeTerm { tree: other, size })
}
