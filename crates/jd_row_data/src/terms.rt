//! Patterns of terms and sorts.

ghost use Rattle.std.specs.Prelude.{ℕ, ◌≡◌, IfOk, List};
ghost use Rattle.jd_schema_trees.specs.TermViews.{term_pattern};
ghost use Rattle.jd_patterns.specs.Patterns as plain;
ghost use Rattle.jd_patterns.specs.Patterns.{NameVar, NegationOf, OnePart, SortVar, TermPattern, WrapOf};
ghost use Rattle.jd_row_data.specs.Data.{sort_data, term_data};
ghost use Rattle.jd_row_data.specs.Gives.{GivesName, GivesSort, GivesTerm};

use crate::data::{SortData, TermData};
use jd_base::{NoMemory, Sort, both, copy_bytes};
use jd_lists::boxed;
use jd_schema_trees::{SName, SSort, STerm};
use jd_term::ArithmeticOp;
use std::alloc::Global;

// ---- sorts

fn any_sort(name: Result<Vec<u8>, NoMemory>) -> Result<SSort, NoMemory>
    ensures { (n : List ℕ) → GivesName name n → GivesSort result (SortVar n) }
{
    Ok(SSort::Variable(name?))
}

/// The sort of a row.
pub(crate) fn sort(alloc: Global, s: &SortData) -> Result<SSort, NoMemory>
    ensures { GivesSort result (sort_data s.now) }
{
    match s {
        SortData::AnySort(n) => any_sort(copy_bytes(alloc, n)),
        SortData::Only(s) => Ok(SSort::Given(*s)),
    }
}

// ---- terms

fn any_term(name: Result<Vec<u8>, NoMemory>) -> Result<STerm, NoMemory>
    ensures { (n : List ℕ) → GivesName name n → GivesTerm result (plain.AnyTerm n) }
{
    Ok(STerm::Any(name?))
}

fn of_sort(sort: Sort, name: Result<Vec<u8>, NoMemory>) -> Result<STerm, NoMemory>
    ensures { (n : List ℕ) → GivesName name n → GivesTerm result (plain.TermOf sort n) }
{
    Ok(STerm::OfSort(sort, name?))
}

fn literal(name: Result<Vec<u8>, NoMemory>) -> Result<STerm, NoMemory>
    ensures { (n : List ℕ) → GivesName name n → GivesTerm result (plain.LiteralVar n) }
{
    Ok(STerm::Literal(name?))
}

fn constant(name: Result<Vec<u8>, NoMemory>) -> Result<STerm, NoMemory>
    ensures { (n : List ℕ) → GivesName name n → GivesTerm result (plain.Constant (NameVar n)) }
{
    Ok(STerm::Constant(SName::Variable(name?)))
}

/// The term in a box.
pub(crate) fn boxed_term(alloc: Global, t: Result<STerm, NoMemory>) -> Result<Box<STerm>, NoMemory>
    ensures { (x : TermPattern) → GivesTerm t x → IfOk result (λ b. term_pattern b.value ≡ x) }
{
    boxed(alloc, t?)
}

fn put(
    alloc: Global,
    name: Result<Vec<u8>, NoMemory>,
    t: Result<STerm, NoMemory>,
) -> Result<STerm, NoMemory>
    ensures { (n : List ℕ) (x : TermPattern) → GivesName name n → GivesTerm t x → GivesTerm result (plain.Put n x) }
{
    let (name, t) = both(name, boxed_term(alloc, t))?;
    Ok(STerm::Put(name, t))
}

fn negation(alloc: Global, t: Result<STerm, NoMemory>) -> Result<STerm, NoMemory>
    ensures { (x : TermPattern) → GivesTerm t x → GivesTerm result (OnePart NegationOf x) }
{
    Ok(STerm::Negation(boxed_term(alloc, t)?))
}

fn wrap(alloc: Global, t: Result<STerm, NoMemory>) -> Result<STerm, NoMemory>
    ensures { (x : TermPattern) → GivesTerm t x → GivesTerm result (OnePart WrapOf x) }
{
    Ok(STerm::Wrap(boxed_term(alloc, t)?))
}

fn arithmetic(
    alloc: Global,
    op: ArithmeticOp,
    t: Result<STerm, NoMemory>,
    u: Result<STerm, NoMemory>,
) -> Result<STerm, NoMemory>
    ensures { (x y : TermPattern) → GivesTerm t x → GivesTerm u y → GivesTerm result (plain.Arithmetic op x y) }
{
    let (t, u) = both(boxed_term(alloc, t), boxed_term(alloc, u))?;
    Ok(STerm::Arithmetic(op, t, u))
}

fn sum(
    alloc: Global,
    t: Result<STerm, NoMemory>,
    u: Result<STerm, NoMemory>,
    v: Result<STerm, NoMemory>,
) -> Result<STerm, NoMemory>
    ensures { (x y z : TermPattern) → GivesTerm t x → GivesTerm u y → GivesTerm v z → GivesTerm result (plain.Sum x y z) }
{
    let (t, (u, v)) = both(
        boxed_term(alloc, t),
        both(boxed_term(alloc, u), boxed_term(alloc, v)),
    )?;
    Ok(STerm::Sum(t, u, v))
}

/// The term of a row.
pub(crate) fn term(alloc: Global, t: &TermData) -> Result<STerm, NoMemory>
    ensures { GivesTerm result (term_data t.now) }
{
    match t {
        TermData::AnyTerm(n) => any_term(copy_bytes(alloc, n)),
        TermData::OfSort(s, n) => of_sort(*s, copy_bytes(alloc, n)),
        TermData::Literal(n) => literal(copy_bytes(alloc, n)),
        TermData::Put(n, t) => put(alloc, copy_bytes(alloc, n), term(alloc, t)),
        TermData::Constant(n) => constant(copy_bytes(alloc, n)),
        TermData::Number(z) => Ok(STerm::Number(*z)),
        TermData::Boolean(b) => Ok(STerm::Boolean(*b)),
        TermData::Bound(k, s) => Ok(STerm::Bound(*k, *s)),
        TermData::Negation(t) => negation(alloc, term(alloc, t)),
        TermData::Wrap(t) => wrap(alloc, term(alloc, t)),
        TermData::Arithmetic(op, t, u) => arithmetic(alloc, *op, term(alloc, t), term(alloc, u)),
        TermData::Sum(t, u, v) => sum(alloc, term(alloc, t), term(alloc, u), term(alloc, v)),
    }
}
