//! What a step gives, and conditions.

ghost use Rattle.std.specs.Prelude.{ℕ, ◌≡◌, ◌∷◌, IfOk, List, []};
ghost use Rattle.jd_patterns.specs.Patterns.{SortPattern};
ghost use Rattle.jd_schema_trees.specs.TacletViews.{calculation, number_test};
ghost use Rattle.jd_taclets.specs.Conditions as plain;
ghost use Rattle.jd_taclets.specs.Conditions.{Calculation};
ghost use Rattle.jd_taclets.specs.Taclets as rows;
ghost use Rattle.jd_taclets.specs.Taclets.{InstForm, SortOf};
ghost use Rattle.jd_row_data.specs.Data.{calculation_data, form_data};
ghost use Rattle.jd_row_data.specs.Gives.{GivesForm, GivesName, GivesNumber, GivesSort, Says};
ghost use Rattle.jd_row_data.specs.Said.{Hold, IsGiven, said_of_condition, said_of_given};

use crate::data::{CalculationData, ConditionData, FormData, GivenData};
use crate::terms::sort;
use jd_base::{NoMemory, both, copy_bytes};
use jd_lists::boxed;
use jd_schema_trees::{AskedSort, Calculation, GivenForm, NumberTest, SSort, VarCond};
use jd_term::ArithmeticOp;
use std::alloc::Global;

// ---- forms

fn term_form(s: Result<SSort, NoMemory>) -> Result<GivenForm, NoMemory>
    ensures { (x : SortPattern) → GivesSort s x → GivesForm result (rows.ATerm (SortOf x)) }
{
    Ok(GivenForm::Term(AskedSort::Of(s?)))
}

fn constant_form(s: Result<SSort, NoMemory>) -> Result<GivenForm, NoMemory>
    ensures { (x : SortPattern) → GivesSort s x → GivesForm result (rows.NewConstant (SortOf x)) }
{
    Ok(GivenForm::NewConstant(AskedSort::Of(s?)))
}

fn form(alloc: Global, f: &FormData) -> Result<GivenForm, NoMemory>
    ensures { GivesForm result (form_data f.now) }
{
    match f {
        FormData::AFormula => Ok(GivenForm::Formula),
        FormData::ANumber => Ok(GivenForm::Number),
        FormData::ATerm(s) => term_form(sort(alloc, s)),
        FormData::NewConstant(s) => constant_form(sort(alloc, s)),
    }
}

fn gives(
    name: Result<Vec<u8>, NoMemory>,
    form: Result<GivenForm, NoMemory>,
) -> Result<VarCond, NoMemory>
    ensures { (n : List ℕ) (f : InstForm) → GivesName name n → GivesForm form f → Says result (IsGiven n f) }
{
    let (name, form) = both(name, form)?;
    Ok(VarCond::Gives(name, form))
}

/// What a step gives for the variable.
pub(crate) fn given(alloc: Global, g: &GivenData) -> Result<VarCond, NoMemory>
    ensures { Says result (said_of_given g.now) }
{
    gives(copy_bytes(alloc, g.0), form(alloc, &g.1))
}

// ---- numbers

fn number_of(name: Result<Vec<u8>, NoMemory>) -> Result<Calculation, NoMemory>
    ensures { (n : List ℕ) → GivesName name n → GivesNumber result (plain.NumberOf n) }
{
    Ok(Calculation::Variable(name?))
}

// The part in a box.
fn part(alloc: Global, c: Result<Calculation, NoMemory>) -> Result<Box<Calculation>, NoMemory>
    ensures { (x : plain.Calculation) → GivesNumber c x → IfOk result (λ b. calculation b.value ≡ x) }
{
    boxed(alloc, c?)
}

fn operation(
    alloc: Global,
    op: ArithmeticOp,
    a: Result<Calculation, NoMemory>,
    b: Result<Calculation, NoMemory>,
) -> Result<Calculation, NoMemory>
    ensures { (x y : plain.Calculation) → GivesNumber a x → GivesNumber b y → GivesNumber result (plain.Operation op x y) }
{
    let (a, b) = both(part(alloc, a), part(alloc, b))?;
    Ok(Calculation::Arithmetic(op, a, b))
}

fn negated(alloc: Global, a: Result<Calculation, NoMemory>) -> Result<Calculation, NoMemory>
    ensures { (x : plain.Calculation) → GivesNumber a x → GivesNumber result (plain.NegationOf x) }
{
    Ok(Calculation::Negation(part(alloc, a)?))
}

fn wrapped(alloc: Global, a: Result<Calculation, NoMemory>) -> Result<Calculation, NoMemory>
    ensures { (x : plain.Calculation) → GivesNumber a x → GivesNumber result (plain.WrapOf x) }
{
    Ok(Calculation::Wrap(part(alloc, a)?))
}

fn number(alloc: Global, c: &CalculationData) -> Result<Calculation, NoMemory>
    ensures { GivesNumber result (calculation_data c.now) }
{
    match c {
        CalculationData::Of(n) => number_of(copy_bytes(alloc, n)),
        CalculationData::Numeral(z) => Ok(Calculation::Number(*z)),
        CalculationData::Operation(op, a, b) => operation(
            alloc,
            *op,
            number(alloc, a),
            number(alloc, b),
        ),
        CalculationData::Negated(a) => negated(alloc, number(alloc, a)),
        CalculationData::Wrapped(a) => wrapped(alloc, number(alloc, a)),
    }
}

// ---- conditions

fn steady(t: Result<Vec<u8>, NoMemory>, a: Result<Vec<u8>, NoMemory>) -> Result<VarCond, NoMemory>
    ensures { (n m : List ℕ) → GivesName t n → GivesName a m → Says result (Hold (plain.SteadyIn n m ∷ [])) }
{
    let (t, a) = both(t, a)?;
    Ok(VarCond::SteadyIn(t, a))
}

fn at_least_zero(name: Result<Vec<u8>, NoMemory>) -> Result<VarCond, NoMemory>
    ensures { (n : List ℕ) → GivesName name n → Says result (Hold (plain.AtLeastZero n ∷ [])) }
{
    Ok(VarCond::AtLeastZero(name?))
}

fn calculated(
    name: Result<Vec<u8>, NoMemory>,
    c: Result<Calculation, NoMemory>,
) -> Result<VarCond, NoMemory>
    ensures { (n : List ℕ) (x : plain.Calculation) → GivesName name n → GivesNumber c x → Says result (Hold (plain.Calculated n x ∷ [])) }
{
    let (name, c) = both(name, c)?;
    Ok(VarCond::Calculated(name, c))
}

fn whether(
    name: Result<Vec<u8>, NoMemory>,
    test: NumberTest,
    a: Result<Calculation, NoMemory>,
    b: Result<Calculation, NoMemory>,
) -> Result<VarCond, NoMemory>
    ensures { (n : List ℕ) (x y : plain.Calculation) → GivesName name n → GivesNumber a x → GivesNumber b y → Says result (Hold (plain.WhetherNumbers n (number_test test) x y ∷ [])) }
{
    let (name, (a, b)) = both(name, both(a, b))?;
    Ok(VarCond::WhetherNumbers(name, test, a, b))
}

fn index(name: Result<Vec<u8>, NoMemory>, s: Result<SSort, NoMemory>) -> Result<VarCond, NoMemory>
    ensures { (n : List ℕ) (x : SortPattern) → GivesName name n → GivesSort s x → Says result (Hold (plain.IndexSort n x ∷ [])) }
{
    let (name, s) = both(name, s)?;
    Ok(VarCond::IndexSort(name, s))
}

fn index_in_term(
    name: Result<Vec<u8>, NoMemory>,
    s: Result<SSort, NoMemory>,
) -> Result<VarCond, NoMemory>
    ensures { (n : List ℕ) (x : SortPattern) → GivesName name n → GivesSort s x → Says result (Hold (plain.IndexSortInTerm n x ∷ [])) }
{
    let (name, s) = both(name, s)?;
    Ok(VarCond::IndexSortInTerm(name, s))
}

fn only_index(name: Result<Vec<u8>, NoMemory>) -> Result<VarCond, NoMemory>
    ensures { (n : List ℕ) → GivesName name n → Says result (Hold (plain.OnlyIndex n ∷ [])) }
{
    Ok(VarCond::OnlyIndex(name?))
}

/// The condition of a row.
pub(crate) fn holding(alloc: Global, c: &ConditionData) -> Result<VarCond, NoMemory>
    ensures { Says result (said_of_condition c.now) }
{
    match c {
        ConditionData::Steady(t, a) => steady(copy_bytes(alloc, t), copy_bytes(alloc, a)),
        ConditionData::AtLeastZero(m) => at_least_zero(copy_bytes(alloc, m)),
        ConditionData::Calculated(n, c) => calculated(copy_bytes(alloc, n), number(alloc, c)),
        ConditionData::Whether(n, test, a, b) => whether(
            copy_bytes(alloc, n),
            *test,
            number(alloc, a),
            number(alloc, b),
        ),
        ConditionData::Index(a, s) => index(copy_bytes(alloc, a), sort(alloc, s)),
        ConditionData::IndexInTerm(t, s) => index_in_term(copy_bytes(alloc, t), sort(alloc, s)),
        ConditionData::OnlyIndex(a) => only_index(copy_bytes(alloc, a)),
    }
}
