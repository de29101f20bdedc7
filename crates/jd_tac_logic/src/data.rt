//! The rows of logic (The KeY Book, 2.2.4 and 4.2).

ghost use Rattle.std.specs.Prelude.{drop, take};
ghost use Rattle.jd_tac_logic.specs.Logic.{logic_rows};
ghost use Rattle.jd_row_data.specs.Tables.{GivesRows};

use jd_base::{NoMemory, Sort};
use jd_model::Side::{Left, Right};
use jd_row_data::Comparison::Equal;
use jd_row_data::ConditionData::{Index, Steady};
use jd_row_data::Connective::{And, Iff, Implies, Or};
use jd_row_data::FormData::{AFormula, ATerm, NewConstant};
use jd_row_data::FormulaData::{
    self, AnyFormula, Compared, Connected, False, Not, PutIn, Quantified, True,
};
use jd_row_data::GoalData::{Goal, Plus};
use jd_row_data::Quantifier::{Exists, Forall};
use jd_row_data::RowData::{self, FormulaRow, FreeRow, LeftRow, RightRow, TermRow};
use jd_row_data::SortData::{AnySort, Only};
use jd_row_data::TermData::{self, AnyTerm, Boolean, Constant, OfSort};
use jd_row_data::{GivenData, joined_rows, rows_of};
use jd_schema_trees::Taclet;
use std::alloc::Global;

const A: FormulaData = AnyFormula(b"A");

const B: FormulaData = AnyFormula(b"B");

const PHI: FormulaData = AnyFormula(b"phi");

const S: TermData = AnyTerm(b"s");

const T: TermData = AnyTerm(b"t");

const BOOL: TermData = OfSort(Sort::Bool, b"b");

const C: TermData = Constant(b"c");

static LOGIC_1: [RowData; 10] = [
    RightRow(b"close", A, &[(Left, A)], &[], &[], &[]),
    RightRow(b"closeTrue", True, &[], &[], &[], &[]),
    LeftRow(b"closeFalse", False, &[], &[], &[], &[]),
    LeftRow(b"notLeft", Not(&A), &[], &[], &[], &[Goal(&[], &[A])]),
    RightRow(b"notRight", Not(&A), &[], &[], &[], &[Goal(&[A], &[])]),
    LeftRow(
        b"andLeft",
        Connected(And, &A, &B),
        &[],
        &[],
        &[],
        &[Goal(&[A, B], &[])],
    ),
    RightRow(
        b"andRight",
        Connected(And, &A, &B),
        &[],
        &[],
        &[],
        &[Goal(&[], &[A]), Goal(&[], &[B])],
    ),
    LeftRow(
        b"orLeft",
        Connected(Or, &A, &B),
        &[],
        &[],
        &[],
        &[Goal(&[A], &[]), Goal(&[B], &[])],
    ),
    RightRow(
        b"orRight",
        Connected(Or, &A, &B),
        &[],
        &[],
        &[],
        &[Goal(&[], &[A, B])],
    ),
    LeftRow(
        b"impLeft",
        Connected(Implies, &A, &B),
        &[],
        &[],
        &[],
        &[Goal(&[], &[A]), Goal(&[B], &[])],
    ),
];

static LOGIC_2: [RowData; 10] = [
    RightRow(
        b"impRight",
        Connected(Implies, &A, &B),
        &[],
        &[],
        &[],
        &[Goal(&[A], &[B])],
    ),
    LeftRow(
        b"iffLeft",
        Connected(Iff, &A, &B),
        &[],
        &[],
        &[],
        &[Goal(&[A, B], &[]), Goal(&[], &[A, B])],
    ),
    RightRow(
        b"iffRight",
        Connected(Iff, &A, &B),
        &[],
        &[],
        &[],
        &[Goal(&[A], &[B]), Goal(&[B], &[A])],
    ),
    RightRow(
        b"allRight",
        Quantified(Forall, AnySort(b"S"), &A),
        &[],
        &[GivenData(b"c", NewConstant(AnySort(b"S")))],
        &[Index(b"A", AnySort(b"S"))],
        &[Goal(&[], &[PutIn(b"A", C)])],
    ),
    LeftRow(
        b"exLeft",
        Quantified(Exists, AnySort(b"S"), &A),
        &[],
        &[GivenData(b"c", NewConstant(AnySort(b"S")))],
        &[Index(b"A", AnySort(b"S"))],
        &[Goal(&[PutIn(b"A", C)], &[])],
    ),
    LeftRow(
        b"allLeft",
        Quantified(Forall, AnySort(b"S"), &A),
        &[],
        &[GivenData(b"t", ATerm(AnySort(b"S")))],
        &[Steady(b"t", b"A"), Index(b"A", AnySort(b"S"))],
        &[Plus(&[PutIn(b"A", T)], &[])],
    ),
    RightRow(
        b"exRight",
        Quantified(Exists, AnySort(b"S"), &A),
        &[],
        &[GivenData(b"t", ATerm(AnySort(b"S")))],
        &[Steady(b"t", b"A"), Index(b"A", AnySort(b"S"))],
        &[Plus(&[], &[PutIn(b"A", T)])],
    ),
    FreeRow(
        b"cut",
        &[GivenData(b"phi", AFormula)],
        &[],
        &[Plus(&[PHI], &[]), Plus(&[], &[PHI])],
    ),
    LeftRow(b"hideLeft", A, &[], &[], &[], &[Goal(&[], &[])]),
    RightRow(b"hideRight", A, &[], &[], &[], &[Goal(&[], &[])]),
];

static LOGIC_3: [RowData; 10] = [
    FormulaRow(b"eqRefl", Compared(Equal, S, S), &[], &[], &[], True),
    FormulaRow(
        b"eqSym",
        Compared(Equal, S, T),
        &[],
        &[],
        &[],
        Compared(Equal, T, S),
    ),
    TermRow(b"applyEq", S, &[(Left, Compared(Equal, S, T))], &[], T),
    FormulaRow(b"knownLeft", A, &[(Left, A)], &[], &[], True),
    FormulaRow(b"knownRight", A, &[(Right, A)], &[], &[], False),
    FreeRow(
        b"boolCases",
        &[GivenData(b"b", ATerm(Only(Sort::Bool)))],
        &[],
        &[
            Plus(&[Compared(Equal, BOOL, Boolean(true))], &[]),
            Plus(&[Compared(Equal, BOOL, Boolean(false))], &[]),
        ],
    ),
    FormulaRow(
        b"boolDistinct",
        Compared(Equal, Boolean(true), Boolean(false)),
        &[],
        &[],
        &[],
        False,
    ),
    FormulaRow(b"notTrue", Not(&True), &[], &[], &[], False),
    FormulaRow(b"notFalse", Not(&False), &[], &[], &[], True),
    FormulaRow(b"notNot", Not(&Not(&A)), &[], &[], &[], A),
];

static LOGIC_4: [RowData; 10] = [
    FormulaRow(b"andTrueL", Connected(And, &True, &A), &[], &[], &[], A),
    FormulaRow(b"andTrueR", Connected(And, &A, &True), &[], &[], &[], A),
    FormulaRow(
        b"andFalseL",
        Connected(And, &False, &A),
        &[],
        &[],
        &[],
        False,
    ),
    FormulaRow(
        b"andFalseR",
        Connected(And, &A, &False),
        &[],
        &[],
        &[],
        False,
    ),
    FormulaRow(b"orTrueL", Connected(Or, &True, &A), &[], &[], &[], True),
    FormulaRow(b"orTrueR", Connected(Or, &A, &True), &[], &[], &[], True),
    FormulaRow(b"orFalseL", Connected(Or, &False, &A), &[], &[], &[], A),
    FormulaRow(b"orFalseR", Connected(Or, &A, &False), &[], &[], &[], A),
    FormulaRow(b"impTrueL", Connected(Implies, &True, &A), &[], &[], &[], A),
    FormulaRow(
        b"impTrueR",
        Connected(Implies, &A, &True),
        &[],
        &[],
        &[],
        True,
    ),
];

static LOGIC_5: [RowData; 4] = [
    FormulaRow(
        b"impFalseL",
        Connected(Implies, &False, &A),
        &[],
        &[],
        &[],
        True,
    ),
    FormulaRow(
        b"impFalseR",
        Connected(Implies, &A, &False),
        &[],
        &[],
        &[],
        Not(&A),
    ),
    FormulaRow(
        b"allTrue",
        Quantified(Forall, AnySort(b"S"), &True),
        &[],
        &[],
        &[],
        True,
    ),
    FormulaRow(
        b"exFalse",
        Quantified(Exists, AnySort(b"S"), &False),
        &[],
        &[],
        &[],
        False,
    ),
];

fn logic_1(alloc: Global) -> Result<Vec<Taclet>, NoMemory>
    ensures { GivesRows result (take 10 (drop 0 logic_rows)) }
{
    rows_of(alloc, &LOGIC_1)
}

fn logic_2(alloc: Global) -> Result<Vec<Taclet>, NoMemory>
    ensures { GivesRows result (take 10 (drop 10 logic_rows)) }
{
    rows_of(alloc, &LOGIC_2)
}

fn logic_3(alloc: Global) -> Result<Vec<Taclet>, NoMemory>
    ensures { GivesRows result (take 10 (drop 20 logic_rows)) }
{
    rows_of(alloc, &LOGIC_3)
}

fn logic_4(alloc: Global) -> Result<Vec<Taclet>, NoMemory>
    ensures { GivesRows result (take 10 (drop 30 logic_rows)) }
{
    rows_of(alloc, &LOGIC_4)
}

fn logic_5(alloc: Global) -> Result<Vec<Taclet>, NoMemory>
    ensures { GivesRows result (take 10 (drop 40 logic_rows)) }
{
    rows_of(alloc, &LOGIC_5)
}

/// The rows of logic, in order.
///
/// # Errors
///
/// `NoMemory` if memory runs out.
pub fn table(alloc: Global) -> Result<Vec<Taclet>, NoMemory>
    ensures { GivesRows result logic_rows }
{
    joined_rows(
        joined_rows(logic_1(alloc), logic_2(alloc)),
        joined_rows(logic_3(alloc), joined_rows(logic_4(alloc), logic_5(alloc))),
    )
}
