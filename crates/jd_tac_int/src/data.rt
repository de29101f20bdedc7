//! The rows of integers: numbers folded, sums and products, order, induction, the 32 bits of an int, division, sums over ranges
//! (JLS 4.2.2, 15.17.2 and 15.17.3; The KeY Book, 5.4).

ghost use Rattle.std.specs.Prelude.{drop, take};
ghost use Rattle.jd_tac_int.specs.Integers.{integer_rows};
ghost use Rattle.jd_row_data.specs.Tables.{GivesRows};

use jd_base::{NoMemory, Sort};
use jd_model::Side::Left;
use jd_row_data::CalculationData::{Negated, Numeral, Of, Operation, Wrapped};
use jd_row_data::Comparison::{Equal, Less, LessOrEqual};
use jd_row_data::ConditionData::{AtLeastZero, Calculated, Index, IndexInTerm, OnlyIndex, Whether};
use jd_row_data::Connective::{And, Implies};
use jd_row_data::FormData::{ANumber, ATerm};
use jd_row_data::FormulaData::{
    self, AnyFormula, Compared, Connected, False, InInt, Not, PutIn, Quantified, True,
};
use jd_row_data::GoalData::{Goal, Plus};
use jd_row_data::Quantifier::Forall;
use jd_row_data::RowData::{self, FormulaRow, FreeRow, LeftRow, RightRow, TermRow};
use jd_row_data::SortData::Only;
use jd_row_data::TermData::{
    self, AnyTerm, Arithmetic, Bound, Literal, Negation, Number, OfSort, Put, Sum, Wrap,
};
use jd_row_data::{GivenData, joined_rows, rows_of};
use jd_schema_trees::{NumberTest, Taclet};
use jd_term::ArithmeticOp::{Add, Divide, Multiply, Remainder, Subtract};
use std::alloc::Global;

const A: FormulaData = AnyFormula(b"A");

const I: TermData = OfSort(Sort::Int, b"i");

const J: TermData = OfSort(Sort::Int, b"j");

const K: TermData = OfSort(Sort::Int, b"k");

const L: TermData = OfSort(Sort::Int, b"l");

const M: TermData = Literal(b"m");

const N: TermData = Literal(b"n");

const X: TermData = Bound(0, Sort::Int);

const S: TermData = AnyTerm(b"s");

static INTEGERS_1: [RowData; 10] = [
    TermRow(
        b"foldAdd",
        Arithmetic(Add, &M, &N),
        &[],
        &[Calculated(b"m+n", Operation(Add, &Of(b"m"), &Of(b"n")))],
        Literal(b"m+n"),
    ),
    TermRow(
        b"foldSub",
        Arithmetic(Subtract, &M, &N),
        &[],
        &[Calculated(b"m-n", Operation(Subtract, &Of(b"m"), &Of(b"n")))],
        Literal(b"m-n"),
    ),
    TermRow(
        b"foldMul",
        Arithmetic(Multiply, &M, &N),
        &[],
        &[Calculated(b"m*n", Operation(Multiply, &Of(b"m"), &Of(b"n")))],
        Literal(b"m*n"),
    ),
    TermRow(
        b"foldNeg",
        Negation(&M),
        &[],
        &[Calculated(b"-m", Negated(&Of(b"m")))],
        Literal(b"-m"),
    ),
    TermRow(
        b"foldDiv",
        Arithmetic(Divide, &M, &N),
        &[],
        &[Calculated(b"m/n", Operation(Divide, &Of(b"m"), &Of(b"n")))],
        Literal(b"m/n"),
    ),
    TermRow(
        b"foldMod",
        Arithmetic(Remainder, &M, &N),
        &[],
        &[Calculated(b"m%n", Operation(Remainder, &Of(b"m"), &Of(b"n")))],
        Literal(b"m%n"),
    ),
    TermRow(
        b"foldWrap",
        Wrap(&M),
        &[],
        &[Calculated(b"wrap32(m)", Wrapped(&Of(b"m")))],
        Literal(b"wrap32(m)"),
    ),
    FormulaRow(
        b"foldLt",
        Compared(Less, M, N),
        &[],
        &[],
        &[Whether(b"m<n", NumberTest::Less, Of(b"m"), Of(b"n"))],
        AnyFormula(b"m<n"),
    ),
    FormulaRow(
        b"foldLe",
        Compared(LessOrEqual, M, N),
        &[],
        &[],
        &[Whether(b"m<=n", NumberTest::LessOrEqual, Of(b"m"), Of(b"n"))],
        AnyFormula(b"m<=n"),
    ),
    FormulaRow(
        b"foldEq",
        Compared(Equal, M, N),
        &[],
        &[],
        &[Whether(b"m=n", NumberTest::Equal, Of(b"m"), Of(b"n"))],
        AnyFormula(b"m=n"),
    ),
];

static INTEGERS_2: [RowData; 10] = [
    TermRow(
        b"addComm",
        Arithmetic(Add, &I, &J),
        &[],
        &[],
        Arithmetic(Add, &J, &I),
    ),
    TermRow(
        b"addAssoc",
        Arithmetic(Add, &Arithmetic(Add, &I, &J), &K),
        &[],
        &[],
        Arithmetic(Add, &I, &Arithmetic(Add, &J, &K)),
    ),
    TermRow(b"addZero", Arithmetic(Add, &I, &Number(0)), &[], &[], I),
    TermRow(
        b"mulComm",
        Arithmetic(Multiply, &I, &J),
        &[],
        &[],
        Arithmetic(Multiply, &J, &I),
    ),
    TermRow(
        b"mulAssoc",
        Arithmetic(Multiply, &Arithmetic(Multiply, &I, &J), &K),
        &[],
        &[],
        Arithmetic(Multiply, &I, &Arithmetic(Multiply, &J, &K)),
    ),
    TermRow(b"mulOne", Arithmetic(Multiply, &I, &Number(1)), &[], &[], I),
    TermRow(
        b"mulZero",
        Arithmetic(Multiply, &I, &Number(0)),
        &[],
        &[],
        Number(0),
    ),
    TermRow(
        b"distrib",
        Arithmetic(Multiply, &I, &Arithmetic(Add, &J, &K)),
        &[],
        &[],
        Arithmetic(
            Add,
            &Arithmetic(Multiply, &I, &J),
            &Arithmetic(Multiply, &I, &K),
        ),
    ),
    TermRow(
        b"subDef",
        Arithmetic(Subtract, &I, &J),
        &[],
        &[],
        Arithmetic(Add, &I, &Negation(&J)),
    ),
    TermRow(
        b"negDef",
        Negation(&I),
        &[],
        &[],
        Arithmetic(Multiply, &I, &Number(-1)),
    ),
];

static INTEGERS_3: [RowData; 10] = [
    TermRow(
        b"collect",
        Arithmetic(
            Add,
            &Arithmetic(Multiply, &I, &M),
            &Arithmetic(Multiply, &I, &N),
        ),
        &[],
        &[Calculated(b"m+n", Operation(Add, &Of(b"m"), &Of(b"n")))],
        Arithmetic(Multiply, &I, &Literal(b"m+n")),
    ),
    TermRow(
        b"collectOne",
        Arithmetic(Add, &I, &Arithmetic(Multiply, &I, &N)),
        &[],
        &[Calculated(b"n+1", Operation(Add, &Of(b"n"), &Numeral(1)))],
        Arithmetic(Multiply, &I, &Literal(b"n+1")),
    ),
    FormulaRow(
        b"ltToLe",
        Compared(Less, I, J),
        &[],
        &[],
        &[],
        Compared(LessOrEqual, Arithmetic(Add, &I, &Number(1)), J),
    ),
    FormulaRow(
        b"notLe",
        Not(&Compared(LessOrEqual, I, J)),
        &[],
        &[],
        &[],
        Compared(Less, J, I),
    ),
    FormulaRow(
        b"notLt",
        Not(&Compared(Less, I, J)),
        &[],
        &[],
        &[],
        Compared(LessOrEqual, J, I),
    ),
    FormulaRow(b"leRefl", Compared(LessOrEqual, I, I), &[], &[], &[], True),
    FormulaRow(b"ltRefl", Compared(Less, I, I), &[], &[], &[], False),
    LeftRow(
        b"leTrans",
        Compared(LessOrEqual, I, J),
        &[(Left, Compared(LessOrEqual, J, K))],
        &[],
        &[],
        &[Plus(&[Compared(LessOrEqual, I, K)], &[])],
    ),
    LeftRow(
        b"leAntisym",
        Compared(LessOrEqual, I, J),
        &[(Left, Compared(LessOrEqual, J, I))],
        &[],
        &[],
        &[Plus(&[Compared(Equal, I, J)], &[])],
    ),
    LeftRow(
        b"leSum",
        Compared(LessOrEqual, I, J),
        &[(Left, Compared(LessOrEqual, K, L))],
        &[],
        &[],
        &[Plus(
            &[Compared(
                LessOrEqual,
                Arithmetic(Add, &I, &K),
                Arithmetic(Add, &J, &L),
            )],
            &[],
        )],
    ),
];

static INTEGERS_4: [RowData; 10] = [
    LeftRow(
        b"leScale",
        Compared(LessOrEqual, I, J),
        &[],
        &[GivenData(b"m", ANumber)],
        &[AtLeastZero(b"m")],
        &[Plus(
            &[Compared(
                LessOrEqual,
                Arithmetic(Multiply, &I, &M),
                Arithmetic(Multiply, &J, &M),
            )],
            &[],
        )],
    ),
    LeftRow(
        b"leWeaken",
        Compared(LessOrEqual, I, J),
        &[],
        &[GivenData(b"m", ANumber)],
        &[AtLeastZero(b"m")],
        &[Plus(&[Compared(LessOrEqual, I, Arithmetic(Add, &J, &M))], &[])],
    ),
    FormulaRow(
        b"leShift",
        Compared(LessOrEqual, I, J),
        &[],
        &[GivenData(b"k", ATerm(Only(Sort::Int)))],
        &[],
        Compared(
            LessOrEqual,
            Arithmetic(Add, &I, &K),
            Arithmetic(Add, &J, &K),
        ),
    ),
    LeftRow(
        b"leEq",
        Compared(Equal, I, J),
        &[],
        &[],
        &[],
        &[Plus(
            &[Compared(LessOrEqual, I, J), Compared(LessOrEqual, J, I)],
            &[],
        )],
    ),
    LeftRow(
        b"leClash",
        Compared(LessOrEqual, I, J),
        &[(Left, Compared(Less, J, I))],
        &[],
        &[],
        &[],
    ),
    FreeRow(
        b"intCases",
        &[
            GivenData(b"i", ATerm(Only(Sort::Int))),
            GivenData(b"j", ATerm(Only(Sort::Int))),
        ],
        &[],
        &[
            Plus(&[Compared(Less, I, J)], &[]),
            Plus(&[Compared(Equal, I, J)], &[]),
            Plus(&[Compared(Less, J, I)], &[]),
        ],
    ),
    RightRow(
        b"intInd",
        Quantified(Forall, Only(Sort::Int), &A),
        &[],
        &[],
        &[Index(b"A", Only(Sort::Int)), OnlyIndex(b"A")],
        &[
            Goal(&[], &[PutIn(b"A", Number(0))]),
            Goal(
                &[],
                &[Quantified(
                    Forall,
                    Only(Sort::Int),
                    &Connected(
                        Implies,
                        &Connected(And, &Compared(LessOrEqual, Number(0), X), &A),
                        &PutIn(b"A", Arithmetic(Add, &X, &Number(1))),
                    ),
                )],
            ),
            Goal(
                &[],
                &[Quantified(
                    Forall,
                    Only(Sort::Int),
                    &Connected(
                        Implies,
                        &Connected(And, &Compared(LessOrEqual, X, Number(0)), &A),
                        &PutIn(b"A", Arithmetic(Subtract, &X, &Number(1))),
                    ),
                )],
            ),
        ],
    ),
    FormulaRow(
        b"inIntDef",
        InInt(I),
        &[],
        &[],
        &[],
        Connected(
            And,
            &Compared(LessOrEqual, Number(-2147483648), I),
            &Compared(LessOrEqual, I, Number(2147483647)),
        ),
    ),
    TermRow(
        b"wrapIn",
        Wrap(&I),
        &[
            (Left, Compared(LessOrEqual, Number(-2147483648), I)),
            (Left, Compared(LessOrEqual, I, Number(2147483647))),
        ],
        &[],
        I,
    ),
    FreeRow(
        b"wrapRange",
        &[GivenData(b"i", ATerm(Only(Sort::Int)))],
        &[],
        &[Plus(&[InInt(Wrap(&I))], &[])],
    ),
];

static INTEGERS_5: [RowData; 10] = [
    TermRow(b"wrapWrap", Wrap(&Wrap(&I)), &[], &[], Wrap(&I)),
    TermRow(
        b"wrapAdd",
        Wrap(&Arithmetic(Add, &Wrap(&I), &J)),
        &[],
        &[],
        Wrap(&Arithmetic(Add, &I, &J)),
    ),
    TermRow(
        b"wrapMul",
        Wrap(&Arithmetic(Multiply, &Wrap(&I), &J)),
        &[],
        &[],
        Wrap(&Arithmetic(Multiply, &I, &J)),
    ),
    TermRow(
        b"wrapNeg",
        Wrap(&Negation(&Wrap(&I))),
        &[],
        &[],
        Wrap(&Negation(&I)),
    ),
    TermRow(
        b"modDef",
        Arithmetic(Remainder, &I, &J),
        &[],
        &[],
        Arithmetic(
            Subtract,
            &I,
            &Arithmetic(Multiply, &J, &Arithmetic(Divide, &I, &J)),
        ),
    ),
    TermRow(
        b"divNegL",
        Arithmetic(Divide, &Negation(&I), &J),
        &[],
        &[],
        Negation(&Arithmetic(Divide, &I, &J)),
    ),
    TermRow(
        b"divNegR",
        Arithmetic(Divide, &I, &Negation(&J)),
        &[],
        &[],
        Negation(&Arithmetic(Divide, &I, &J)),
    ),
    FreeRow(
        b"divBound",
        &[
            GivenData(b"i", ATerm(Only(Sort::Int))),
            GivenData(b"j", ATerm(Only(Sort::Int))),
        ],
        &[],
        &[Plus(
            &[Connected(
                Implies,
                &Connected(
                    And,
                    &Compared(LessOrEqual, Number(0), I),
                    &Compared(Less, Number(0), J),
                ),
                &Connected(
                    And,
                    &Compared(
                        LessOrEqual,
                        Arithmetic(Multiply, &J, &Arithmetic(Divide, &I, &J)),
                        I,
                    ),
                    &Compared(
                        Less,
                        I,
                        Arithmetic(
                            Add,
                            &Arithmetic(Multiply, &J, &Arithmetic(Divide, &I, &J)),
                            &J,
                        ),
                    ),
                ),
            )],
            &[],
        )],
    ),
    TermRow(
        b"sumEmpty",
        Sum(&I, &J, &S),
        &[(Left, Compared(LessOrEqual, J, I))],
        &[],
        Number(0),
    ),
    TermRow(
        b"sumLast",
        Sum(&I, &J, &S),
        &[(Left, Compared(Less, I, J))],
        &[IndexInTerm(b"s", Only(Sort::Int))],
        Arithmetic(
            Add,
            &Sum(&I, &Arithmetic(Subtract, &J, &Number(1)), &S),
            &Put(b"s", &Arithmetic(Subtract, &J, &Number(1))),
        ),
    ),
];

fn integers_1(alloc: Global) -> Result<Vec<Taclet>, NoMemory>
    ensures { GivesRows result (take 10 (drop 0 integer_rows)) }
{
    rows_of(alloc, &INTEGERS_1)
}

fn integers_2(alloc: Global) -> Result<Vec<Taclet>, NoMemory>
    ensures { GivesRows result (take 10 (drop 10 integer_rows)) }
{
    rows_of(alloc, &INTEGERS_2)
}

fn integers_3(alloc: Global) -> Result<Vec<Taclet>, NoMemory>
    ensures { GivesRows result (take 10 (drop 20 integer_rows)) }
{
    rows_of(alloc, &INTEGERS_3)
}

fn integers_4(alloc: Global) -> Result<Vec<Taclet>, NoMemory>
    ensures { GivesRows result (take 10 (drop 30 integer_rows)) }
{
    rows_of(alloc, &INTEGERS_4)
}

fn integers_5(alloc: Global) -> Result<Vec<Taclet>, NoMemory>
    ensures { GivesRows result (take 10 (drop 40 integer_rows)) }
{
    rows_of(alloc, &INTEGERS_5)
}

/// The rows of integers, in order.
///
/// # Errors
///
/// `NoMemory` if memory runs out.
pub fn table(alloc: Global) -> Result<Vec<Taclet>, NoMemory>
    ensures { GivesRows result integer_rows }
{
    joined_rows(
        joined_rows(integers_1(alloc), integers_2(alloc)),
        joined_rows(
            integers_3(alloc),
            joined_rows(integers_4(alloc), integers_5(alloc)),
        ),
    )
}
