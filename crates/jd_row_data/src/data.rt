use jd_base::Sort;
use jd_model::Side;
use jd_schema_trees::NumberTest;
use jd_term::ArithmeticOp;

/// A sort, or a schema variable for one.
#[derive(Clone, Copy)]
pub enum SortData {
    /// Any sort.
    AnySort(&'static [u8]),
    /// This sort.
    Only(Sort),
}

/// A pattern of terms, of the forms that rows of logic and of integers have.
#[derive(Clone, Copy)]
pub enum TermData {
    /// Any term.
    AnyTerm(&'static [u8]),
    /// Any term of the sort.
    OfSort(Sort, &'static [u8]),
    /// Any literal.
    Literal(&'static [u8]),
    /// The variable's term with another for `%0`.
    Put(&'static [u8], &'static TermData),
    /// A constant that a variable stands for.
    Constant(&'static [u8]),
    /// This literal.
    Number(i128),
    /// `true`, `false`
    Boolean(bool),
    /// `%k`, of the sort.
    Bound(u32, Sort),
    /// `(neg t)`
    Negation(&'static TermData),
    /// `(wrap t)`
    Wrap(&'static TermData),
    /// `(add t t)` and the like
    Arithmetic(ArithmeticOp, &'static TermData, &'static TermData),
    /// `(bsum t t t)`
    Sum(&'static TermData, &'static TermData, &'static TermData),
}

/// What joins two formulas.
#[derive(Clone, Copy)]
pub enum Connective {
    /// `and`
    And,
    /// `or`
    Or,
    /// `imp`
    Implies,
    /// `iff`
    Iff,
}

/// What compares two terms.
#[derive(Clone, Copy)]
pub enum Comparison {
    /// `eq`
    Equal,
    /// `lt`
    Less,
    /// `le`
    LessOrEqual,
}

/// What binds an index of a formula.
#[derive(Clone, Copy)]
pub enum Quantifier {
    /// `forall`
    Forall,
    /// `exists`
    Exists,
}

/// A pattern of formulas, of the forms that rows of logic and of integers have.
#[derive(Clone, Copy)]
pub enum FormulaData {
    /// Any formula.
    AnyFormula(&'static [u8]),
    /// The variable's formula with a term for `%0`.
    PutIn(&'static [u8], TermData),
    /// `true`
    True,
    /// `false`
    False,
    /// `(not A)`
    Not(&'static FormulaData),
    /// `(and A A)` and the like
    Connected(Connective, &'static FormulaData, &'static FormulaData),
    /// `(eq t t)` and the like
    Compared(Comparison, TermData, TermData),
    /// `(forall S A)` and the like
    Quantified(Quantifier, SortData, &'static FormulaData),
    /// `(inInt t)`
    InInt(TermData),
}

/// What a step gives for a variable, of the forms that these rows ask for.
#[derive(Clone, Copy)]
pub enum FormData {
    /// A formula.
    AFormula,
    /// A number.
    ANumber,
    /// A term of the sort.
    ATerm(SortData),
    /// A constant of the sort that is new.
    NewConstant(SortData),
}

/// A variable for which a step gives what it stands for, with its form.
#[derive(Clone, Copy)]
pub struct GivenData(pub &'static [u8], pub FormData);

/// A number that is computed of those that variables stand for.
#[derive(Clone, Copy)]
pub enum CalculationData {
    /// The variable's number.
    Of(&'static [u8]),
    /// This number.
    Numeral(i128),
    /// An operation on two numbers.
    Operation(ArithmeticOp, &'static CalculationData, &'static CalculationData),
    /// The number with the other sign.
    Negated(&'static CalculationData),
    /// The 32-bit integer that is equal modulo 2 to the power of 32.
    Wrapped(&'static CalculationData),
}

/// A condition, of the forms that these rows have.
#[derive(Clone, Copy)]
pub enum ConditionData {
    /// The term may be put for the formula's index.
    Steady(&'static [u8], &'static [u8]),
    /// The number is 0 or more.
    AtLeastZero(&'static [u8]),
    /// The number is what is computed, and fits 128 bits.
    Calculated(&'static [u8], CalculationData),
    /// The formula is whether the numbers pass the test.
    Whether(&'static [u8], NumberTest, CalculationData, CalculationData),
    /// The index 0 has the sort in the formula.
    Index(&'static [u8], SortData),
    /// The index 0 has the sort in the term.
    IndexInTerm(&'static [u8], SortData),
    /// The formula has no free index but 0.
    OnlyIndex(&'static [u8]),
}

/// A premise: formulas that are added on the left and on the right.
#[derive(Clone, Copy)]
pub enum GoalData {
    /// In the place of what was found.
    Goal(&'static [FormulaData], &'static [FormulaData]),
    /// Beside it.
    Plus(&'static [FormulaData], &'static [FormulaData]),
}

/// A row, by its kind: its name, what it finds, what it assumes, what a step gives, its conditions, and its premises or what it puts.
#[derive(Clone, Copy)]
pub enum RowData {
    /// At a whole formula on the left.
    LeftRow(
        &'static [u8],
        FormulaData,
        &'static [(Side, FormulaData)],
        &'static [GivenData],
        &'static [ConditionData],
        &'static [GoalData],
    ),
    /// At a whole formula on the right.
    RightRow(
        &'static [u8],
        FormulaData,
        &'static [(Side, FormulaData)],
        &'static [GivenData],
        &'static [ConditionData],
        &'static [GoalData],
    ),
    /// At no place.
    FreeRow(&'static [u8], &'static [GivenData], &'static [ConditionData], &'static [GoalData]),
    /// At a formula at any depth.
    FormulaRow(
        &'static [u8],
        FormulaData,
        &'static [(Side, FormulaData)],
        &'static [GivenData],
        &'static [ConditionData],
        FormulaData,
    ),
    /// At a term at any depth.
    TermRow(
        &'static [u8],
        TermData,
        &'static [(Side, FormulaData)],
        &'static [ConditionData],
        TermData,
    ),
}
