use crate::heads::SSort;
use jd_term::ArithmeticOp;

/// A number that is computed of those that variables stand for.
#[derive(Drop)]
pub enum Calculation {
    /// The variable's number.
    Variable(Vec<u8>),
    /// This number.
    Number(i128),
    /// An operation on two numbers.
    Arithmetic(ArithmeticOp, Box<Calculation>, Box<Calculation>),
    /// The number with the other sign.
    Negation(Box<Calculation>),
    /// The 32-bit integer that is equal modulo 2 to the power of 32.
    Wrap(Box<Calculation>),
}

/// A test of two numbers.
#[derive(Clone, Copy, PartialEq, Eq)]
pub enum NumberTest {
    /// The first is less.
    Less,
    /// The first is less, or both are equal.
    LessOrEqual,
    /// Both are equal.
    Equal,
}

/// The sort that is asked for.
#[derive(Drop)]
pub enum AskedSort {
    /// That of a pattern.
    Of(SSort),
    /// That of the simple expression that the variable stands for, as a term.
    OfSimple(Vec<u8>),
}

/// What a step gives for a variable.
#[derive(Drop)]
pub enum GivenForm {
    /// A formula.
    Formula,
    /// A number.
    Number,
    /// A term of the sort.
    Term(AskedSort),
    /// A constant that is new.
    NewConstant(AskedSort),
    /// A program variable that is new.
    NewVariable(AskedSort),
}

/// A condition on what a row's variables stand for, by their names.
#[derive(Drop)]
pub enum VarCond {
    /// What a step gives for the variable.
    Gives(Vec<u8>, GivenForm),
    /// `steady(t,A)`: the term has no program variable, or no place of the formula where it is put lies in an update's body or a
    /// modality's formula.
    SteadyIn(Vec<u8>, Vec<u8>),
    /// `named(f)`: the term is `C.f` or `(idx i)`.
    NamedFieldTerm(Vec<u8>),
    /// `apart(f,e)`: both terms have forms of fields, and different ones or different names.
    FieldsApart(Vec<u8>, Vec<u8>),
    /// The number is 0 or more.
    AtLeastZero(Vec<u8>),
    /// The term has the sort.
    TermHasSort(Vec<u8>, SSort),
    /// The first kind is the second or stands below it.
    KindBelow(Vec<u8>, Vec<u8>),
    /// The kinds differ.
    KindsDiffer(Vec<u8>, Vec<u8>),
    /// The term is a named field whose type is the kind.
    FieldRefersTo(Vec<u8>, Vec<u8>),
    /// The first term is a named field whose sort is the second's.
    FieldTakes(Vec<u8>, Vec<u8>),
    /// The number is what is computed, and fits 128 bits.
    Calculated(Vec<u8>, Calculation),
    /// The formula is whether the numbers pass the test.
    WhetherNumbers(Vec<u8>, NumberTest, Calculation, Calculation),
    /// The formula is whether the second kind is the third or stands below it.
    WhetherBelow(Vec<u8>, Vec<u8>, Vec<u8>),
    /// The term is the sort's default.
    DefaultTerm(Vec<u8>, SSort),
    /// The expression is the default of the variable's sort.
    DefaultExpr(Vec<u8>, Vec<u8>),
    /// The sort is that of the field.
    FieldHasSort(Vec<u8>, Vec<u8>),
    /// The kind is the class that declares the field that the term is.
    DeclaredBy(Vec<u8>, Vec<u8>),
    /// The formula is the typing of a value that is stored: of the field's term, the heap and the value.
    TypingOf(Vec<u8>, Vec<u8>, Vec<u8>, Vec<u8>),
    /// The formula is what the invariants of the kind say: of the kind, the heap and the object.
    InvariantsOf(Vec<u8>, Vec<u8>, Vec<u8>, Vec<u8>),
    /// The index 0 has the sort in the formula, and the sort is one that is bound.
    IndexSort(Vec<u8>, SSort),
    /// The index 0 has the sort in the term, and the sort is one that is bound.
    IndexSortInTerm(Vec<u8>, SSort),
    /// The sort is one that entries of heaps have.
    EntrySort(Vec<u8>),
    /// The formula has no free index but 0.
    OnlyIndex(Vec<u8>),
}
