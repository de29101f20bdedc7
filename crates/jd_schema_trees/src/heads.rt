use jd_base::Sort;
use jd_syntax::{Kind, VarId};
use jd_term::Modality;

/// A sort, or a schema variable for one.
#[derive(Drop)]
pub enum SSort {
    /// Any sort.
    Variable(Vec<u8>),
    /// This sort.
    Given(Sort),
}

/// A class or `int[]`, or a schema variable for one.
#[derive(Drop)]
pub enum SKind {
    /// Any of them.
    Variable(Vec<u8>),
    /// This one.
    Given(Kind),
}

/// A modality, or a schema variable for one.
#[derive(Drop)]
pub enum SModality {
    /// Either.
    Variable(Vec<u8>),
    /// This one.
    Given(Modality),
}

/// A program variable or a constant, or a schema variable for one.
#[derive(Drop)]
pub enum SName {
    /// Any name.
    Variable(Vec<u8>),
    /// This name.
    Given(VarId),
}

/// The variable that takes a frame's result.
#[derive(Drop)]
pub enum SResult {
    /// `-`: there is none.
    NoResult,
    /// There is one.
    In(SName),
    /// A variable, or none.
    Variable(Vec<u8>),
}

/// The class of what the machine throws (JLS 11.1.1).
#[derive(Clone, Copy, PartialEq, Eq)]
pub enum MachineClass {
    /// `NullPointerException`
    NullPointer,
    /// `ArithmeticException`
    DivisionByZero,
    /// `ArrayIndexOutOfBoundsException`
    OutOfBounds,
    /// `ClassCastException`
    BadCast,
    /// `NegativeArraySizeException`
    NegativeSize,
}

/// A class, or a schema variable for one.
#[derive(Drop)]
pub enum SClass {
    /// Any class.
    Variable(Vec<u8>),
    /// That of what the machine throws.
    Of(MachineClass),
}
