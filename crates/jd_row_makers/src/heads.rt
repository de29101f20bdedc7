//! What a declaration says of a case, and its clauses as formulas.

use jd_base::{ClassId, FieldId, Sort};
use jd_syntax::Kind;
use jd_term::{ConstId, Formula, Loc, Term};

/// The type of a parameter or a result (JLS 4.2, 4.3).
#[derive(Clone, Copy)]
pub enum ContractType {
    /// `int`
    Int,
    /// `boolean`
    Boolean,
    /// A class or `int[]`.
    Reference(Kind),
}

/// A type with its mark.
#[derive(Clone, Copy)]
pub struct DeclaredType {
    /// The type.
    pub form: ContractType,
    /// Whether it is marked `nullable` (JML Reference Manual, 6.2.13).
    pub nullable: bool,
}

/// A parameter.
#[derive(Drop)]
pub struct Parameter {
    /// The constant that stands for its value.
    pub constant: ConstId,
    /// Its type.
    pub declared: DeclaredType,
}

/// What a case is of.
#[derive(Clone, Copy)]
pub enum Role {
    /// A static method.
    Static,
    /// An instance method.
    Ordinary,
    /// An instance method that is marked `helper` (JML Reference Manual, 6.2.11).
    Helper,
    /// A constructor of this class.
    Constructor(ClassId),
}

/// The behaviour word of a case (JML Reference Manual, 9.6 to 9.8).
#[derive(Clone, Copy)]
pub enum Behaviour {
    /// None, or `behavior`.
    AnyEnd,
    /// `normal_behavior`
    NormalOnly,
    /// `exceptional_behavior`
    ExceptionalOnly,
}

/// A field that a new object has.
#[derive(Clone, Copy)]
pub struct FieldSort {
    /// The field.
    pub field: FieldId,
    /// The sort of what it holds.
    pub sort: Sort,
}

/// What a declaration says of a case.
#[derive(Drop)]
pub struct Head {
    /// What it is of.
    pub role: Role,
    /// The parameters, in order.
    pub parameters: Vec<Parameter>,
    /// The result, where there is one.
    pub result: Option<DeclaredType>,
    /// How the method may end.
    pub behaviour: Behaviour,
    /// Whether it need not end.
    pub diverges: bool,
}

/// The clauses of a case (JML Reference Manual, 9.9), each as a member of its row.
#[derive(Drop)]
pub struct Clauses {
    /// What is required.
    pub required: Vec<Formula>,
    /// What a normal end ensures.
    pub ensured: Vec<Formula>,
    /// For each class that may be thrown, what then holds.
    pub signals: Vec<Formula>,
    /// For each clause that names what may be thrown, that it is one of these.
    pub signals_only: Vec<Formula>,
    /// What may be assigned.
    pub assignable: Loc,
    /// The measure.
    pub measure: Term,
}
