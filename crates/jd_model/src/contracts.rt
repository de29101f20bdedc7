use jd_base::{ClassId, MethodId, Sort};
use jd_syntax::{Code, VarDecl};
use jd_term::{Formula, Loc, Term};

/// One case of a method's contract for one exact class (The KeY Book, 8.2 and 8.3; JML Reference
/// Manual, 9.6). Its formulas, locations and terms have the names of that class's obligation.
#[derive(Drop)]
pub struct CaseForm {
    /// The method or constructor.
    pub method: MethodId,
    /// The exact class of the receiver.
    pub class: ClassId,
    /// The number of the case, from 1.
    pub number: u32,
    /// The members of the entry condition, without the measure's equation.
    pub entry: Vec<Formula>,
    /// The members of what a normal end must meet; the receiver's invariant comes last, where it is
    /// kept.
    pub exit: Vec<Formula>,
    /// The members of what an exceptional end must meet; the receiver's invariant comes last, where
    /// it is kept.
    pub exceptional: Vec<Formula>,
    /// The locations that the method may change: the assignable clauses (JML Reference Manual, 9.9).
    pub frame: Loc,
    /// The measure at the entry: the measured-by clause (JML Reference Manual, 9.9).
    pub measure: Term,
    /// Whether the run need not end: the diverges clause (JML Reference Manual, 9.9).
    pub diverges: bool,
}

/// The invariants that a class declares itself (JML Reference Manual, 8.2).
#[derive(Drop)]
pub struct InvForm {
    /// The class.
    pub class: ClassId,
    /// The invariants in source order, with `@heap` for the heap and `#r_this` for the object.
    pub formulas: Vec<Formula>,
}

/// The body of a method or constructor.
#[derive(Drop)]
pub struct BodyForm {
    /// The method or constructor.
    pub method: MethodId,
    /// How many of the variables are `this`, where there is one, and the parameters.
    pub params: u32,
    /// The variables: first `this`, where there is one, and the parameters, then the locals.
    pub vars: Vec<VarDecl>,
    /// The sort of the result, where there is one.
    pub result: Option<Sort>,
    /// The statements.
    pub code: Code,
}

/// The tables of a program's contracts, invariants and bodies (The KeY Book, 8.2 and 8.3).
#[derive(Drop)]
pub struct Contracts {
    /// The cases of the methods' contracts.
    pub cases: Vec<CaseForm>,
    /// The invariants of the classes.
    pub invariants: Vec<InvForm>,
    /// The bodies of the methods and constructors.
    pub bodies: Vec<BodyForm>,
}
