/// A clause of one expression.
#[derive(Clone, Copy)]
pub enum Assertion {
    /// `requires e;`
    Requires,
    /// `ensures e;`
    Ensures,
    /// `measured_by e;`
    MeasuredBy,
    /// `loop_invariant e;`
    LoopInvariant,
    /// `decreases e;`
    Decreases,
    /// `invariant e;`
    Invariant,
}

/// A word that stands alone, or before the clauses of a case.
#[derive(Clone, Copy)]
pub enum Word {
    /// `also`
    Also,
    /// `normal_behavior`
    NormalBehavior,
    /// `exceptional_behavior`
    ExceptionalBehavior,
    /// `behavior`
    Behavior,
    /// `pure`
    Pure,
    /// `helper`
    Helper,
    /// `nullable`
    Nullable,
    /// `non_null`
    NonNull,
    /// `spec_public`
    SpecPublic,
    /// `spec_protected`
    SpecProtected,
}

/// What a node of clauses or locations stands for, by the values of its parts.
#[derive(Clone, Copy)]
pub enum Action {
    /// The clauses of all parts.
    AllClauses,
    /// A word, and the clauses of all parts.
    Word(Word),
    /// A clause of one expression.
    Asserts(Assertion),
    /// `signals (C x) e;`
    Signals,
    /// `signals_only C, ..;`
    SignalsOnly,
    /// `assignable l, ..;`
    Assignable,
    /// `diverges true;`
    Diverges,
    /// No names.
    NoNames,
    /// A name, and others.
    Names,
    /// `\nothing`
    NothingAssigned,
    /// `\everything`
    EverythingAssigned,
    /// The locations of both parts.
    Locations,
    /// A location that begins with a name.
    NamedLocation,
    /// One that begins with another operand.
    OperandLocation,
    /// One that begins with `(`.
    BegunLocation,
    /// Arguments, and what stands behind them.
    Invoked,
    /// `.*`
    AllFields,
    /// `[*]`
    AllElements,
    /// A member, and what stands behind it.
    MemberStep,
    /// An index, and what stands behind it.
    IndexStep,
    /// `..` and the greatest index.
    Bound,
}
