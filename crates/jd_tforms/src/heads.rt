//! The words that begin the forms.

use jd_base::Sort;
use jd_syntax::{BinaryOp, UnaryOp};
use jd_term::{ArithmeticOp, Modality};

/// What begins a term.
#[derive(Clone, Copy)]
pub enum TermHead {
    /// `add`, `sub`, `mul`, `div` or `mod`
    Arithmetic(ArithmeticOp),
    /// `neg`
    Negation,
    /// `wrap`
    Wrap,
    /// `len`
    Length,
    /// `selI`, `selB` or `selR`
    Select(Sort),
    /// `bsum`
    Sum,
    /// `store`
    Store,
    /// `create`
    Create,
    /// `anon`
    Anon,
    /// `idx`
    Element,
}

/// What begins a location set.
#[derive(Clone, Copy)]
pub enum LocHead {
    /// `loc`
    Single,
    /// `obj`
    Object,
    /// `arrall`
    Elements,
    /// `arr`
    Range,
    /// `union`
    Union,
}

/// What begins a formula.
#[derive(Clone, Copy)]
pub enum FormulaHead {
    /// `not`
    Not,
    /// `and`
    And,
    /// `or`
    Or,
    /// `imp`
    Implies,
    /// `iff`
    Iff,
    /// `eq`
    Equal,
    /// `lt`
    Less,
    /// `le`
    LessOrEqual,
    /// `forall`
    Forall,
    /// `exists`
    Exists,
    /// `upd`
    Updated,
    /// `box` or `dia`
    Modal(Modality),
    /// `in`
    In,
    /// `inInt`
    InInt,
    /// `wf`
    WellFormed,
    /// `inv`
    Invariant,
    /// `inst`
    Instance,
    /// `exact`
    Exact,
}

/// What begins an expression of code.
#[derive(Clone, Copy)]
pub enum ExprHead {
    /// `neg` or `not`
    Unary(UnaryOp),
    /// `add`, `lt` and the like
    Binary(BinaryOp),
    /// `and`
    AndAlso,
    /// `or`
    OrElse,
    /// `cond`
    Conditional,
    /// `get`
    ReadField,
    /// `aget`
    ReadElement,
    /// `len`
    LengthOf,
    /// `cast`
    Cast,
    /// `inst`
    InstanceOf,
    /// `call`
    VirtualCall,
    /// `scall`
    StaticCall,
    /// `ctor`
    ConstructorCall,
    /// `do`
    DoThen,
}

/// What begins a statement of code.
#[derive(Clone, Copy)]
pub enum StmtHead {
    /// `set`
    Set,
    /// `put`
    WriteField,
    /// `aput`
    WriteElement,
    /// `eval`
    Evaluate,
    /// `if`
    If,
    /// `while`
    While,
    /// `block`
    Block,
    /// `break`
    Break,
    /// `catch`
    Catch,
    /// `finally`
    Finally,
    /// `throw`
    Throw,
    /// `throwx`
    ThrowUnchecked,
    /// `return`
    Return,
    /// `frame`
    Frame,
    /// `raise`
    Raise,
    /// `alloc`
    Alloc,
    /// `allocarr`
    NewArray,
    /// `stop`
    Stop,
}
