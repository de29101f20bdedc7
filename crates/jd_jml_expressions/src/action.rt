use jd_syntax::{InfixOperator, Quantifier, SpecPrefix};

/// What a node of an expression stands for, by the values of its parts.
#[derive(Clone, Copy)]
pub enum Action {
    /// Nothing that a tree has.
    Nothing,
    /// What its first part stands for.
    First,
    /// A name.
    Identifier,
    /// `[]`
    Dimension,
    /// `\bigint`
    BigInteger,
    /// `int` or `int[]`
    IntType,
    /// `boolean`
    BooleanType,
    /// `int[]`
    ArrayType,
    /// The name of a class as a type.
    ClassType,
    /// A literal.
    Number,
    /// `true` or `false`
    Boolean(bool),
    /// `null`
    Null,
    /// `this`
    This,
    /// `\result`
    Result,
    /// `\old(e)`
    Old,
    /// `\fresh(e)`
    Fresh,
    /// `\invariant_for(e)`
    InvariantFor,
    /// An operand, and what stands behind it.
    Operand,
    /// A name, its arguments if it is called, and what stands behind it.
    Name,
    /// `(`, and what begins with it.
    Begun,
    /// `-` before an operand.
    Prefix(SpecPrefix),
    /// Nothing behind an operand.
    NoSuffixes,
    /// `+ e`
    Infix(InfixOperator),
    /// `instanceof T`
    InstanceOf,
    /// `? e : e`
    Choice,
    /// `==> e`
    Implies,
    /// `<==> e`
    Equivalent,
    /// `.x` or `.m(e, ..)`
    Member,
    /// `[e]`
    Element,
    /// Behind `(`: an expression in parentheses, or a class and what is cast to it.
    Parenthesis,
    /// Behind `(`: `int` or `int[]`, and what is cast to it.
    IntCast,
    /// Behind `(`: `boolean`, and what is cast to it.
    BooleanCast,
    /// What is cast to `int[]`.
    ArrayOperand,
    /// Behind `(`: what binds a variable, and what stands behind that.
    Followed,
    /// `\forall` or `\exists`
    Quantified(Quantifier),
    /// `\sum`
    Sum,
    /// No expressions.
    NoExpressions,
    /// An expression, and others.
    Expressions,
}
