use jd_syntax::{AssignmentOperator, CountOperator, InfixOperator, PrefixOperator};

/// What a node of an expression stands for, by the values of its parts.
#[derive(Clone, Copy)]
pub enum Action {
    /// Nothing that a tree has.
    Nothing,
    /// What its first part stands for.
    First,
    /// A name.
    Identifier,
    /// `[]`
    Dimension,
    /// `int` or `int[]`
    IntType,
    /// `boolean`
    BooleanType,
    /// `int[]`
    ArrayType,
    /// The name of a class as a type.
    ClassType,
    /// A literal.
    Number,
    /// `true` or `false`
    Boolean(bool),
    /// `null`
    Null,
    /// An operand, and what stands behind it.
    Operand,
    /// A name, its arguments if it is called, and what stands behind it.
    Name,
    /// `this`, and what stands behind it.
    This,
    /// An operand in parentheses, and what stands behind it.
    Inside,
    /// `(` or `new`, and what begins with it.
    Begun,
    /// A name, and what makes it a statement.
    NameEffect,
    /// `-` before an operand.
    Prefix(PrefixOperator),
    /// What stands behind an operand.
    Suffixes,
    /// `+ e`
    Infix(InfixOperator),
    /// `instanceof T`
    InstanceOf,
    /// `= e`
    Assign(AssignmentOperator),
    /// `? e : e`
    Choice,
    /// `.x` or `.m(e, ..)`
    Member,
    /// `[e]`
    Element,
    /// `++`
    Count(CountOperator),
    /// Behind `(`: an expression in parentheses, or a class and what is cast to it.
    Parenthesis,
    /// Behind `(`: `int` or `int[]`, and what is cast to it.
    IntCast,
    /// Behind `(`: `boolean`, and what is cast to it.
    BooleanCast,
    /// What is cast to `int[]`.
    ArrayOperand,
    /// Behind `new`: an object.
    Object,
    /// Behind `new`: an array.
    Array,
    /// Arguments, if it is called, and what stands behind that, behind a name.
    BehindName,
    /// No expressions.
    NoExpressions,
    /// An expression, and others.
    Expressions,
}
