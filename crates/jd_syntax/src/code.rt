use crate::variable::VarId;
use jd_base::{ClassId, FieldId, MethodId};

/// A class, or the array type `int[]`.
#[derive(Clone, Copy)]
pub enum Kind {
    /// A class.
    Class(ClassId),
    /// `int[]`, the only array type.
    IntArray,
}

/// An operation on one value (JLS 15.15).
#[derive(Clone, Copy, PartialEq, Eq)]
pub enum UnaryOp {
    /// `-`, cut to 32 bits.
    Negate,
    /// `!`
    Invert,
}

/// An operation on two values, both of which are always evaluated (JLS 15.17 to 15.21).
#[derive(Clone, Copy, PartialEq, Eq)]
pub enum BinaryOp {
    /// `+`, cut to 32 bits.
    Add,
    /// `-`, cut to 32 bits.
    Subtract,
    /// `*`, cut to 32 bits.
    Multiply,
    /// `/`, rounded toward zero and cut to 32 bits; by zero it throws.
    Divide,
    /// `%`; by zero it throws.
    Remainder,
    /// `<`
    Less,
    /// `<=`
    LessOrEqual,
    /// `>`
    Greater,
    /// `>=`
    GreaterOrEqual,
    /// `==`
    Equal,
    /// `!=`
    NotEqual,
}

/// A list of statements.
#[cycle(code)]
#[derive(Drop)]
pub struct Code {
    /// The statements in order.
    pub stmts: Vec<CodeStmt>,
}

/// A statement of resolved code (JLS 14).
#[cycle(code)]
#[derive(Drop)]
pub enum CodeStmt {
    /// `(set x X)`: the variable takes the value.
    Set(VarId, CodeExpr),
    /// `(put X C.f X)`: the field of the object takes the value.
    WriteField(CodeExpr, FieldId, CodeExpr),
    /// `(aput X X X)`: the array's element at the index takes the value.
    WriteElement(CodeExpr, CodeExpr, CodeExpr),
    /// `(eval X)`: the value is dropped.
    Evaluate(CodeExpr),
    /// `(if X (s..) (s..))`
    If(CodeExpr, Code, Code),
    /// `(while k X (s..))`: k is the loop's number in its method.
    While(u32, CodeExpr, Code),
    /// `(block l (s..))`: a `break` with this label ends it.
    Block(u32, Code),
    /// `(break l)`
    Break(u32),
    /// `(catch (s..) x (s..))`: a thrown reference is bound to x.
    Catch(Code, VarId, Code),
    /// `(finally (s..) (s..))`
    Finally(Code, Code),
    /// `(throw X)`: null throws a `NullPointerException`.
    Throw(CodeExpr),
    /// `(throwx X)`: throws without a test for null.
    ThrowUnchecked(CodeExpr),
    /// `(return X)`
    Return(CodeExpr),
    /// `(return)`
    ReturnVoid,
    /// `(frame r (s..))`: a method's body; r takes the result, where there is one.
    Frame(Option<VarId>, Code),
    /// `(raise C)`: allocates an object of the class and throws it.
    Raise(ClassId),
    /// `(alloc x C)`
    AllocObject(VarId, ClassId),
    /// `(alloc x (arr X))`: an array whose length is known not to be negative.
    AllocArray(VarId, CodeExpr),
    /// `(allocarr x X)`: an array; a negative length throws.
    NewArray(VarId, CodeExpr),
    /// `(stop)`: ends the run normally through every context.
    Stop,
}

/// An expression of resolved code (JLS 15).
#[cycle(code)]
#[derive(Drop)]
pub enum CodeExpr {
    /// A literal of 32 bits.
    IntLiteral(i32),
    /// `true` or `false`
    BoolLiteral(bool),
    /// `null`
    NullLiteral,
    /// A variable.
    Variable(VarId),
    /// `(neg X)`, `(not X)`
    Unary(UnaryOp, Box<CodeExpr>),
    /// `(add X X)` and the like
    Binary(BinaryOp, Box<CodeExpr>, Box<CodeExpr>),
    /// `(and X X)`: the second part is evaluated where the first is true.
    AndAlso(Box<CodeExpr>, Box<CodeExpr>),
    /// `(or X X)`: the second part is evaluated where the first is false.
    OrElse(Box<CodeExpr>, Box<CodeExpr>),
    /// `(cond X X X)`
    Conditional(Box<CodeExpr>, Box<CodeExpr>, Box<CodeExpr>),
    /// `(get X C.f)`
    ReadField(Box<CodeExpr>, FieldId),
    /// `(aget X X)`
    ReadElement(Box<CodeExpr>, Box<CodeExpr>),
    /// `(len X)`
    LengthOf(Box<CodeExpr>),
    /// `(cast K X)`
    Cast(Kind, Box<CodeExpr>),
    /// `(inst K X)`
    InstanceOf(Kind, Box<CodeExpr>),
    /// `(call C.m X X..)`: the static class, the method visible there, the receiver, the arguments.
    VirtualCall(ClassId, MethodId, Box<CodeExpr>, Vec<CodeExpr>),
    /// `(scall C.m X..)`
    StaticCall(MethodId, Vec<CodeExpr>),
    /// `(ctor C X X..)`: the constructor, the new object, the arguments.
    ConstructorCall(MethodId, Box<CodeExpr>, Vec<CodeExpr>),
    /// `(do (s..) X)`
    DoThen(Code, Box<CodeExpr>),
}
