use crate::spec::SpecBlock;

/// A name and where it stands.
#[derive(Drop)]
pub struct Identifier {
    /// The offset of its first byte.
    pub at: u32,
    /// Its bytes.
    pub name: Vec<u8>,
}

/// A type (JLS 4.1).
#[derive(Drop)]
pub enum JavaType {
    /// `int`
    Int,
    /// `boolean`
    Boolean,
    /// `int[]`, the only array type.
    IntArray,
    /// A class, by its name.
    Named(Vec<u8>),
}

/// A type and where it stands.
#[derive(Drop)]
pub struct WrittenType {
    /// The offset of its first token.
    pub at: u32,
    /// The type.
    pub written: JavaType,
}

/// An operator between two operands (JLS 15.17 to 15.24).
#[derive(Clone, Copy, PartialEq, Eq)]
pub enum InfixOperator {
    /// `||`
    OrElse,
    /// `&&`
    AndAlso,
    /// `==`
    Equal,
    /// `!=`
    NotEqual,
    /// `<`
    Less,
    /// `<=`
    LessOrEqual,
    /// `>`
    Greater,
    /// `>=`
    GreaterOrEqual,
    /// `+`
    Add,
    /// `-`
    Subtract,
    /// `*`
    Multiply,
    /// `/`
    Divide,
    /// `%`
    Remainder,
}

/// `++` or `--` (JLS 15.14.2, 15.14.3, 15.15.1, 15.15.2).
#[derive(Clone, Copy, PartialEq, Eq)]
pub enum CountOperator {
    /// `++`
    Increment,
    /// `--`
    Decrement,
}

/// An operator before an operand (JLS 15.15).
#[derive(Clone, Copy, PartialEq, Eq)]
pub enum PrefixOperator {
    /// `+`
    Plus,
    /// `-`
    Minus,
    /// `!`
    Not,
    /// `++` or `--`
    Count(CountOperator),
}

/// An assignment (JLS 15.26).
#[derive(Clone, Copy, PartialEq, Eq)]
pub enum AssignmentOperator {
    /// `=`
    Set,
    /// `+=`
    Add,
    /// `-=`
    Subtract,
    /// `*=`
    Multiply,
    /// `/=`
    Divide,
    /// `%=`
    Remainder,
}

/// An expression (JLS 15).
#[cycle(java_expr)]
#[derive(Drop)]
pub struct Expr {
    /// The offset of its first token.
    pub at: u32,
    /// Its form and its parts.
    pub form: ExprForm,
}

/// The forms of expressions.
#[cycle(java_expr)]
#[derive(Drop)]
pub enum ExprForm {
    /// A literal from 0 to 2147483648; the last stands directly behind a minus (JLS 3.10.1).
    Integer(u32),
    /// `true` or `false`
    Boolean(bool),
    /// `null`
    Null,
    /// `this`
    This,
    /// `x`
    Name(Vec<u8>),
    /// `e.x`
    Field(Box<Expr>, Identifier),
    /// `(e)`
    Parenthesized(Box<Expr>),
    /// `m(e, ..)`
    Call(Vec<u8>, Vec<Expr>),
    /// `e.m(e, ..)`
    MethodCall(Box<Expr>, Identifier, Vec<Expr>),
    /// `new C(e, ..)`
    New(Identifier, Vec<Expr>),
    /// `new int[e]`
    NewArray(Box<Expr>),
    /// `a[i]`
    Index(Box<Expr>, Box<Expr>),
    /// `-e`
    Prefix(PrefixOperator, Box<Expr>),
    /// `e++`
    Postfix(CountOperator, Box<Expr>),
    /// `(T) e`
    Cast(WrittenType, Box<Expr>),
    /// `e + e`
    Infix(InfixOperator, Box<Expr>, Box<Expr>),
    /// `e instanceof T`
    InstanceOf(Box<Expr>, WrittenType),
    /// `e ? e : e`
    Conditional(Box<Expr>, Box<Expr>, Box<Expr>),
    /// `e = e`
    Assign(AssignmentOperator, Box<Expr>, Box<Expr>),
}

/// A declared local variable, with its first value where one is written (JLS 14.4).
#[derive(Drop)]
pub struct Declarator {
    /// Its name.
    pub name: Identifier,
    /// Its first value.
    pub value: Option<Expr>,
}

/// What stands before the first `;` of a `for` (JLS 14.14.1).
#[derive(Drop)]
pub enum ForStart {
    /// `T x = e, ..`
    Declared(WrittenType, Vec<Declarator>),
    /// `e, ..`, or nothing.
    Evaluated(Vec<Expr>),
}

/// A statement (JLS 14).
#[cycle(java_stmt)]
#[derive(Drop)]
pub struct Stmt {
    /// The offset of its first token; JML before it does not count.
    pub at: u32,
    /// Its form and its parts.
    pub form: StmtForm,
}

/// The forms of statements.
#[cycle(java_stmt)]
#[derive(Drop)]
pub enum StmtForm {
    /// `{ s .. }`
    Block(Vec<Stmt>),
    /// `;`
    Empty,
    /// `T x = e, ..;`
    Local(WrittenType, Vec<Declarator>),
    /// `e;`
    Evaluate(Expr),
    /// `l: s`, with the JML before it.
    Label(Option<SpecBlock>, Vec<u8>, Box<Stmt>),
    /// `if (e) s`
    If(Expr, Box<Stmt>),
    /// `if (e) s else s`
    IfElse(Expr, Box<Stmt>, Box<Stmt>),
    /// `while (e) s`, with the JML before it.
    While(Option<SpecBlock>, Expr, Box<Stmt>),
    /// `for (..; e; e, ..) s`, with the JML before it.
    For(Option<SpecBlock>, ForStart, Option<Expr>, Vec<Expr>, Box<Stmt>),
    /// `break;` or `break l;`
    Break(Option<Identifier>),
    /// `continue;` or `continue l;`
    Continue(Option<Identifier>),
    /// `return;` or `return e;`
    Return(Option<Expr>),
    /// `throw e;`
    Throw(Expr),
    /// `try { s .. } catch (C x) { s .. } ..`
    Try(Vec<Stmt>, Vec<Handler>),
    /// The same with `finally { s .. }`.
    TryFinally(Vec<Stmt>, Vec<Handler>, Vec<Stmt>),
    /// `super(e, ..);`
    Super(Vec<Expr>),
}

/// A `catch` of a `try` (JLS 14.20).
#[cycle(java_stmt)]
#[derive(Drop)]
pub struct Handler {
    /// The offset of its first token.
    pub at: u32,
    /// The class of what it catches.
    pub class: Identifier,
    /// The name that is bound to it.
    pub name: Identifier,
    /// Its statements.
    pub body: Vec<Stmt>,
}

/// A field's declaration (JLS 8.3).
#[derive(Drop)]
pub struct FieldDecl {
    /// The offset of its first token; JML before it does not count.
    pub at: u32,
    /// The JML before it and at its modifiers, in order.
    pub specs: Vec<SpecBlock>,
    /// Its type.
    pub ty: WrittenType,
    /// The fields that are declared with this type.
    pub names: Vec<Identifier>,
}

/// A constant, `static final int K = n;` (JLS 8.3.2).
#[derive(Drop)]
pub struct ConstantDecl {
    /// The offset of its first token; JML before it does not count.
    pub at: u32,
    /// The JML before it and at its modifiers, in order.
    pub specs: Vec<SpecBlock>,
    /// Its name.
    pub name: Identifier,
    /// Its value, from -2147483648 to 2147483647.
    pub value: i128,
}

/// A parameter of a method or constructor (JLS 8.4.1).
#[derive(Drop)]
pub struct Parameter {
    /// The offset of its first token; JML before it does not count.
    pub at: u32,
    /// The JML before it and at its modifiers, in order.
    pub specs: Vec<SpecBlock>,
    /// Its type.
    pub ty: WrittenType,
    /// Its name.
    pub name: Identifier,
}

/// What a method gives (JLS 8.4.5).
#[derive(Drop)]
pub enum ResultType {
    /// `void`
    Void,
    /// A value of the type.
    Gives(WrittenType),
    /// It is a constructor (JLS 8.8).
    Constructor,
}

/// A method or a constructor (JLS 8.4, 8.8).
#[derive(Drop)]
pub struct MethodDecl {
    /// The offset of its first token; JML before it does not count.
    pub at: u32,
    /// The JML before it and at its modifiers, in order.
    pub specs: Vec<SpecBlock>,
    /// Whether it is static; a constructor is not.
    pub is_static: bool,
    /// What it gives.
    pub result: ResultType,
    /// Its name; a constructor's is its class's.
    pub name: Identifier,
    /// Its parameters.
    pub parameters: Vec<Parameter>,
    /// The statements of its body.
    pub body: Vec<Stmt>,
}

/// A member of a class.
#[derive(Drop)]
pub enum Member {
    /// Fields of one type.
    Field(FieldDecl),
    /// A constant.
    Constant(ConstantDecl),
    /// A method or a constructor.
    Method(MethodDecl),
}

/// A class (JLS 8.1).
#[derive(Drop)]
pub struct ClassDecl {
    /// The offset of its first token; JML before it does not count.
    pub at: u32,
    /// Its name.
    pub name: Identifier,
    /// The class behind `extends`.
    pub parent: Option<Identifier>,
    /// Its members in order.
    pub members: Vec<Member>,
    /// The JML before its closing brace.
    pub end: Option<SpecBlock>,
}

/// A file (JLS 7.3).
#[derive(Drop)]
pub struct Unit {
    /// Its classes in order.
    pub classes: Vec<ClassDecl>,
}
