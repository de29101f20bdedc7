ghost use Rattle.jd_java_values.specs.declared.values.Value.TheVariants as values;

use jd_grammar::Blank;
use jd_syntax::{
    AssignmentOperator, ClassDecl, CountOperator, Declarator, Expr, ForStart, Handler, Identifier,
    InfixOperator, Member, Parameter, ResultType, SpecBlock, Stmt, WrittenType,
};

/// What stands behind an operand (JLS 15.11 to 15.26).
#[derive(Drop)]
pub enum Suffix {
    /// `+ e`
    Infix(InfixOperator, Expr),
    /// `instanceof T`
    InstanceOf(WrittenType),
    /// `= e`
    Assign(AssignmentOperator, Expr),
    /// `? e : e`
    Choice(Expr, Expr),
    /// `.x`
    Member(Identifier),
    /// `.m(e, ..)`
    Method(Identifier, Vec<Expr>),
    /// `[e]`
    Element(Expr),
    /// `++`
    Count(CountOperator),
}

/// An operand, but for the place where it begins (JLS 15.8.5, 15.9, 15.10, 15.16).
#[derive(Drop)]
pub enum Start {
    /// `(e)`
    Inside(Expr),
    /// `(T) e`
    Cast(WrittenType, Expr),
    /// `new C(e, ..)`
    Object(Identifier, Vec<Expr>),
    /// `new int[e]`
    Array(Expr),
}

/// What stands behind the name of a member (JLS 8.3, 8.4).
#[derive(Drop)]
pub enum Declared {
    /// `, x, ..;`
    FieldNames(Vec<Identifier>),
    /// `(T x, ..) { s .. }`
    Routine(Vec<Parameter>, Vec<Stmt>),
    /// `= n;`
    Constant(i128),
}

/// What a node stands for. Of a list that a variant has alone the last part comes first.
#[derive(Drop)]
pub enum Value {
    /// Nothing that a tree has.
    Nothing,
    /// An expression.
    Expression(Expr),
    /// Nothing behind an operand.
    NoSuffixes,
    /// What stands behind an operand.
    Suffixes(Vec<Suffix>),
    /// An operand whose first token stands before the node, and what stands behind it, the last part first.
    Started(Start, Vec<Suffix>),
    /// What is cast to `int[]`, behind `int`.
    ArrayOperand(Expr),
    /// Expressions: arguments, or what a `for` evaluates.
    Expressions(Vec<Expr>),
    /// Behind a name: arguments, if it is called; what stands behind that, and further expressions, the last part first.
    BehindName(Option<Vec<Expr>>, Vec<Suffix>, Vec<Expr>),
    /// A name.
    Named(Identifier),
    /// A type.
    Typed(WrittenType),
    /// `[]`
    Dimension,
    /// A statement.
    Statement(Box<Stmt>),
    /// Statements.
    Statements(Vec<Stmt>),
    /// Local variables.
    Variables(Vec<Declarator>),
    /// What stands before the first `;` of a `for`.
    LoopStart(ForStart),
    /// What a `try` catches.
    Handlers(Vec<Handler>),
    /// What a `try` catches, and the statements behind `finally`, in order.
    Rescue(Vec<Handler>, Option<Vec<Stmt>>),
    /// Modifiers: whether `static` is among them, and the JML at them, the last part first.
    Modifiers(bool, Vec<SpecBlock>),
    /// A literal.
    Number(u32),
    /// Names.
    Names(Vec<Identifier>),
    /// Parameters.
    Parameters(Vec<Parameter>),
    /// What stands behind a member's name.
    Declared(Declared),
    /// Whether `[]` stands before a member's name, the name, and what stands behind it.
    Declarator(bool, Identifier, Declared),
    /// What a member gives, its name, and what stands behind it.
    Declaration(ResultType, Identifier, Declared),
    /// Members, the last first, and the JML before the closing brace.
    Body(Vec<Member>, Option<SpecBlock>),
    /// Classes.
    Classes(Vec<ClassDecl>),
}

impl Blank for Value {
    ghost nothing = { values.NoSuffixes };

    fn nothing() -> Value {
        Value::NoSuffixes
    }
}
