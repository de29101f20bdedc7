use crate::java::{Identifier, InfixOperator, WrittenType};
use jd_base::MethodId;

/// A place where JML stands.
#[derive(Clone, Copy, PartialEq, Eq)]
pub enum SpecPlace {
    /// Before a field.
    Field,
    /// Before a method or a constructor.
    Method,
    /// Before a parameter, between the modifiers of a member or parameter, and directly behind the
    /// last of them.
    Modifier,
    /// Before a loop or its label.
    Loop,
    /// Before the closing brace of a class.
    ClassEnd,
}

/// A type of JML: of Java, or `\bigint`, the integers (JML Reference Manual, 7.1).
#[derive(Drop)]
pub enum SpecType {
    /// `\bigint`
    BigInt,
    /// A type of Java, and where it stands.
    Java(WrittenType),
}

/// An operator before an operand in JML.
#[derive(Clone, Copy, PartialEq, Eq)]
pub enum SpecPrefix {
    /// `+`
    Plus,
    /// `-`
    Minus,
    /// `!`
    Not,
}

/// `\forall` or `\exists` (JML Reference Manual, 12.4.24).
#[derive(Clone, Copy, PartialEq, Eq)]
pub enum Quantifier {
    /// `\forall`
    ForAll,
    /// `\exists`
    Exists,
}

/// An expression of JML (JML Reference Manual, 12).
#[cycle(spec_expr)]
#[derive(Drop)]
pub struct SpecExpr {
    /// The offset of its first token.
    pub at: u32,
    /// Its form and its parts.
    pub form: SpecForm,
}

/// The forms of JML's expressions.
#[cycle(spec_expr)]
#[derive(Drop)]
pub enum SpecForm {
    /// A literal from 0 to 2^127 - 1.
    Integer(i128),
    /// `true` or `false`
    Boolean(bool),
    /// `null`
    Null,
    /// `this`
    This,
    /// `\result`
    Result,
    /// `x`
    Name(Vec<u8>),
    /// `e.x`
    Field(Box<SpecExpr>, Identifier),
    /// `(e)`
    Parenthesized(Box<SpecExpr>),
    /// `m(e, ..)`
    Call(Vec<u8>, Vec<SpecExpr>),
    /// `e.m(e, ..)`
    MethodCall(Box<SpecExpr>, Identifier, Vec<SpecExpr>),
    /// `a[i]`
    Index(Box<SpecExpr>, Box<SpecExpr>),
    /// `-e`
    Prefix(SpecPrefix, Box<SpecExpr>),
    /// `(T) e`
    Cast(WrittenType, Box<SpecExpr>),
    /// `e + e`
    Infix(InfixOperator, Box<SpecExpr>, Box<SpecExpr>),
    /// `e instanceof T`
    InstanceOf(Box<SpecExpr>, WrittenType),
    /// `e ? e : e`
    Conditional(Box<SpecExpr>, Box<SpecExpr>, Box<SpecExpr>),
    /// `e ==> e`
    Implies(Box<SpecExpr>, Box<SpecExpr>),
    /// `e <==> e`
    Equivalent(Box<SpecExpr>, Box<SpecExpr>),
    /// `\old(e)`
    Old(Box<SpecExpr>),
    /// `\fresh(e)`
    Fresh(Box<SpecExpr>),
    /// `\invariant_for(e)`
    InvariantFor(Box<SpecExpr>),
    /// `(\forall T x; e)`
    Quantified(Quantifier, SpecType, Identifier, Box<SpecExpr>),
    /// `(\forall T x; e; e)`: the range, and what holds there.
    QuantifiedIn(Quantifier, SpecType, Identifier, Box<SpecExpr>, Box<SpecExpr>),
    /// `(\sum int i; e <= i && i < e; e)`: the least index, the one behind the greatest, the summand.
    Sum(Identifier, Box<SpecExpr>, Box<SpecExpr>, Box<SpecExpr>),
}

/// A set of locations (JML Reference Manual, 12.7), and where it stands.
#[derive(Drop)]
pub struct LocExpr {
    /// The offset of its first token.
    pub at: u32,
    /// Its form and its parts.
    pub form: LocForm,
}

/// The forms of sets of locations.
#[derive(Drop)]
pub enum LocForm {
    /// `\nothing`
    Nothing,
    /// `\everything`
    Everything,
    /// `f`, a field of `this`.
    Own(Vec<u8>),
    /// `e.f`
    Field(SpecExpr, Identifier),
    /// `e.*`
    AllFields(SpecExpr),
    /// `a[i]`
    Element(SpecExpr, SpecExpr),
    /// `a[i..j]`, both ends among them.
    Range(SpecExpr, SpecExpr, SpecExpr),
    /// `a[*]`
    AllElements(SpecExpr),
}

/// A clause or a word of JML, and where it stands.
#[derive(Drop)]
pub struct SpecClause {
    /// The offset of its first token.
    pub at: u32,
    /// Its form and its parts.
    pub form: ClauseForm,
}

/// The clauses and words of JML (JML Reference Manual, 6.2, 8, 9, 13.2).
#[derive(Drop)]
pub enum ClauseForm {
    /// `requires e;`
    Requires(SpecExpr),
    /// `ensures e;`
    Ensures(SpecExpr),
    /// `signals (C x) e;`
    Signals(Identifier, Option<Identifier>, SpecExpr),
    /// `signals_only C, ..;`; with no class `signals_only \nothing;`
    SignalsOnly(Vec<Identifier>),
    /// `assignable l, ..;`
    Assignable(Vec<LocExpr>),
    /// `measured_by e;`
    MeasuredBy(SpecExpr),
    /// `diverges true;` or `diverges false;`
    Diverges(bool),
    /// `loop_invariant e;`
    LoopInvariant(SpecExpr),
    /// `decreases e;`
    Decreases(SpecExpr),
    /// `invariant e;`
    Invariant(SpecExpr),
    /// `normal_behavior`
    NormalBehavior,
    /// `exceptional_behavior`
    ExceptionalBehavior,
    /// `behavior`
    Behavior,
    /// `also`
    Also,
    /// `pure`
    Pure,
    /// `helper`
    Helper,
    /// `nullable`
    Nullable,
    /// `non_null`, which says nothing new.
    NonNull,
    /// `spec_public`, which says nothing here.
    SpecPublic,
    /// `spec_protected`, which says nothing here.
    SpecProtected,
}

/// The JML at one place of a file.
#[derive(Drop)]
pub struct SpecBlock {
    /// Which place it is.
    pub place: SpecPlace,
    /// The number of its first token among the file's.
    pub from: u32,
    /// The number of the token behind its last.
    pub to: u32,
    /// Its clauses, once they are read.
    pub clauses: Vec<SpecClause>,
}

/// What the words of a method's declaration say of it and its parameters.
#[derive(Drop)]
pub struct Marks {
    /// `pure`: it assigns nothing.
    pub is_pure: bool,
    /// `helper`: it neither asks for invariants nor gives them.
    pub is_helper: bool,
    /// Whether it may give `null`.
    pub nullable_result: bool,
    /// Which of its parameters may be `null`.
    pub nullable_params: Vec<bool>,
}

/// One case of a contract.
#[derive(Drop)]
pub struct SpecCase {
    /// The method at whose declaration the case is written.
    pub declared: MethodId,
    /// That declaration's marks.
    pub marks: Marks,
    /// Its clauses.
    pub clauses: Vec<SpecClause>,
}
