ghost use Rattle.jd_jml_values.specs.declared.values.Value.TheVariants as values;

use jd_grammar::Blank;
use jd_syntax::{
    Identifier, InfixOperator, LocExpr, Quantifier, SpecClause, SpecExpr, SpecType, WrittenType,
};

/// What stands behind an operand (JLS 15.11 to 15.25; JML Reference Manual, 12.6).
#[derive(Drop)]
pub enum Suffix {
    /// `+ e`
    Infix(InfixOperator, Box<SpecExpr>),
    /// `instanceof T`
    InstanceOf(WrittenType),
    /// `? e : e`
    Choice(Box<SpecExpr>, Box<SpecExpr>),
    /// `==> e`
    Implies(Box<SpecExpr>),
    /// `<==> e`
    Equivalent(Box<SpecExpr>),
    /// `.x`
    Member(Identifier),
    /// `.m(e, ..)`
    Method(Identifier, Vec<SpecExpr>),
    /// `[e]`
    Element(Box<SpecExpr>),
}

/// An operand behind `(` (JLS 15.8.5, 15.16; JML Reference Manual, 12.4.24).
#[derive(Drop)]
pub enum Start {
    /// `e)`
    Inside(Box<SpecExpr>),
    /// `T) e`
    Cast(WrittenType, Box<SpecExpr>),
    /// `\forall T x; e)`
    Quantified(Quantifier, SpecType, Identifier, Box<SpecExpr>),
    /// `\forall T x; e; e)`
    QuantifiedIn(Quantifier, SpecType, Identifier, Box<SpecExpr>, Box<SpecExpr>),
    /// `\sum int x; e <= x && x < e; e)`
    Sum(Identifier, Box<SpecExpr>, Box<SpecExpr>, Box<SpecExpr>),
}

/// The last part of a location (JML Reference Manual, 12.7).
#[derive(Drop)]
pub enum End {
    /// `.x`
    Field(Identifier),
    /// `.*`
    AllFields,
    /// `[e]`
    Element(Box<SpecExpr>),
    /// `[e..e]`
    Range(Box<SpecExpr>, Box<SpecExpr>),
    /// `[*]`
    AllElements,
}

/// What a node stands for. Of a list the last part comes first, but for the arguments in a suffix.
#[derive(Drop)]
pub enum Value {
    /// Nothing that a tree has.
    Nothing,
    /// An expression.
    Expression(Box<SpecExpr>),
    /// Nothing behind an operand.
    NoSuffixes,
    /// What stands behind an operand.
    Suffixes(Vec<Suffix>),
    /// An operand whose `(` stands before the node, and what stands behind it.
    Started(Start, Vec<Suffix>),
    /// What is cast to `int[]`, behind `int`.
    ArrayOperand(Box<SpecExpr>),
    /// Arguments.
    Expressions(Vec<SpecExpr>),
    /// A name.
    Named(Identifier),
    /// A type.
    Typed(WrittenType),
    /// `[]`
    Dimension,
    /// `\bigint`
    BigInteger,
    /// Behind the operand of a location: members and elements, and the last one apart.
    Steps(Vec<Suffix>, End),
    /// The same behind the arguments of a call.
    Invoked(Vec<SpecExpr>, Vec<Suffix>, End),
    /// Behind an index and `..`: the greatest one.
    Bound(Box<SpecExpr>),
    /// Locations.
    Locations(Vec<LocExpr>),
    /// Clauses and words.
    Clauses(Vec<SpecClause>),
    /// Names.
    Names(Vec<Identifier>),
}

impl Blank for Value {
    ghost nothing = { values.NoSuffixes };

    fn nothing() -> Value {
        Value::NoSuffixes
    }
}
