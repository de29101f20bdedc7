//! What each production of Java's grammar makes of its parts, in the order of the productions, by section of the JLS.

ghost use Rattle.std.specs.Prelude.{◌≡◌, ◌≤◌, slice_index_or};
ghost use Rattle.jd_java_attributes.specs.Judging as plain;
ghost use Rattle.jd_java_attributes.specs.Rules.{row_of};
ghost use Rattle.jd_java_attributes.specs.declared.rows.TheConstants.{NO_ROW as MISSING};

use crate::form::Kind;

/// What a node of a production makes of its parts.
#[derive(Clone, Copy)]
pub enum Rule {
    /// They stand in order: lists, and what stands behind an operand.
    Parts,
    /// An expression: an operand, and what stands behind it.
    Expression,
    /// An operand of this kind without parts, and what stands behind it.
    Operand(Kind),
    /// An operand of this kind with the first parts in it, so many of them, and what stands behind it.
    Above(u8, Kind),
    /// An operand of the first part in parentheses, and what stands behind it.
    Parenthesized,
    /// `++` or `--` before an operand, which must be one that is assigned.
    Count,
    /// What is cast, behind a class in parentheses.
    CastOperand,
    /// Stands behind an operand and makes it one of this kind, with the first parts in it, so many of them.
    Suffix(u8, Kind),
    /// The same, behind what is assigned.
    TargetSuffix(u8),
    /// They stand in order, and the first must be one that may stand as a statement.
    EffectFirst,
    /// What stands behind a name must make it an expression that may stand as a statement.
    NameEffect,
    /// A statement with statements in it.
    Nested,
    /// A statement, and those behind it in its block.
    Statements,
    /// `static`
    Static,
    /// `final` before a member
    Final,
    /// Fields, where their first name ends.
    Fields,
    /// A constant, where its value begins.
    Constant,
    /// A constructor, where its parameters begin.
    Constructor,
    /// A member that begins with a name: a constructor's, or that of a class as a type.
    Declaration,
    /// A member.
    Member,
    /// A parameter.
    Parameter,
    /// A class.
    Class,
    /// A name.
    Identifier,
}

/// How many tokens and how many names a production's body has, and what its nodes make of their parts.
pub type Row = (u8, u8, Rule);

pub(crate) const ROWS: [Row; 225] = [
    // 7 Packages
    // 7.3
    (2, 3, Rule::Parts),
    (0, 1, Rule::Parts),
    // 6.5
    (1, 2, Rule::Parts),
    (0, 0, Rule::Parts),
    // 7.6
    (0, 2, Rule::Parts),
    (0, 0, Rule::Parts),
    // 8 Classes
    // 8.1
    (2, 4, Rule::Class),
    // 8.1.1
    (0, 2, Rule::Parts),
    (0, 0, Rule::Parts),
    // 8.1.1, 8.3.1, 8.4.3, 9.7.2
    (1, 0, Rule::Parts),
    (1, 0, Rule::Static),
    (1, 0, Rule::Final),
    (1, 1, Rule::Parts),
    // 8.1.4
    (1, 1, Rule::Parts),
    (0, 0, Rule::Parts),
    // 8.1.6, and JML before a member or the end
    (1, 0, Rule::Parts),
    (1, 1, Rule::Parts),
    (0, 2, Rule::Parts),
    (1, 0, Rule::Parts),
    (0, 2, Rule::Parts),
    // 8.2
    (0, 2, Rule::Member),
    // 8.3.1, 8.4.1, 8.4.3, and JML behind a modifier
    (0, 3, Rule::Parts),
    (0, 0, Rule::Parts),
    (1, 0, Rule::Parts),
    (0, 0, Rule::Parts),
    // 8.3, 8.4, 8.8
    (1, 2, Rule::Parts),
    (1, 2, Rule::Parts),
    (1, 1, Rule::Parts),
    (1, 1, Rule::Declaration),
    (2, 2, Rule::Parts),
    (0, 2, Rule::Parts),
    (1, 3, Rule::Constructor),
    (0, 2, Rule::Parts),
    // 8.3, 9.3
    (2, 1, Rule::Constant),
    (0, 1, Rule::Parts),
    (1, 0, Rule::Parts),
    (1, 1, Rule::Parts),
    (1, 0, Rule::Parts),
    (1, 0, Rule::Parts),
    (0, 1, Rule::Parts),
    (1, 1, Rule::Fields),
    (1, 2, Rule::Parts),
    (0, 0, Rule::Parts),
    // 8.4
    (1, 3, Rule::Parts),
    // 8.4.1
    (1, 0, Rule::Parts),
    (0, 2, Rule::Parts),
    (1, 2, Rule::Parts),
    (1, 0, Rule::Parts),
    (0, 4, Rule::Parameter),
    // 4.1
    (1, 1, Rule::Parts),
    (1, 0, Rule::Parts),
    (1, 0, Rule::Parts),
    // 10.1
    (2, 0, Rule::Parts),
    (0, 0, Rule::Parts),
    // 8.4.6
    (1, 2, Rule::Parts),
    (0, 0, Rule::Parts),
    // 8.8.7
    (1, 1, Rule::Parts),
    (3, 2, Rule::Statements),
    (0, 1, Rule::Parts),
    // 14 Blocks and statements
    // 14.2
    (1, 1, Rule::Parts),
    (1, 0, Rule::Parts),
    (0, 2, Rule::Statements),
    // 14.4
    (2, 4, Rule::Parts),
    (2, 4, Rule::Parts),
    (2, 3, Rule::Parts),
    (1, 1, Rule::Operand(Kind::Name)),
    (0, 1, Rule::Parts),
    (1, 1, Rule::Nested),
    (1, 1, Rule::Parts),
    (1, 1, Rule::Parts),
    (0, 3, Rule::Parts),
    (1, 1, Rule::Parts),
    (0, 0, Rule::Parts),
    (1, 3, Rule::Parts),
    (0, 0, Rule::Parts),
    // 14.5, 14.7, 14.8
    (1, 1, Rule::Operand(Kind::Name)),
    (0, 1, Rule::Parts),
    (1, 1, Rule::Nested),
    (1, 1, Rule::Parts),
    // 14.5
    (0, 1, Rule::Parts),
    (1, 0, Rule::Parts),
    (1, 1, Rule::EffectFirst),
    (3, 3, Rule::Nested),
    (0, 1, Rule::Parts),
    (1, 1, Rule::Parts),
    (2, 1, Rule::Parts),
    (2, 1, Rule::Parts),
    (1, 1, Rule::Parts),
    (2, 1, Rule::Parts),
    (1, 2, Rule::Nested),
    // 14.9, of the nearest if
    (1, 1, Rule::Parts),
    (0, 0, Rule::Parts),
    // 14.12, 14.14
    (3, 2, Rule::Nested),
    (2, 4, Rule::Nested),
    // 14.7, and JML before a loop or its label
    (0, 1, Rule::Parts),
    (2, 1, Rule::Nested),
    (1, 1, Rule::Parts),
    (0, 1, Rule::Parts),
    // 14.14.1
    (1, 0, Rule::Parts),
    (2, 4, Rule::Parts),
    (2, 3, Rule::Parts),
    (1, 1, Rule::Operand(Kind::Name)),
    (1, 2, Rule::EffectFirst),
    (1, 1, Rule::Parts),
    (1, 2, Rule::Parts),
    (1, 0, Rule::Parts),
    (1, 1, Rule::Parts),
    (1, 0, Rule::Parts),
    (1, 2, Rule::Parts),
    (1, 2, Rule::Parts),
    (0, 0, Rule::Parts),
    // 14.15, 14.16
    (0, 1, Rule::Parts),
    (0, 0, Rule::Parts),
    // 14.17
    (1, 0, Rule::Parts),
    (1, 1, Rule::Parts),
    // 14.20
    (0, 3, Rule::Parts),
    (1, 1, Rule::Parts),
    (0, 2, Rule::Parts),
    (0, 0, Rule::Parts),
    (3, 4, Rule::Parts),
    (1, 0, Rule::Parts),
    (0, 0, Rule::Parts),
    (1, 1, Rule::Parts),
    (0, 0, Rule::Parts),
    // 14.8
    (1, 1, Rule::Operand(Kind::Name)),
    (0, 1, Rule::EffectFirst),
    (0, 3, Rule::NameEffect),
    (1, 1, Rule::Count),
    (1, 1, Rule::Count),
    (0, 3, Rule::Expression),
    (1, 2, Rule::Operand(Kind::Target)),
    (2, 3, Rule::Parenthesized),
    (1, 1, Rule::Expression),
    (1, 4, Rule::Above(2, Kind::Effect)),
    (3, 3, Rule::Above(1, Kind::Other)),
    (1, 0, Rule::TargetSuffix(0)),
    (1, 0, Rule::TargetSuffix(0)),
    (1, 1, Rule::TargetSuffix(1)),
    (1, 1, Rule::TargetSuffix(1)),
    (1, 1, Rule::TargetSuffix(1)),
    (1, 1, Rule::TargetSuffix(1)),
    (1, 1, Rule::TargetSuffix(1)),
    (1, 1, Rule::TargetSuffix(1)),
    (0, 0, Rule::Parts),
    // 15 Expressions
    // 15.26
    (0, 2, Rule::Expression),
    (1, 1, Rule::TargetSuffix(1)),
    (1, 1, Rule::TargetSuffix(1)),
    (1, 1, Rule::TargetSuffix(1)),
    (1, 1, Rule::TargetSuffix(1)),
    (1, 1, Rule::TargetSuffix(1)),
    (1, 1, Rule::TargetSuffix(1)),
    (0, 0, Rule::Parts),
    // 15.25
    (0, 2, Rule::Expression),
    (2, 2, Rule::Suffix(2, Kind::Other)),
    (0, 0, Rule::Parts),
    // 15.24
    (0, 2, Rule::Expression),
    (1, 2, Rule::Suffix(1, Kind::Other)),
    (0, 0, Rule::Parts),
    // 15.23
    (0, 2, Rule::Expression),
    (1, 2, Rule::Suffix(1, Kind::Other)),
    (0, 0, Rule::Parts),
    // 15.21
    (0, 2, Rule::Expression),
    (1, 2, Rule::Suffix(1, Kind::Other)),
    (1, 2, Rule::Suffix(1, Kind::Other)),
    (0, 0, Rule::Parts),
    // 15.20
    (0, 2, Rule::Expression),
    (1, 2, Rule::Suffix(1, Kind::Other)),
    (1, 2, Rule::Suffix(1, Kind::Other)),
    (1, 2, Rule::Suffix(1, Kind::Other)),
    (1, 2, Rule::Suffix(1, Kind::Other)),
    (1, 2, Rule::Suffix(1, Kind::Other)),
    (0, 0, Rule::Parts),
    // 4.3
    (1, 0, Rule::Parts),
    (3, 0, Rule::Parts),
    // 15.18
    (0, 2, Rule::Expression),
    (1, 2, Rule::Suffix(1, Kind::Other)),
    (1, 2, Rule::Suffix(1, Kind::Other)),
    (0, 0, Rule::Parts),
    // 15.17
    (0, 2, Rule::Expression),
    (1, 2, Rule::Suffix(1, Kind::Other)),
    (1, 2, Rule::Suffix(1, Kind::Other)),
    (1, 2, Rule::Suffix(1, Kind::Other)),
    (0, 0, Rule::Parts),
    // 15.15
    (1, 1, Rule::Above(1, Kind::Other)),
    (1, 1, Rule::Above(1, Kind::Other)),
    (1, 1, Rule::Count),
    (1, 1, Rule::Count),
    (0, 1, Rule::Parts),
    // 3.10.1
    (1, 0, Rule::Operand(Kind::Other)),
    (0, 1, Rule::Parts),
    // 15.15.6, 15.16, 15.14
    (1, 1, Rule::Above(1, Kind::Other)),
    (1, 1, Rule::Expression),
    (1, 3, Rule::Operand(Kind::Name)),
    (0, 3, Rule::Expression),
    (1, 2, Rule::Operand(Kind::Target)),
    (1, 1, Rule::Expression),
    // 15.8.5, 15.16
    (1, 1, Rule::Above(1, Kind::Other)),
    (2, 1, Rule::Above(1, Kind::Other)),
    (1, 2, Rule::Parenthesized),
    (1, 1, Rule::Parts),
    (3, 1, Rule::Parts),
    (0, 1, Rule::CastOperand),
    (0, 2, Rule::Parts),
    // 15.8.1
    (1, 0, Rule::Operand(Kind::Other)),
    (1, 0, Rule::Operand(Kind::Other)),
    (1, 0, Rule::Operand(Kind::Other)),
    (1, 0, Rule::Operand(Kind::Other)),
    // 15.9, 15.10
    (1, 4, Rule::Above(2, Kind::Effect)),
    (3, 2, Rule::Above(1, Kind::Other)),
    (0, 2, Rule::Parts),
    (0, 0, Rule::Parts),
    (1, 3, Rule::Suffix(1, Kind::Target)),
    // 15.12
    (1, 1, Rule::Above(1, Kind::Effect)),
    (0, 0, Rule::Parts),
    (1, 0, Rule::Parts),
    (0, 2, Rule::Parts),
    (1, 2, Rule::Parts),
    (1, 0, Rule::Parts),
    // 15.11, 15.13
    (1, 3, Rule::Suffix(1, Kind::Target)),
    (2, 2, Rule::Suffix(1, Kind::Target)),
    (0, 0, Rule::Parts),
    // 15.14.2, 15.14.3
    (1, 0, Rule::TargetSuffix(0)),
    (1, 0, Rule::TargetSuffix(0)),
    (0, 0, Rule::Parts),
    // 3.8
    (1, 0, Rule::Identifier),
];

const NO_ROW: Row = (0, 0, Rule::Parts);

fn row_in(rows: &[Row], production: u16) -> Row
    ensures { result ≡ slice_index_or rows.now production MISSING }
{
    match rows.get(production as usize) {
        Some(row) => *row,
        None => NO_ROW,
    }
}

/// The row of the production of this number.
pub(crate) fn row(production: u16) -> Row
    ensures { result ≡ row_of production }
{
    row_in(&ROWS, production)
}

/// How many names the body of the production of this number has.
pub fn names_of(production: u16) -> u8
    ensures is { result ≡ plain.names_of production }
    ensures few { result ≤ 4 }
{
    row(production).1
}
