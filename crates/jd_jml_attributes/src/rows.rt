//! What each production of the grammar of JML makes of its parts, in the order of the productions.

ghost use Rattle.std.specs.Prelude.{◌≡◌, ◌≤◌, slice_index_or};
ghost use Rattle.jd_jml_attributes.specs.Judging as plain;
ghost use Rattle.jd_jml_attributes.specs.Rules.{row_of};
ghost use Rattle.jd_jml_attributes.specs.declared.rows.TheConstants.{NO_ROW as MISSING};

use crate::form::Link;

/// What a node of a production makes of its parts.
#[derive(Clone, Copy)]
pub enum Rule {
    /// They stand in order: lists, and what stands behind an operand.
    Parts,
    /// An expression or a location: an operand, and what stands behind it.
    Expression,
    /// An operand without parts, or the end of a location.
    Operand,
    /// A name.
    Identifier,
    /// An operand with the parts in it.
    Above,
    /// An operand of the first part in parentheses, and what stands behind it.
    Parenthesized,
    /// What is cast, behind a class in parentheses.
    CastOperand,
    /// Stands behind an operand, with the first parts in it, so many of them.
    Suffix(u8, Link),
    /// A sum: its variable, its range and its summand.
    Sum,
    /// A member or an index of a location, and what stands behind it.
    Step,
    /// The last part of a location.
    Last,
}

/// How many names a production's body has, and what its nodes make of their parts.
pub type Row = (u8, Rule);

pub(crate) const ROWS: [Row; 187] = [
    // Clauses and words at their places (JML Reference Manual, 6.2, 8, 9, 13.2)
    // Before a method: invariants, then one contract at most, with words before or behind it
    (2, Rule::Parts),
    (1, Rule::Parts),
    (1, Rule::Parts),
    (2, Rule::Parts),
    (0, Rule::Parts),
    (2, Rule::Parts),
    (3, Rule::Parts),
    (2, Rule::Parts),
    (1, Rule::Parts),
    (3, Rule::Parts),
    (0, Rule::Parts),
    // Before a field
    (2, Rule::Parts),
    (2, Rule::Parts),
    (1, Rule::Parts),
    // At modifiers
    (1, Rule::Parts),
    // Before a loop
    (2, Rule::Parts),
    (0, Rule::Parts),
    // Before the brace that closes a class
    (2, Rule::Parts),
    (2, Rule::Parts),
    (0, Rule::Parts),
    // 6.2, words
    (2, Rule::Parts),
    (0, Rule::Parts),
    (0, Rule::Parts),
    (0, Rule::Parts),
    (0, Rule::Parts),
    (0, Rule::Parts),
    (0, Rule::Parts),
    (0, Rule::Parts),
    // 9.2 to 9.6, contracts and their cases
    (3, Rule::Parts),
    (3, Rule::Parts),
    (1, Rule::Parts),
    (1, Rule::Parts),
    (1, Rule::Parts),
    (2, Rule::Parts),
    (1, Rule::Parts),
    (1, Rule::Parts),
    (1, Rule::Parts),
    (2, Rule::Parts),
    (0, Rule::Parts),
    (2, Rule::Parts),
    (0, Rule::Parts),
    // 9.9, clauses of a case
    (1, Rule::Parts),
    (1, Rule::Parts),
    (3, Rule::Parts),
    (1, Rule::Parts),
    (1, Rule::Parts),
    (1, Rule::Parts),
    (1, Rule::Parts),
    (1, Rule::Parts),
    (0, Rule::Parts),
    (0, Rule::Parts),
    (2, Rule::Parts),
    (2, Rule::Parts),
    (0, Rule::Parts),
    (0, Rule::Parts),
    (0, Rule::Parts),
    // 13.2, clauses of a loop
    (1, Rule::Parts),
    (1, Rule::Parts),
    (1, Rule::Parts),
    // 8.2, invariants of a class
    (1, Rule::Parts),
    // Sets of locations (JML Reference Manual, 12.7)
    (0, Rule::Parts),
    (0, Rule::Parts),
    (2, Rule::Parts),
    (2, Rule::Parts),
    (0, Rule::Parts),
    (2, Rule::Expression),
    (2, Rule::Expression),
    (2, Rule::Expression),
    (1, Rule::Parts),
    (1, Rule::Above),
    (0, Rule::Parts),
    (2, Rule::Parts),
    (1, Rule::Parts),
    (1, Rule::Parts),
    (1, Rule::Parts),
    (0, Rule::Operand),
    (2, Rule::Step),
    (0, Rule::Operand),
    (2, Rule::Step),
    (1, Rule::Parts),
    (1, Rule::Last),
    (0, Rule::Parts),
    (1, Rule::Parts),
    // Expressions (JML Reference Manual, 12; JLS SE 8, 15)
    // JLS 15.25
    (2, Rule::Expression),
    (2, Rule::Suffix(2, Link::Other)),
    (0, Rule::Parts),
    // 12.6.2, 12.6.3
    (2, Rule::Expression),
    (2, Rule::Suffix(1, Link::Other)),
    (0, Rule::Parts),
    (2, Rule::Expression),
    (1, Rule::Suffix(1, Link::Other)),
    (0, Rule::Parts),
    // JLS 15.24
    (2, Rule::Expression),
    (2, Rule::Suffix(1, Link::Other)),
    (0, Rule::Parts),
    // JLS 15.23
    (2, Rule::Expression),
    (2, Rule::Suffix(1, Link::And)),
    (0, Rule::Parts),
    // JLS 15.21
    (2, Rule::Expression),
    (2, Rule::Suffix(1, Link::Other)),
    (2, Rule::Suffix(1, Link::Other)),
    (0, Rule::Parts),
    // JLS 15.20
    (2, Rule::Expression),
    (2, Rule::Suffix(1, Link::Less)),
    (2, Rule::Suffix(1, Link::AtMost)),
    (2, Rule::Suffix(1, Link::Other)),
    (2, Rule::Suffix(1, Link::Other)),
    (2, Rule::Suffix(1, Link::Other)),
    (0, Rule::Parts),
    // JLS 4.3
    (1, Rule::Parts),
    (0, Rule::Parts),
    // JLS 15.18
    (2, Rule::Expression),
    (2, Rule::Suffix(1, Link::Other)),
    (2, Rule::Suffix(1, Link::Other)),
    (0, Rule::Parts),
    // JLS 15.17
    (2, Rule::Expression),
    (2, Rule::Suffix(1, Link::Other)),
    (2, Rule::Suffix(1, Link::Other)),
    (2, Rule::Suffix(1, Link::Other)),
    (0, Rule::Parts),
    // JLS 15.15
    (1, Rule::Above),
    (1, Rule::Above),
    (1, Rule::Parts),
    // JLS 15.15.6, 15.16, 15.11 to 15.13
    (1, Rule::Above),
    (1, Rule::Expression),
    (3, Rule::Expression),
    (2, Rule::Expression),
    // JLS 15.8; 12.4.1, 12.4.2, 12.4.4, 12.4.15
    (0, Rule::Operand),
    (0, Rule::Operand),
    (0, Rule::Operand),
    (0, Rule::Operand),
    (0, Rule::Operand),
    (0, Rule::Operand),
    (1, Rule::Above),
    (1, Rule::Above),
    (1, Rule::Above),
    // JLS 15.8.5, 15.16
    (1, Rule::Above),
    (1, Rule::Above),
    (2, Rule::Expression),
    (2, Rule::Parenthesized),
    (1, Rule::Parts),
    (1, Rule::Parts),
    (1, Rule::CastOperand),
    (1, Rule::Parts),
    // 12.4.24
    (4, Rule::Above),
    (4, Rule::Above),
    (3, Rule::Sum),
    (1, Rule::Parts),
    (0, Rule::Parts),
    // JLS 4.1; 7.1
    (1, Rule::Parts),
    (0, Rule::Parts),
    (1, Rule::Parts),
    (0, Rule::Parts),
    (1, Rule::Parts),
    (0, Rule::Parts),
    (0, Rule::Parts),
    // JLS 15.12
    (1, Rule::Parts),
    (0, Rule::Parts),
    (1, Rule::Above),
    (0, Rule::Parts),
    (2, Rule::Parts),
    (2, Rule::Parts),
    (0, Rule::Parts),
    // JLS 15.11, 15.13
    (3, Rule::Suffix(1, Link::Other)),
    (2, Rule::Suffix(1, Link::Other)),
    (0, Rule::Parts),
    // JLS 3.8; 4.6: the words of clauses are identifiers where one stands
    (0, Rule::Identifier),
    (0, Rule::Identifier),
    (0, Rule::Identifier),
    (0, Rule::Identifier),
    (0, Rule::Identifier),
    (0, Rule::Identifier),
    (0, Rule::Identifier),
    (0, Rule::Identifier),
    (0, Rule::Identifier),
    (0, Rule::Identifier),
    (0, Rule::Identifier),
    (0, Rule::Identifier),
    (0, Rule::Identifier),
    (0, Rule::Identifier),
    (0, Rule::Identifier),
    (0, Rule::Identifier),
    (0, Rule::Identifier),
    (0, Rule::Identifier),
    (0, Rule::Identifier),
    (0, Rule::Identifier),
    (0, Rule::Identifier),
];

const NO_ROW: Row = (0, Rule::Parts);

fn row_in(rows: &[Row], production: u16) -> Row
    ensures { result ≡ slice_index_or rows.now production MISSING }
{
    match rows.get(production as usize) {
        Some(row) => *row,
        None => NO_ROW,
    }
}

/// The row of the production of this number.
pub(crate) fn row(production: u16) -> Row
    ensures { result ≡ row_of production }
{
    row_in(&ROWS, production)
}

/// How many names the body of the production of this number has.
pub fn names_of(production: u16) -> u8
    ensures is { result ≡ plain.names_of production }
    ensures few { result ≤ 4 }
{
    row(production).0
}
