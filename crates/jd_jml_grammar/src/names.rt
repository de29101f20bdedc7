//! The names of the grammar of JML.

/// See specs/Productions.
pub const METHOD_SPECS: u8 = 0;

/// See specs/Productions.
pub const FIELD_SPECS: u8 = 1;

/// See specs/Productions.
pub const MODIFIER_SPECS: u8 = 2;

/// See specs/Productions.
pub const LOOP_SPECS: u8 = 3;

/// See specs/Productions.
pub const CLASS_END_SPECS: u8 = 4;

/// See specs/Productions.
pub const INVARIANT_CLAUSE: u8 = 5;

/// See specs/Productions.
pub const METHOD_SPECS_BEHIND_VISIBILITY: u8 = 6;

/// See specs/Productions.
pub const CONTRACT: u8 = 7;

/// See specs/Productions.
pub const MODIFIER_WORD: u8 = 8;

/// See specs/Productions.
pub const METHOD_SPECS_BEHIND_WORD: u8 = 9;

/// See specs/Productions.
pub const BEHAVIOR_CASE: u8 = 10;

/// See specs/Productions.
pub const MORE_CASES: u8 = 11;

/// See specs/Productions.
pub const MODIFIER_WORDS: u8 = 12;

/// See specs/Productions.
pub const LOOP_CLAUSE: u8 = 13;

/// See specs/Productions.
pub const SPEC_CASE: u8 = 14;

/// See specs/Productions.
pub const BARE_CASE: u8 = 15;

/// See specs/Productions.
pub const CLAUSE: u8 = 16;

/// See specs/Productions.
pub const CLAUSES: u8 = 17;

/// See specs/Productions.
pub const EXPRESSION: u8 = 18;

/// See specs/Productions.
pub const IDENTIFIER: u8 = 19;

/// See specs/Productions.
pub const EXCEPTION_NAME: u8 = 20;

/// See specs/Productions.
pub const EXCEPTIONS: u8 = 21;

/// See specs/Productions.
pub const LOCATIONS: u8 = 22;

/// See specs/Productions.
pub const TRUTH: u8 = 23;

/// See specs/Productions.
pub const MORE_EXCEPTIONS: u8 = 24;

/// See specs/Productions.
pub const LOCATION: u8 = 25;

/// See specs/Productions.
pub const MORE_LOCATIONS: u8 = 26;

/// See specs/Productions.
pub const BEHIND_LOCATION_NAME: u8 = 27;

/// See specs/Productions.
pub const ATOM: u8 = 28;

/// See specs/Productions.
pub const LOCATION_STEP: u8 = 29;

/// See specs/Productions.
pub const LOCATION_PARENTHESIS: u8 = 30;

/// See specs/Productions.
pub const QUANTIFIED: u8 = 31;

/// See specs/Productions.
pub const INVOCATION: u8 = 32;

/// See specs/Productions.
pub const LOCATION_MEMBER: u8 = 33;

/// See specs/Productions.
pub const LOCATION_INDEX: u8 = 34;

/// See specs/Productions.
pub const BEHIND_LOCATION_INDEX: u8 = 35;

/// See specs/Productions.
pub const BEHIND_LOCATION_ELEMENT: u8 = 36;

/// See specs/Productions.
pub const EQUIVALENCE: u8 = 37;

/// See specs/Productions.
pub const CONDITIONAL_TAIL: u8 = 38;

/// See specs/Productions.
pub const IMPLICATION: u8 = 39;

/// See specs/Productions.
pub const EQUIVALENCE_TAIL: u8 = 40;

/// See specs/Productions.
pub const OR: u8 = 41;

/// See specs/Productions.
pub const IMPLICATION_TAIL: u8 = 42;

/// See specs/Productions.
pub const AND: u8 = 43;

/// See specs/Productions.
pub const OR_TAIL: u8 = 44;

/// See specs/Productions.
pub const EQUALITY: u8 = 45;

/// See specs/Productions.
pub const AND_TAIL: u8 = 46;

/// See specs/Productions.
pub const RELATIONAL: u8 = 47;

/// See specs/Productions.
pub const EQUALITY_TAIL: u8 = 48;

/// See specs/Productions.
pub const ADDITIVE: u8 = 49;

/// See specs/Productions.
pub const RELATIONAL_TAIL: u8 = 50;

/// See specs/Productions.
pub const REFERENCE_TYPE: u8 = 51;

/// See specs/Productions.
pub const CLASS_TYPE: u8 = 52;

/// See specs/Productions.
pub const MULTIPLICATIVE: u8 = 53;

/// See specs/Productions.
pub const ADDITIVE_TAIL: u8 = 54;

/// See specs/Productions.
pub const UNARY: u8 = 55;

/// See specs/Productions.
pub const MULTIPLICATIVE_TAIL: u8 = 56;

/// See specs/Productions.
pub const UNSIGNED: u8 = 57;

/// See specs/Productions.
pub const PARENTHESIS: u8 = 58;

/// See specs/Productions.
pub const CALL: u8 = 59;

/// See specs/Productions.
pub const SUFFIXES: u8 = 60;

/// See specs/Productions.
pub const INT_CAST: u8 = 61;

/// See specs/Productions.
pub const BEHIND_PARENTHESIS: u8 = 62;

/// See specs/Productions.
pub const BOUND_TYPE: u8 = 63;

/// See specs/Productions.
pub const BEHIND_RANGE: u8 = 64;

/// See specs/Productions.
pub const DIMENSION: u8 = 65;

/// See specs/Productions.
pub const ARGUMENTS: u8 = 66;

/// See specs/Productions.
pub const MORE_ARGUMENTS: u8 = 67;

/// The names that a whole text may be of: JML at each of its places.
pub const STARTS: [u8; 5] = [
    METHOD_SPECS,
    FIELD_SPECS,
    MODIFIER_SPECS,
    LOOP_SPECS,
    CLASS_END_SPECS,
];
