//! The names of the grammar of Java's files, with what they stand for.

/// See specs/Productions.
pub const COMPILATION_UNIT: u8 = 0;

/// See specs/Productions.
pub const QUALIFIED_NAME: u8 = 1;

/// See specs/Productions.
pub const TYPE_DECLARATIONS: u8 = 2;

/// See specs/Productions.
pub const CLASS_DECLARATION: u8 = 3;

/// See specs/Productions.
pub const CLASS_MODIFIERS: u8 = 4;

/// See specs/Productions.
pub const MODIFIER: u8 = 5;

/// See specs/Productions.
pub const SUPERCLASS: u8 = 6;

/// See specs/Productions.
pub const CLASS_BODY: u8 = 7;

/// See specs/Productions.
pub const CLASS_BODY_BEHIND_SPECS: u8 = 8;

/// See specs/Productions.
pub const MEMBER_DECLARATION: u8 = 9;

/// See specs/Productions.
pub const MODIFIERS: u8 = 10;

/// See specs/Productions.
pub const SPECS: u8 = 11;

/// See specs/Productions.
pub const DECLARATION: u8 = 12;

/// See specs/Productions.
pub const INT_DECLARATION: u8 = 13;

/// See specs/Productions.
pub const IDENTIFIER_DECLARATION: u8 = 14;

/// See specs/Productions.
pub const INT_DECLARED: u8 = 15;

/// See specs/Productions.
pub const CONSTANT: u8 = 16;

/// See specs/Productions.
pub const MAGNITUDE: u8 = 17;

/// See specs/Productions.
pub const DECLARED: u8 = 18;

/// See specs/Productions.
pub const MORE_NAMES: u8 = 19;

/// See specs/Productions.
pub const METHOD: u8 = 20;

/// See specs/Productions.
pub const PARAMETERS: u8 = 21;

/// See specs/Productions.
pub const MORE_PARAMETERS: u8 = 22;

/// See specs/Productions.
pub const PARAMETER: u8 = 23;

/// See specs/Productions.
pub const TYPE: u8 = 24;

/// See specs/Productions.
pub const DIMENSION: u8 = 25;

/// See specs/Productions.
pub const THROWS: u8 = 26;

/// See specs/Productions.
pub const CONSTRUCTOR_BODY: u8 = 27;

/// See specs/Productions.
pub const CONSTRUCTOR_STATEMENTS: u8 = 28;

/// See specs/Productions.
pub const BLOCK: u8 = 29;

/// See specs/Productions.
pub const BLOCK_STATEMENTS: u8 = 30;

/// See specs/Productions.
pub const BLOCK_STATEMENT: u8 = 31;

/// See specs/Productions.
pub const BLOCK_STATEMENT_BEHIND_NAME: u8 = 32;

/// See specs/Productions.
pub const VARIABLES: u8 = 33;

/// See specs/Productions.
pub const INITIALIZER: u8 = 34;

/// See specs/Productions.
pub const MORE_VARIABLES: u8 = 35;

/// See specs/Productions.
pub const STATEMENT: u8 = 36;

/// See specs/Productions.
pub const STATEMENT_BEHIND_NAME: u8 = 37;

/// See specs/Productions.
pub const STATEMENT_WITHOUT_NAME: u8 = 38;

/// See specs/Productions.
pub const ELSE: u8 = 39;

/// See specs/Productions.
pub const LOOP: u8 = 40;

/// See specs/Productions.
pub const ANNOTATED_LOOP: u8 = 41;

/// See specs/Productions.
pub const LOOP_BEHIND_LABEL: u8 = 42;

/// See specs/Productions.
pub const FOR_INIT: u8 = 43;

/// See specs/Productions.
pub const FOR_INIT_BEHIND_NAME: u8 = 44;

/// See specs/Productions.
pub const FOR_TEST: u8 = 45;

/// See specs/Productions.
pub const FOR_UPDATE: u8 = 46;

/// See specs/Productions.
pub const MORE_EFFECTS: u8 = 47;

/// See specs/Productions.
pub const TARGET: u8 = 48;

/// See specs/Productions.
pub const RESULT: u8 = 49;

/// See specs/Productions.
pub const RESCUE: u8 = 50;

/// See specs/Productions.
pub const CATCHES: u8 = 51;

/// See specs/Productions.
pub const CATCH: u8 = 52;

/// See specs/Productions.
pub const FINAL: u8 = 53;

/// See specs/Productions.
pub const FINALLY: u8 = 54;

/// See specs/Productions.
pub const EFFECT: u8 = 55;

/// See specs/Productions.
pub const NAME_EFFECT: u8 = 56;

/// See specs/Productions.
pub const OTHER_EFFECT: u8 = 57;

/// See specs/Productions.
pub const EFFECT_CREATION: u8 = 58;

/// See specs/Productions.
pub const EFFECT_TAIL: u8 = 59;

/// See specs/Productions.
pub const EXPRESSION: u8 = 60;

/// See specs/Productions.
pub const ASSIGNMENT_TAIL: u8 = 61;

/// See specs/Productions.
pub const CONDITIONAL: u8 = 62;

/// See specs/Productions.
pub const CONDITIONAL_TAIL: u8 = 63;

/// See specs/Productions.
pub const OR: u8 = 64;

/// See specs/Productions.
pub const OR_TAIL: u8 = 65;

/// See specs/Productions.
pub const AND: u8 = 66;

/// See specs/Productions.
pub const AND_TAIL: u8 = 67;

/// See specs/Productions.
pub const EQUALITY: u8 = 68;

/// See specs/Productions.
pub const EQUALITY_TAIL: u8 = 69;

/// See specs/Productions.
pub const RELATIONAL: u8 = 70;

/// See specs/Productions.
pub const RELATIONAL_TAIL: u8 = 71;

/// See specs/Productions.
pub const REFERENCE_TYPE: u8 = 72;

/// See specs/Productions.
pub const ADDITIVE: u8 = 73;

/// See specs/Productions.
pub const ADDITIVE_TAIL: u8 = 74;

/// See specs/Productions.
pub const MULTIPLICATIVE: u8 = 75;

/// See specs/Productions.
pub const MULTIPLICATIVE_TAIL: u8 = 76;

/// See specs/Productions.
pub const UNARY: u8 = 77;

/// See specs/Productions.
pub const NEGATED: u8 = 78;

/// See specs/Productions.
pub const UNSIGNED: u8 = 79;

/// See specs/Productions.
pub const PARENTHESIS: u8 = 80;

/// See specs/Productions.
pub const INT_CAST: u8 = 81;

/// See specs/Productions.
pub const BEHIND_PARENTHESIS: u8 = 82;

/// See specs/Productions.
pub const LITERAL: u8 = 83;

/// See specs/Productions.
pub const CREATION: u8 = 84;

/// See specs/Productions.
pub const ARRAY_SUFFIX: u8 = 85;

/// See specs/Productions.
pub const ARRAY_MEMBER: u8 = 86;

/// See specs/Productions.
pub const CALL: u8 = 87;

/// See specs/Productions.
pub const ARGUMENTS: u8 = 88;

/// See specs/Productions.
pub const MORE_ARGUMENTS: u8 = 89;

/// See specs/Productions.
pub const SUFFIXES: u8 = 90;

/// See specs/Productions.
pub const COUNT: u8 = 91;

/// See specs/Productions.
pub const IDENTIFIER: u8 = 92;

/// The names that a whole text may be of.
pub const STARTS: [u8; 1] = [COMPILATION_UNIT];
