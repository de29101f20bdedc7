//! The kinds of tokens that the grammar of JML tells apart (JML Reference Manual, 4.6). 0 is the end of the tokens.

/// `public`, `private` or `protected`, which are read and left out
pub const VISIBILITY: u8 = 1;

/// `pure`
pub const PURE: u8 = 2;

/// `helper`
pub const HELPER: u8 = 3;

/// `nullable`
pub const NULLABLE: u8 = 4;

/// `non_null`
pub const NON_NULL: u8 = 5;

/// `spec_public`
pub const SPEC_PUBLIC: u8 = 6;

/// `spec_protected`
pub const SPEC_PROTECTED: u8 = 7;

/// `also`
pub const ALSO: u8 = 8;

/// `normal_behavior` or `normal_behaviour`
pub const NORMAL_BEHAVIOR: u8 = 9;

/// `exceptional_behavior` or `exceptional_behaviour`
pub const EXCEPTIONAL_BEHAVIOR: u8 = 10;

/// `behavior` or `behaviour`
pub const BEHAVIOR: u8 = 11;

/// `requires`
pub const REQUIRES: u8 = 12;

/// `;`
pub const SEMICOLON: u8 = 13;

/// `ensures`
pub const ENSURES: u8 = 14;

/// `signals`
pub const SIGNALS: u8 = 15;

/// `(`
pub const OPEN_PAREN: u8 = 16;

/// `)`
pub const CLOSE_PAREN: u8 = 17;

/// `signals_only`
pub const SIGNALS_ONLY: u8 = 18;

/// `assignable`, `modifies` or `modifiable`
pub const ASSIGNABLE: u8 = 19;

/// `measured_by`
pub const MEASURED_BY: u8 = 20;

/// `diverges`
pub const DIVERGES: u8 = 21;

/// `\nothing`
pub const NOTHING: u8 = 22;

/// `,`
pub const COMMA: u8 = 23;

/// `true`
pub const TRUE: u8 = 24;

/// `false`
pub const FALSE: u8 = 25;

/// `loop_invariant` or `maintaining`
pub const LOOP_INVARIANT: u8 = 26;

/// `decreases` or `decreasing`
pub const DECREASES: u8 = 27;

/// `invariant`
pub const INVARIANT: u8 = 28;

/// `\everything`
pub const EVERYTHING: u8 = 29;

/// `.`
pub const DOT: u8 = 30;

/// `[`
pub const OPEN_BRACKET: u8 = 31;

/// `*`
pub const STAR: u8 = 32;

/// `]`
pub const CLOSE_BRACKET: u8 = 33;

/// `..`
pub const RANGE: u8 = 34;

/// `?`
pub const QUESTION: u8 = 35;

/// `:`
pub const COLON: u8 = 36;

/// `<==>`
pub const EQUIVALENT: u8 = 37;

/// `==>`
pub const IMPLIES: u8 = 38;

/// `||`
pub const OR_ELSE: u8 = 39;

/// `&&`
pub const AND_ALSO: u8 = 40;

/// `==`
pub const EQUAL: u8 = 41;

/// `!=`
pub const NOT_EQUAL: u8 = 42;

/// `<`
pub const LESS: u8 = 43;

/// `<=`
pub const LESS_OR_EQUAL: u8 = 44;

/// `>`
pub const GREATER: u8 = 45;

/// `>=`
pub const GREATER_OR_EQUAL: u8 = 46;

/// `instanceof`
pub const INSTANCEOF: u8 = 47;

/// `int`
pub const INT: u8 = 48;

/// `+`
pub const PLUS: u8 = 49;

/// `-`
pub const MINUS: u8 = 50;

/// `/`
pub const SLASH: u8 = 51;

/// `%`
pub const PERCENT: u8 = 52;

/// `!`
pub const NOT: u8 = 53;

/// A literal
pub const NUMBER: u8 = 54;

/// `null`
pub const NULL: u8 = 55;

/// `this`
pub const THIS: u8 = 56;

/// `\result`
pub const RESULT: u8 = 57;

/// `\old`
pub const OLD: u8 = 58;

/// `\fresh`
pub const FRESH: u8 = 59;

/// `\invariant_for`
pub const INVARIANT_FOR: u8 = 60;

/// `boolean`
pub const BOOLEAN: u8 = 61;

/// `\forall`
pub const FORALL: u8 = 62;

/// `\exists`
pub const EXISTS: u8 = 63;

/// `\sum`
pub const SUM: u8 = 64;

/// `\bigint`
pub const BIGINT: u8 = 65;

/// A word that is none of the others
pub const IDENTIFIER: u8 = 66;

/// What JML has nowhere: a reserved word of Java, a sign, a number that no literal has
pub const UNUSED: u8 = 67;
