//! The kinds of tokens that the grammar of Java's files tells apart (JLS 3.8 to 3.12). 0 is the end of the tokens.

/// `package`
pub const PACKAGE: u8 = 1;

/// `;`
pub const SEMICOLON: u8 = 2;

/// `.`
pub const DOT: u8 = 3;

/// `class`
pub const CLASS: u8 = 4;

/// `{`
pub const OPEN_BRACE: u8 = 5;

/// `public`, `private`, `protected`, `strictfp`, `transient` or `volatile`, which are read and left out
pub const IGNORED_MODIFIER: u8 = 6;

/// `static`
pub const STATIC: u8 = 7;

/// `final`
pub const FINAL: u8 = 8;

/// `@`
pub const AT_SIGN: u8 = 9;

/// `extends`
pub const EXTENDS: u8 = 10;

/// `}`
pub const CLOSE_BRACE: u8 = 11;

/// A run of JML tokens
pub const SPECS: u8 = 12;

/// `void`
pub const VOID: u8 = 13;

/// `boolean`
pub const BOOLEAN: u8 = 14;

/// `int`
pub const INT: u8 = 15;

/// An identifier (JLS 3.8)
pub const IDENTIFIER: u8 = 16;

/// `[`
pub const OPEN_BRACKET: u8 = 17;

/// `]`
pub const CLOSE_BRACKET: u8 = 18;

/// `(`
pub const OPEN_PAREN: u8 = 19;

/// `=`
pub const ASSIGN: u8 = 20;

/// A literal from 0 to 2147483647 (JLS 3.10.1)
pub const NUMBER: u8 = 21;

/// `-`
pub const MINUS: u8 = 22;

/// 2147483648, which stands behind a minus sign alone (JLS 3.10.1)
pub const LEAST_NUMBER: u8 = 23;

/// `,`
pub const COMMA: u8 = 24;

/// `)`
pub const CLOSE_PAREN: u8 = 25;

/// `throws`
pub const THROWS: u8 = 26;

/// `super`
pub const SUPER: u8 = 27;

/// `:`
pub const COLON: u8 = 28;

/// `if`
pub const IF: u8 = 29;

/// `break`
pub const BREAK: u8 = 30;

/// `continue`
pub const CONTINUE: u8 = 31;

/// `return`
pub const RETURN: u8 = 32;

/// `throw`
pub const THROW: u8 = 33;

/// `try`
pub const TRY: u8 = 34;

/// `else`
pub const ELSE: u8 = 35;

/// `while`
pub const WHILE: u8 = 36;

/// `for`
pub const FOR: u8 = 37;

/// `finally`
pub const FINALLY: u8 = 38;

/// `catch`
pub const CATCH: u8 = 39;

/// `++`
pub const INCREMENT: u8 = 40;

/// `--`
pub const DECREMENT: u8 = 41;

/// `this`
pub const THIS: u8 = 42;

/// `new`
pub const NEW: u8 = 43;

/// `+=`
pub const ADD_ASSIGN: u8 = 44;

/// `-=`
pub const SUBTRACT_ASSIGN: u8 = 45;

/// `*=`
pub const MULTIPLY_ASSIGN: u8 = 46;

/// `/=`
pub const DIVIDE_ASSIGN: u8 = 47;

/// `%=`
pub const REMAINDER_ASSIGN: u8 = 48;

/// `?`
pub const QUESTION: u8 = 49;

/// `||`
pub const OR_ELSE: u8 = 50;

/// `&&`
pub const AND_ALSO: u8 = 51;

/// `==`
pub const EQUAL: u8 = 52;

/// `!=`
pub const NOT_EQUAL: u8 = 53;

/// `<`
pub const LESS: u8 = 54;

/// `<=`
pub const LESS_OR_EQUAL: u8 = 55;

/// `>`
pub const GREATER: u8 = 56;

/// `>=`
pub const GREATER_OR_EQUAL: u8 = 57;

/// `instanceof`
pub const INSTANCEOF: u8 = 58;

/// `+`
pub const PLUS: u8 = 59;

/// `*`
pub const STAR: u8 = 60;

/// `/`
pub const SLASH: u8 = 61;

/// `%`
pub const PERCENT: u8 = 62;

/// `!`
pub const NOT: u8 = 63;

/// `true`
pub const TRUE: u8 = 64;

/// `false`
pub const FALSE: u8 = 65;

/// `null`
pub const NULL: u8 = 66;

/// A word, a number or a sign that stands nowhere in a file, as `const`.
pub const UNUSED: u8 = 67;
