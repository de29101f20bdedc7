ghost use Rattle.std.specs.Prelude.{◌≡◌};
ghost use Rattle.jd_lex.specs.View.{kind_view};
ghost use Rattle.jd_java_tokens.specs.Lexemes.{content_view};
ghost use Rattle.jd_java_tokens.specs.Words as plain;
ghost use Rattle.jd_java_tokens.specs.Words.{spelled, table_view, tables_view, IsByLength, reserved_words, used_signs};

use crate::lexeme::Content;
use jd_java_grammar::kinds;
use jd_lex::TokenKind;

/// A spelling and its kind.
pub type Row = (&'static [u8], u8);

/// The literals that are words, and the keywords (JLS 3.9, 3.10.3, 3.10.8), by their lengths.
const RESERVED_WORDS: [&[Row]; 13] = [
    &[],
    &[],
    &[(b"if", kinds::IF), (b"do", kinds::UNUSED)],
    &[
        (b"new", kinds::NEW),
        (b"int", kinds::INT),
        (b"for", kinds::FOR),
        (b"try", kinds::TRY),
    ],
    &[
        (b"true", kinds::TRUE),
        (b"null", kinds::NULL),
        (b"this", kinds::THIS),
        (b"else", kinds::ELSE),
        (b"void", kinds::VOID),
        (b"byte", kinds::UNUSED),
        (b"case", kinds::UNUSED),
        (b"char", kinds::UNUSED),
        (b"enum", kinds::UNUSED),
        (b"goto", kinds::UNUSED),
        (b"long", kinds::UNUSED),
    ],
    &[
        (b"false", kinds::FALSE),
        (b"while", kinds::WHILE),
        (b"break", kinds::BREAK),
        (b"throw", kinds::THROW),
        (b"catch", kinds::CATCH),
        (b"super", kinds::SUPER),
        (b"class", kinds::CLASS),
        (b"final", kinds::FINAL),
        (b"const", kinds::UNUSED),
        (b"float", kinds::UNUSED),
        (b"short", kinds::UNUSED),
    ],
    &[
        (b"return", kinds::RETURN),
        (b"throws", kinds::THROWS),
        (b"static", kinds::STATIC),
        (b"public", kinds::IGNORED_MODIFIER),
        (b"assert", kinds::UNUSED),
        (b"double", kinds::UNUSED),
        (b"import", kinds::UNUSED),
        (b"native", kinds::UNUSED),
        (b"switch", kinds::UNUSED),
    ],
    &[
        (b"boolean", kinds::BOOLEAN),
        (b"finally", kinds::FINALLY),
        (b"extends", kinds::EXTENDS),
        (b"package", kinds::PACKAGE),
        (b"private", kinds::IGNORED_MODIFIER),
        (b"default", kinds::UNUSED),
    ],
    &[
        (b"continue", kinds::CONTINUE),
        (b"strictfp", kinds::IGNORED_MODIFIER),
        (b"volatile", kinds::IGNORED_MODIFIER),
        (b"abstract", kinds::UNUSED),
    ],
    &[
        (b"protected", kinds::IGNORED_MODIFIER),
        (b"transient", kinds::IGNORED_MODIFIER),
        (b"interface", kinds::UNUSED),
    ],
    &[
        (b"instanceof", kinds::INSTANCEOF),
        (b"implements", kinds::UNUSED),
    ],
    &[],
    &[(b"synchronized", kinds::UNUSED)],
];

/// The separators and operators that stand in a file (JLS 3.11, 3.12), by their lengths.
const USED_SIGNS: [&[Row]; 3] = [
    &[],
    &[
        (b"(", kinds::OPEN_PAREN),
        (b")", kinds::CLOSE_PAREN),
        (b"[", kinds::OPEN_BRACKET),
        (b"]", kinds::CLOSE_BRACKET),
        (b".", kinds::DOT),
        (b",", kinds::COMMA),
        (b";", kinds::SEMICOLON),
        (b"{", kinds::OPEN_BRACE),
        (b"}", kinds::CLOSE_BRACE),
        (b"@", kinds::AT_SIGN),
        (b"=", kinds::ASSIGN),
        (b"?", kinds::QUESTION),
        (b":", kinds::COLON),
        (b"<", kinds::LESS),
        (b">", kinds::GREATER),
        (b"+", kinds::PLUS),
        (b"-", kinds::MINUS),
        (b"*", kinds::STAR),
        (b"/", kinds::SLASH),
        (b"%", kinds::PERCENT),
        (b"!", kinds::NOT),
    ],
    &[
        (b"||", kinds::OR_ELSE),
        (b"&&", kinds::AND_ALSO),
        (b"==", kinds::EQUAL),
        (b"!=", kinds::NOT_EQUAL),
        (b"<=", kinds::LESS_OR_EQUAL),
        (b">=", kinds::GREATER_OR_EQUAL),
        (b"++", kinds::INCREMENT),
        (b"--", kinds::DECREMENT),
        (b"+=", kinds::ADD_ASSIGN),
        (b"-=", kinds::SUBTRACT_ASSIGN),
        (b"*=", kinds::MULTIPLY_ASSIGN),
        (b"/=", kinds::DIVIDE_ASSIGN),
        (b"%=", kinds::REMAINDER_ASSIGN),
    ],
];

/// The greatest decimal literal, which stands behind a minus sign alone (JLS 3.10.1).
const LEAST_NUMBER: i128 = 2147483648;

/// The kind of the first row of that spelling.
fn find_spelled(rows: &[Row], text: &[u8]) -> Option<u8>
    ensures { result ≡ spelled (table_view rows.now) text.now }
{
    for (spelling, kind) in rows {
        if *spelling == text {
            return Some(*kind);
        }
    }
    None
}

/// The kind of the first row of that spelling, where the rows of each length stand apart, from 0 on.
pub fn find_by_length(tables: &[&[Row]], text: &[u8]) -> Option<u8>
    ghost rows: { plain.Table }
    requires { IsByLength rows (tables_view tables.now) }
    ensures { result ≡ spelled rows text.now }
{
    if text.len() >= tables.len() {
        return None;
    }
    find_spelled(tables[text.len()], text)
}

fn find_reserved_word(text: &[u8]) -> Option<u8>
    ensures { result ≡ spelled reserved_words text.now }
{
    find_by_length(&RESERVED_WORDS, text)
}

fn find_used_sign(text: &[u8]) -> Option<u8>
    ensures { result ≡ spelled used_signs text.now }
{
    find_by_length(&USED_SIGNS, text)
}

fn word_kind(text: &[u8]) -> u8
    ensures { result ≡ plain.word_kind text.now }
{
    match find_reserved_word(text) {
        Some(kind) => kind,
        None => kinds::IDENTIFIER,
    }
}

fn sign_kind(text: &[u8]) -> u8
    ensures { result ≡ plain.sign_kind text.now }
{
    match find_used_sign(text) {
        Some(kind) => kind,
        None => kinds::UNUSED,
    }
}

fn number_kind(value: i128) -> u8
    ensures { result ≡ plain.number_kind value }
{
    if value < 0 || value > LEAST_NUMBER {
        return kinds::UNUSED;
    }
    if value == LEAST_NUMBER {
        return kinds::LEAST_NUMBER;
    }
    kinds::NUMBER
}

// The number of a literal; 0 where it is none of a file's.
fn number_of(value: i128) -> u32
    ensures { result ≡ plain.number_of value }
{
    if value < 0 || value > LEAST_NUMBER {
        return 0;
    }
    value as u32
}

/// The kind of a token outside JML: that of a reserved word, an identifier, a literal, a separator or an operator.
pub fn kind_of(kind: &TokenKind) -> u8
    ensures { result ≡ plain.kind_of (kind_view kind.now) }
{
    match kind {
        TokenKind::Word(text) => word_kind(text),
        TokenKind::Number(value) => number_kind(*value),
        TokenKind::Sign(text) => sign_kind(text),
    }
}

/// What a token outside JML says beside its kind.
pub(crate) fn content_of(kind: &TokenKind) -> Content<'_>
    ensures { content_view result ≡ plain.content_of (kind_view kind.now) }
{
    match kind {
        TokenKind::Word(text) => Content::Word(text),
        TokenKind::Number(value) => Content::Number(number_of(*value)),
        TokenKind::Sign(_) => Content::Nothing,
    }
}
