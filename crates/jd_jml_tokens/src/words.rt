ghost use Rattle.std.specs.Prelude.{◌≡◌};
ghost use Rattle.jd_lex.specs.View.{kind_view};
ghost use Rattle.jd_java_tokens.specs.Words.{spelled};
ghost use Rattle.jd_jml_tokens.specs.Words as plain;
ghost use Rattle.jd_jml_tokens.specs.Words.{used_signs, words};

use jd_java_tokens::{Row, find_by_length};
use jd_jml_grammar::kinds;
use jd_lex::TokenKind;

/// The reserved words of Java (JLS 3.9, 3.10.3, 3.10.8), the words that begin clauses and cases or stand alone, and those with a
/// backslash (JML Reference Manual, 4.6), by their lengths.
const WORDS: [&[Row]; 22] = [
    &[],
    &[],
    &[(b"if", kinds::UNUSED), (b"do", kinds::UNUSED)],
    &[
        (b"new", kinds::UNUSED),
        (b"int", kinds::INT),
        (b"for", kinds::UNUSED),
        (b"try", kinds::UNUSED),
    ],
    &[
        (b"true", kinds::TRUE),
        (b"null", kinds::NULL),
        (b"this", kinds::THIS),
        (b"else", kinds::UNUSED),
        (b"void", kinds::UNUSED),
        (b"byte", kinds::UNUSED),
        (b"case", kinds::UNUSED),
        (b"char", kinds::UNUSED),
        (b"enum", kinds::UNUSED),
        (b"goto", kinds::UNUSED),
        (b"long", kinds::UNUSED),
        (b"also", kinds::ALSO),
        (b"pure", kinds::PURE),
        (b"\\old", kinds::OLD),
        (b"\\sum", kinds::SUM),
    ],
    &[
        (b"false", kinds::FALSE),
        (b"while", kinds::UNUSED),
        (b"break", kinds::UNUSED),
        (b"throw", kinds::UNUSED),
        (b"catch", kinds::UNUSED),
        (b"super", kinds::UNUSED),
        (b"class", kinds::UNUSED),
        (b"final", kinds::UNUSED),
        (b"const", kinds::UNUSED),
        (b"float", kinds::UNUSED),
        (b"short", kinds::UNUSED),
    ],
    &[
        (b"return", kinds::UNUSED),
        (b"throws", kinds::UNUSED),
        (b"static", kinds::UNUSED),
        (b"public", kinds::VISIBILITY),
        (b"assert", kinds::UNUSED),
        (b"double", kinds::UNUSED),
        (b"import", kinds::UNUSED),
        (b"native", kinds::UNUSED),
        (b"switch", kinds::UNUSED),
        (b"helper", kinds::HELPER),
        (b"\\fresh", kinds::FRESH),
    ],
    &[
        (b"boolean", kinds::BOOLEAN),
        (b"finally", kinds::UNUSED),
        (b"extends", kinds::UNUSED),
        (b"package", kinds::UNUSED),
        (b"private", kinds::VISIBILITY),
        (b"default", kinds::UNUSED),
        (b"ensures", kinds::ENSURES),
        (b"signals", kinds::SIGNALS),
        (b"\\result", kinds::RESULT),
        (b"\\forall", kinds::FORALL),
        (b"\\exists", kinds::EXISTS),
        (b"\\bigint", kinds::BIGINT),
    ],
    &[
        (b"continue", kinds::UNUSED),
        (b"strictfp", kinds::UNUSED),
        (b"volatile", kinds::UNUSED),
        (b"abstract", kinds::UNUSED),
        (b"requires", kinds::REQUIRES),
        (b"modifies", kinds::ASSIGNABLE),
        (b"diverges", kinds::DIVERGES),
        (b"behavior", kinds::BEHAVIOR),
        (b"nullable", kinds::NULLABLE),
        (b"non_null", kinds::NON_NULL),
        (b"\\nothing", kinds::NOTHING),
    ],
    &[
        (b"protected", kinds::VISIBILITY),
        (b"transient", kinds::UNUSED),
        (b"interface", kinds::UNUSED),
        (b"decreases", kinds::DECREASES),
        (b"invariant", kinds::INVARIANT),
        (b"behaviour", kinds::BEHAVIOR),
    ],
    &[
        (b"instanceof", kinds::INSTANCEOF),
        (b"implements", kinds::UNUSED),
        (b"assignable", kinds::ASSIGNABLE),
        (b"modifiable", kinds::ASSIGNABLE),
        (b"decreasing", kinds::DECREASES),
    ],
    &[
        (b"measured_by", kinds::MEASURED_BY),
        (b"maintaining", kinds::LOOP_INVARIANT),
        (b"spec_public", kinds::SPEC_PUBLIC),
        (b"\\everything", kinds::EVERYTHING),
    ],
    &[
        (b"synchronized", kinds::UNUSED),
        (b"signals_only", kinds::SIGNALS_ONLY),
    ],
    &[],
    &[
        (b"loop_invariant", kinds::LOOP_INVARIANT),
        (b"spec_protected", kinds::SPEC_PROTECTED),
        (b"\\invariant_for", kinds::INVARIANT_FOR),
    ],
    &[(b"normal_behavior", kinds::NORMAL_BEHAVIOR)],
    &[(b"normal_behaviour", kinds::NORMAL_BEHAVIOR)],
    &[],
    &[],
    &[],
    &[(b"exceptional_behavior", kinds::EXCEPTIONAL_BEHAVIOR)],
    &[(b"exceptional_behaviour", kinds::EXCEPTIONAL_BEHAVIOR)],
];

/// The separators and operators that stand in JML, by their lengths.
const USED_SIGNS: [&[Row]; 5] = [
    &[],
    &[
        (b"(", kinds::OPEN_PAREN),
        (b")", kinds::CLOSE_PAREN),
        (b"[", kinds::OPEN_BRACKET),
        (b"]", kinds::CLOSE_BRACKET),
        (b".", kinds::DOT),
        (b",", kinds::COMMA),
        (b";", kinds::SEMICOLON),
        (b"?", kinds::QUESTION),
        (b":", kinds::COLON),
        (b"<", kinds::LESS),
        (b">", kinds::GREATER),
        (b"+", kinds::PLUS),
        (b"-", kinds::MINUS),
        (b"*", kinds::STAR),
        (b"/", kinds::SLASH),
        (b"%", kinds::PERCENT),
        (b"!", kinds::NOT),
    ],
    &[
        (b"||", kinds::OR_ELSE),
        (b"&&", kinds::AND_ALSO),
        (b"==", kinds::EQUAL),
        (b"!=", kinds::NOT_EQUAL),
        (b"<=", kinds::LESS_OR_EQUAL),
        (b">=", kinds::GREATER_OR_EQUAL),
        (b"..", kinds::RANGE),
    ],
    &[(b"==>", kinds::IMPLIES)],
    &[(b"<==>", kinds::EQUIVALENT)],
];

fn find_word(text: &[u8]) -> Option<u8>
    ensures { result ≡ spelled words text.now }
{
    find_by_length(&WORDS, text)
}

fn find_sign(text: &[u8]) -> Option<u8>
    ensures { result ≡ spelled used_signs text.now }
{
    find_by_length(&USED_SIGNS, text)
}

// The kind of a word that the table has not.
fn other_word_kind(text: &[u8]) -> u8
    ensures { result ≡ plain.other_word_kind text.now }
{
    match text.first() {
        Some(b'\\') => kinds::UNUSED,
        _ => kinds::IDENTIFIER,
    }
}

fn word_kind(text: &[u8]) -> u8
    ensures { result ≡ plain.word_kind text.now }
{
    match find_word(text) {
        Some(kind) => kind,
        None => other_word_kind(text),
    }
}

fn sign_kind(text: &[u8]) -> u8
    ensures { result ≡ plain.sign_kind text.now }
{
    match find_sign(text) {
        Some(kind) => kind,
        None => kinds::UNUSED,
    }
}

fn number_kind(value: i128) -> u8
    ensures { result ≡ plain.number_kind value }
{
    if value < 0 {
        kinds::UNUSED
    } else {
        kinds::NUMBER
    }
}

/// The kind of a token of JML.
pub fn kind_of(kind: &TokenKind) -> u8
    ensures { result ≡ plain.kind_of (kind_view kind.now) }
{
    match kind {
        TokenKind::Word(text) => word_kind(text),
        TokenKind::Number(value) => number_kind(*value),
        TokenKind::Sign(text) => sign_kind(text),
    }
}
