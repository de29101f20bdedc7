ghost use Rattle.std.specs.Prelude.{◌≡◌, ◌<◌, ◌∷◌, [], false, length, map, true, IfSome};
ghost use Rattle.std.specs.List.{position_from};
ghost use Rattle.jd_lex.specs.View.{kind_view, token_view, tokens_view};
ghost use Rattle.jd_java_tokens.specs.Unsupported as plain;

use jd_lex::{Token, TokenKind};

/// Keywords (JLS 3.9).
const UNSUPPORTED_WORDS: [&[u8]; 16] = [
    b"abstract",
    b"assert",
    b"byte",
    b"char",
    b"default",
    b"do",
    b"double",
    b"enum",
    b"float",
    b"import",
    b"interface",
    b"long",
    b"native",
    b"short",
    b"switch",
    b"synchronized",
];

/// Operators on bits, arrows and method references (JLS 3.11, 3.12).
const UNSUPPORTED_SIGNS: [&[u8]; 15] = [
    b"&", b"|", b"^", b"~", b"<<", b">>", b">>>", b"->", b"::", b"&=", b"|=", b"^=", b"<<=",
    b">>=", b">>>=",
];

fn is_listed(table: &[&[u8]], text: &[u8]) -> bool
    ensures { result ≡ plain.is_listed (map (λ row. row.now) table.now) text.now }
{
    for row in table {
        if *row == text {
            return true;
        }
    }
    false
}

// Whether it is a byte that stands as a sign in most files.
fn is_usual_byte(byte: u8) -> bool
    ensures { result ≡ true → plain.is_listed plain.unsupported_signs (byte ∷ []) ≡ false }
{
    match byte {
        b'('
        | b')'
        | b'['
        | b']'
        | b'.'
        | b','
        | b';'
        | b'{'
        | b'}'
        | b'='
        | b'<'
        | b'+'
        | b'-'
        | b'*' => true,
        _ => false,
    }
}

// Whether it is such a byte alone.
fn is_usual_sign(text: &[u8]) -> bool
    ensures { result ≡ true → plain.is_listed plain.unsupported_signs text.now ≡ false }
{
    match text {
        [byte] => is_usual_byte(*byte),
        _ => false,
    }
}

fn is_unsupported_sign(text: &[u8]) -> bool
    ensures { result ≡ plain.is_listed plain.unsupported_signs text.now }
{
    if is_usual_sign(text) {
        return false;
    }
    is_listed(&UNSUPPORTED_SIGNS, text)
}

fn is_unsupported_kind(kind: &TokenKind) -> bool
    ensures { result ≡ plain.is_unsupported_kind (kind_view kind.now) }
{
    match kind {
        TokenKind::Word(text) => is_listed(&UNSUPPORTED_WORDS, text),
        TokenKind::Number(_) => false,
        TokenKind::Sign(text) => is_unsupported_sign(text),
    }
}

/// Whether the token stands outside JML and is one that no file may have there, as `double` and `&=`.
pub fn is_unsupported(token: &Token) -> bool
    ensures { result ≡ plain.is_unsupported (token_view token.now) }
{
    if token.jml {
        return false;
    }
    is_unsupported_kind(&token.kind)
}

/// The number of the first unsupported token, from 0; none where all are supported.
pub fn first_unsupported(tokens: &[Token]) -> Option<usize>
    ensures within { IfSome result (λ number. number < length tokens.now) }
    ensures first { result ≡ position_from plain.is_unsupported 0 (tokens_view tokens.now) }
{
    for (number, token) in tokens.iter().enumerate() {
        if is_unsupported(token) {
            return Some(number);
        }
    }
    None
}
