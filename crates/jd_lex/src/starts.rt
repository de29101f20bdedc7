ghost use Rattle.std.specs.Prelude.{◌≡◌};
ghost use Rattle.jd_lex.specs.Parts.{start_by};
ghost use Rattle.jd_lex.specs.Parts as parts;
ghost use Rattle.jd_lex.specs.Bytes as bytes;

/// What the first two bytes of a text begin.
#[derive(Clone, Copy, PartialEq, Eq)]
pub enum Start {
    /// White space.
    White,
    /// A word.
    WordStart,
    /// A number.
    NumberStart,
    /// A comment to the line's end.
    LineComment,
    /// A comment that ends with `*/`.
    BlockComment,
    /// A sign, or nothing.
    SignStart,
}

/// Whether the byte ends a line (JLS 3.4).
pub fn ends_line(byte: u8) -> bool
    ensures { result ≡ bytes.ends_line byte }
{
    byte == b'\n' || byte == b'\r'
}

/// Whether the byte is white space (JLS 3.6).
pub fn is_white(byte: u8) -> bool
    ensures { result ≡ bytes.is_white byte }
{
    byte == b' ' || byte == b'\t' || byte == b'\n' || byte == b'\r' || byte == 12
}

fn is_letter(byte: u8) -> bool
    ensures { result ≡ bytes.is_letter byte }
{
    byte.is_ascii_uppercase() || byte.is_ascii_lowercase()
}

/// Whether a word may begin with the byte (JLS 3.8).
pub fn is_word_start(byte: u8) -> bool
    ensures { result ≡ bytes.begins_word byte }
{
    is_letter(byte) || byte == b'_' || byte == b'$'
}

fn start_by(jml: bool, first: u8, second: u8) -> Start
    ensures { result ≡ parts.start_by jml first second }
{
    if is_white(first) {
        return Start::White;
    }
    if is_word_start(first) || jml && first == b'\\' && is_letter(second) {
        return Start::WordStart;
    }
    if first.is_ascii_digit() {
        return Start::NumberStart;
    }
    match (first, second) {
        (b'/', b'/') => Start::LineComment,
        (b'/', b'*') => Start::BlockComment,
        _ => Start::SignStart,
    }
}

/// What the bytes begin with.
pub fn start_of(jml: bool, bytes: &[u8]) -> Start
    ensures { result ≡ parts.start_of jml bytes.now }
{
    let first = if bytes.len() > 0 { bytes[0] } else { 0 };
    let second = if bytes.len() > 1 { bytes[1] } else { 0 };
    start_by(jml, first, second)
}
