ghost use Rattle.std.specs.Prelude.{◌≡◌, ◌<◌, ◌≤◌, ◌&&◌, ◌^◌, length, take, MatchOption};
ghost use Rattle.std.specs.List.{list_any};
ghost use Rattle.std.specs.Str.Parse.{digits_value};
ghost use Rattle.jd_lex.specs.Bytes.{is_digit, ends_line, AllOf, IsRun};
ghost use Rattle.jd_lex.specs.Parts.{IsWhite, IsWord, IsNumeral, Ignored, NoClose, limit, without_last_ats};
ghost use Rattle.jd_lex.specs.Lens.{test_of, Head, ClosesAt};

use crate::starts::{ends_line, is_white, is_word_start};

/// A kind of bytes.
#[derive(Clone, Copy, PartialEq, Eq)]
pub enum ByteKind {
    /// White space.
    White,
    /// A letter, a digit, `_` or `$`.
    WordByte,
    /// A digit.
    Digit,
    /// What ends no line.
    InLine,
    /// The sign `@`.
    AtSign,
}

fn is_word_byte(byte: u8) -> bool
    ensures { result ≡ Rattle.jd_lex.specs.Bytes.is_word_byte byte }
{
    is_word_start(byte) || byte.is_ascii_digit()
}

fn is_of(kind: ByteKind, byte: u8) -> bool
    ensures { result ≡ test_of kind byte }
{
    match kind {
        ByteKind::White => is_white(byte),
        ByteKind::WordByte => is_word_byte(byte),
        ByteKind::Digit => byte.is_ascii_digit(),
        ByteKind::InLine => !ends_line(byte),
        ByteKind::AtSign => byte == b'@',
    }
}

/// How many bytes at the head are of the kind.
pub fn run_len(kind: ByteKind, bytes: &[u8]) -> usize
    ensures { Head (IsRun (test_of kind)) bytes.now result }
{
    for (n, byte) in bytes.iter().enumerate() {
        if !is_of(kind, *byte) {
            return n;
        }
    }
    bytes.len()
}

fn has_line_end(bytes: &[u8]) -> bool
    ensures { result ≡ list_any ends_line bytes.now }
{
    bytes.iter().any(|byte| ends_line(*byte))
}

/// How many `@` signs count to the white space before them.
fn ignored_len(jml: bool, white: &[u8], behind: &[u8]) -> usize
    ensures { Head (Ignored (jml && list_any ends_line white.now)) behind.now result }
{
    if !jml {
        return 0;
    }
    if has_line_end(white) {
        run_len(ByteKind::AtSign, behind)
    } else {
        0
    }
}

/// The length of the white space at the head.
pub fn white_len(jml: bool, bytes: &[u8]) -> usize
    ensures { Head (IsWhite jml) bytes.now result }
{
    let n = run_len(ByteKind::White, bytes);
    let (white, behind) = bytes.split_at(n);
    n + ignored_len(jml, white, behind)
}

/// The length of the word at the head.
pub fn word_len(bytes: &[u8]) -> usize
    requires { 0 < length bytes.now }
    ensures { Head IsWord bytes.now result }
{
    let (_first, more) = bytes.split_at(1);
    1 + run_len(ByteKind::WordByte, more)
}

/// The length of the numeral at the head.
pub fn numeral_len(bytes: &[u8]) -> usize
    requires { 0 < length bytes.now }
    ensures { Head IsNumeral bytes.now result }
{
    if bytes[0] == b'0' {
        return 1;
    }
    let (_first, more) = bytes.split_at(1);
    1 + run_len(ByteKind::Digit, more)
}

/// The number that the digits write; none where it is above the limit.
pub fn value_of(digits: &[u8], limit: u128) -> Option<u128>
    requires digits { AllOf is_digit digits.now }
    requires small { limit < 2 ^ 127 }
    ensures { MatchOption result (limit < digits_value 10 digits.now)
        (λ value. (value ≡ digits_value 10 digits.now) × (value ≤ limit)) }
{
    let mut value = 0;
    for byte in digits.iter() {
        if value > limit / 10 {
            return None;
        }
        value = value * 10 + u128::from(*byte - b'0');
        if value > limit {
            return None;
        }
    }
    Some(value)
}

/// Where the first `*/` of the bytes stands.
pub fn close_at(bytes: &[u8]) -> Option<usize>
    ensures { MatchOption result (NoClose bytes.now) (λ n. ClosesAt bytes.now n) }
{
    let mut n = 0;
    while n + 1 < bytes.len() {
        if bytes[n] == b'*' && bytes[n + 1] == b'/' {
            return Some(n);
        }
        n += 1;
    }
    None
}

/// How many bytes are left without the `@` signs at the end.
pub fn trimmed_len(bytes: &[u8]) -> usize
    ensures within { result ≤ length bytes.now }
    ensures trimmed { take result bytes.now ≡ without_last_ats bytes.now }
{
    let mut n = bytes.len();
    while n > 0 && bytes[n - 1] == b'@' {
        n -= 1;
    }
    n
}
