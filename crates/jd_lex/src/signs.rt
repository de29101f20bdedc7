ghost use Rattle.std.specs.Prelude.{◌≡◌, ◌<◌, map};
ghost use Rattle.jd_lex.specs.Signs as the_signs;
ghost use Rattle.jd_lex.specs.Signs.{signs};
ghost use Rattle.jd_lex.specs.Lens.{Longer, LongestLen};

/// Separators and operators (JLS 3.11, 3.12).
const JAVA_SIGNS: [&[u8]; 49] = [
    b"(", b")", b"{", b"}", b"[", b"]", b";", b",", b".", b"@", b"=", b">", b"<", b"!", b"~", b"?",
    b":", b"==", b"<=", b">=", b"!=", b"&&", b"||", b"++", b"--", b"+", b"-", b"*", b"/", b"&",
    b"|", b"^", b"%", b"->", b"::", b"<<", b">>", b">>>", b"+=", b"-=", b"*=", b"/=", b"&=", b"|=",
    b"^=", b"%=", b"<<=", b">>=", b">>>=",
];

/// The same and those of JML (JML Reference Manual 4.6).
const JML_SIGNS: [&[u8]; 54] = [
    b"==>", b"<==>", b"<==", b"<=!=>", b"..", b"(", b")", b"{", b"}", b"[", b"]", b";", b",", b".",
    b"@", b"=", b">", b"<", b"!", b"~", b"?", b":", b"==", b"<=", b">=", b"!=", b"&&", b"||",
    b"++", b"--", b"+", b"-", b"*", b"/", b"&", b"|", b"^", b"%", b"->", b"::", b"<<", b">>",
    b">>>", b"+=", b"-=", b"*=", b"/=", b"&=", b"|=", b"^=", b"%=", b"<<=", b">>=", b">>>=",
];

/// The sign's length where it stands at the head of the bytes and is longer than the best so far.
fn longer(sign: &[u8], bytes: &[u8], best: usize) -> usize
    ensures { Longer sign.now bytes.now best result }
{
    if sign.len() <= best {
        return best;
    }
    if bytes.starts_with(sign) {
        sign.len()
    } else {
        best
    }
}

/// The length of the longest sign of the table that stands at the head of the bytes, or 0.
fn longest_of(table: &[&[u8]], bytes: &[u8]) -> usize
    ensures { LongestLen (map (λ s. s.now) table.now) bytes.now result }
{
    let mut best = 0;
    for sign in table.iter() {
        best = longer(sign, bytes, best);
    }
    best
}

// Whether it is a sign, with which no longer one begins.
fn stands_alone(byte: u8) -> bool
    ensures { result ≡ the_signs.stands_alone byte }
{
    match byte {
        b'(' | b')' | b'{' | b'}' | b'[' | b']' | b';' | b',' | b'~' | b'?' | b'@' => true,
        _ => false,
    }
}

// Whether such a sign stands at the head of the bytes.
fn begins_alone(bytes: &[u8]) -> bool
    ensures { result ≡ the_signs.begins_alone bytes.now }
{
    match bytes.first() {
        Some(byte) => stands_alone(*byte),
        None => false,
    }
}

/// The length of the longest sign at the head of the bytes, or 0.
pub fn sign_len(jml: bool, bytes: &[u8]) -> usize
    ensures { LongestLen (signs jml) bytes.now result }
{
    if begins_alone(bytes) {
        return 1;
    }
    if jml {
        longest_of(&JML_SIGNS, bytes)
    } else {
        longest_of(&JAVA_SIGNS, bytes)
    }
}
