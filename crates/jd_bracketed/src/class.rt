ghost use Rattle.std.specs.Prelude.{◌≡◌};
ghost use Rattle.jd_bracketed.specs.Bytes as bytes;

/// What a byte of a text form is.
#[derive(Clone, Copy)]
pub enum Class {
    /// White space, or the end of a comment's line.
    Blank,
    /// The first byte of a comment, or one inside.
    InComment,
    /// A token by itself.
    Alone,
    /// A byte of a word.
    Part,
}

/// What the byte is, inside a comment or outside.
pub fn class_in(in_comment: bool, byte: u8) -> Class
    ensures { result ≡ bytes.class_in in_comment byte }
{
    if in_comment {
        return match byte {
            b'\n' => Class::Blank,
            0..=127 => Class::InComment,
            _ => Class::Alone,
        };
    }
    match byte {
        b' ' | b'\t' | b'\r' | b'\n' => Class::Blank,
        b';' => Class::InComment,
        b'(' | b')' | b'[' | b']' => Class::Alone,
        33..=126 => Class::Part,
        _ => Class::Alone,
    }
}
