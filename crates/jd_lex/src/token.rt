ghost use Rattle.std.specs.Prelude.{◌≡◌};
ghost use Rattle.jd_lex.specs.declared.token.LexRefusal.TheVariants.{NoMemory as OutOfMemory};

use jd_base::NoMemory;
use std::alloc::{AllocError, AllocFailed};
use thiserror::Error;

/// What a token is.
#[derive(Drop)]
pub enum TokenKind {
    /// A name or a keyword (JLS 3.8, 3.9); in JML also one that begins with a backslash, which it
    /// keeps (JML Reference Manual 4.6).
    Word(Vec<u8>),
    /// The value of a decimal literal (JLS 3.10.1).
    Number(i128),
    /// A separator or an operator (JLS 3.11, 3.12).
    Sign(Vec<u8>),
}

/// A token and the offsets of its bytes.
#[derive(Drop)]
pub struct Token {
    /// What it is.
    pub kind: TokenKind,
    /// The offset of its first byte.
    pub from: u32,
    /// The offset behind its last byte.
    pub to: u32,
    /// Whether it stands in JML.
    pub jml: bool,
}

/// Why a text has no tokens. A place is a file's number, here always 0, and the offset of the first byte that is at fault.
#[derive(Clone, Copy, PartialEq, Eq, Debug, Error)]
pub enum LexRefusal {
    /// The byte begins no token, or it begins a Unicode escape.
    #[error("no token begins with the byte at {at}")]
    BadByte { file: u32, at: u32 },
    /// The comment is not closed.
    #[error("the comment at {at} is not closed")]
    OpenComment { file: u32, at: u32 },
    /// The number is too great.
    #[error("the number at {at} is too great")]
    BigLiteral { file: u32, at: u32 },
    /// Memory ran out.
    #[error("memory ran out")]
    NoMemory,
}

impl From<NoMemory> for LexRefusal {
    ghost from_gives = { λ _ e. e ≡ OutOfMemory };

    fn from(_error: NoMemory) -> LexRefusal {
        LexRefusal::NoMemory
    }
}

impl From<AllocError> for LexRefusal {
    ghost from_gives = { λ _ e. e ≡ OutOfMemory };

    fn from(_error: AllocError) -> LexRefusal {
        LexRefusal::NoMemory
    }
}

impl<T: Drop> From<AllocFailed<T>> for LexRefusal {
    ghost from_gives = { λ _ e. e ≡ OutOfMemory };

    fn from(_error: AllocFailed<T>) -> LexRefusal {
        LexRefusal::NoMemory
    }
}
