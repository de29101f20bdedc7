use thiserror::Error;

/// Why a text is no bracketed expression. A place is a file's number, here always 0, and an offset in it.
#[derive(Clone, Copy, PartialEq, Eq, Debug, Error)]
pub enum SxRefusal {
    /// No bracketed expression has this token here, though those before it begin one.
    #[error("no bracketed expression goes on with the token at {at}")]
    Syntax {
        /// The file's number.
        file: u32,
        /// Where the token begins.
        at: u32,
    },
    /// The text ends where a bracketed expression is begun but not whole, or before it.
    #[error("the text ends before the bracketed expression does")]
    Truncated,
    /// The bracket opens more levels than a bracketed expression may have.
    #[error("the bracket at {at} nests too deep")]
    TooDeep {
        /// The file's number.
        file: u32,
        /// Where the bracket stands.
        at: u32,
    },
    /// Memory ran out.
    #[error("memory ran out")]
    NoMemory,
}
