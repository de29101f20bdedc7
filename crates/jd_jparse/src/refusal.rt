use thiserror::Error;

/// Why tokens are no file's. A place is a file's number, here always 0, and the offset of the token that tells.
#[derive(Debug, Drop, Error)]
pub enum ParseRefusal {
    /// No file has these tokens.
    #[error("no file goes on with the token at {at}")]
    Syntax { file: u32, at: u32 },
    /// The first token outside JML that belongs to a part of Java that is not read.
    #[error("the token at {at} is not supported")]
    Unsupported { file: u32, at: u32, what: Vec<u8> },
    /// A statement or an expression is higher than 200.
    #[error("what stands at {at} nests too deep")]
    TooDeep { file: u32, at: u32 },
    /// Memory ran out.
    #[error("memory ran out")]
    NoMemory,
}
