use thiserror::Error;

/// Why a text is no file of proof scripts. A place is a file's number, here always 0, and an offset in it.
#[derive(Debug, Drop, Error)]
pub enum ScriptRefusal {
    /// The file's version is a number other than 1.
    #[error("the version of the scripts is not 1")]
    Version,
    /// No file goes on with this token here, though those before it begin one.
    #[error("no file of scripts goes on with the token at {at}")]
    Syntax {
        /// The file's number.
        file: u32,
        /// Where the token begins.
        at: u32,
    },
    /// A proof has the name of an earlier one.
    #[error("a second proof has the name of an earlier one")]
    DuplicateProof {
        /// The name.
        name: Vec<u8>,
    },
    /// The text ends where a file is begun but not whole, or before it.
    #[error("the text ends before the file of scripts does")]
    Truncated,
    /// A proof has more steps than one may have.
    #[error("a proof has too many steps")]
    TooManyNodes,
    /// The bracket opens more levels than the expression of an instantiation may have.
    #[error("the bracket at {at} nests too deep")]
    TooDeep {
        /// The file's number.
        file: u32,
        /// Where the bracket stands.
        at: u32,
    },
    /// Memory ran out.
    #[error("memory ran out")]
    NoMemory,
}
