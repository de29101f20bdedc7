/// Why a program may not have a member, and where the member's name stands: the file's number and the offset in it.
#[derive(Clone, Copy, PartialEq, Eq)]
pub enum Clash {
    /// A second variable of the name, or a second constructor, in its class (JLS 8.3, 8.8).
    DuplicateMember {
        /// The file's number.
        file: u32,
        /// Where the name stands.
        at: u32,
    },
    /// A variable of the name of one of an ancestor (JLS 8.3).
    Hiding {
        /// The file's number.
        file: u32,
        /// Where the name stands.
        at: u32,
    },
    /// A second method of the name in its class, or one with other parameters than that of an ancestor (JLS 8.4.9).
    Overload {
        /// The file's number.
        file: u32,
        /// Where the name stands.
        at: u32,
    },
    /// A method with another result than that of its name in an ancestor, or static against not static (JLS 8.4.8).
    BadOverride {
        /// The file's number.
        file: u32,
        /// Where the name stands.
        at: u32,
    },
}
