//! Why a block of JML is refused.

/// Why a block is refused, with the offset of the token that tells.
#[derive(Clone, Copy)]
pub(super) enum Cause {
    /// No JML of its place has its tokens.
    Syntax(u32),
    /// An expression in it is higher than 200.
    TooDeep(u32),
    /// Memory ran out.
    NoMemory,
}
