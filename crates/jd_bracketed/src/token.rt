/// What a token of a text form is.
#[derive(Clone, Copy, PartialEq, Eq)]
pub enum Kind<'a> {
    /// `(`
    Open,
    /// `)`
    Close,
    /// `[`
    OpenSquare,
    /// `]`
    CloseSquare,
    /// A longest run of other printing bytes of ASCII without `;`, or `int[]`.
    Word(&'a [u8]),
    /// A byte that no text form has at its place.
    Bad,
}

/// A token and the offset of its first byte.
#[derive(Clone, Copy, PartialEq, Eq)]
pub struct Token<'a> {
    /// What it is.
    pub kind: Kind<'a>,
    /// Where it begins.
    pub at: u32,
}
