/// Why a token of JML is refused. Of two that hold of one token the one that is listed first is told.
#[derive(Clone, Copy, PartialEq, Eq)]
pub enum SpecCause {
    /// A name or class without declaration (JLS 6.5), or one that needs `this` where there is none (JLS 8.4.3.2).
    UnknownName,
    /// A value of a type that does not fit its place (JLS 15; JML Reference Manual, 12).
    TypeMismatch,
    /// `\result` where there is no result (JML Reference Manual, 12.4.1).
    ResultHere,
    /// `\old` or `\fresh` where there is no earlier state, or a local inside `\old` (JML Reference Manual, 12.4.2, 12.4.9).
    OldHere,
    /// `\invariant_for` in an invariant (JML Reference Manual, 12.4.22).
    InvariantRecursion,
    /// A call.
    CallInSpec,
    /// A clause that its case cannot have, or a second one of which there can be one (JML Reference Manual, 9.6, 9.9), or `?:` on other
    /// than truth values.
    BadClause,
}

/// A refused token: where it stands, and why.
#[derive(Clone, Copy, PartialEq, Eq)]
pub struct SpecFault {
    /// The offset of the token.
    pub at: u32,
    /// Why it is refused.
    pub cause: SpecCause,
}
