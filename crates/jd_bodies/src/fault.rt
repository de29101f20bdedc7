/// Why a token of a body is refused. Of two that hold of one token the one that is listed first is told.
#[derive(Clone, Copy, PartialEq, Eq)]
pub enum Cause {
    /// A variable or field without declaration (JLS 6.5.6).
    UnknownName,
    /// A class without declaration (JLS 6.5.5).
    UnknownClass,
    /// A method that the class does not see (JLS 15.12.2).
    UnknownMethod,
    /// A value of a type that does not fit its place (JLS 5, 14, 15).
    TypeMismatch,
    /// Other arguments in number than parameters (JLS 15.12.2.1, 15.9.3).
    WrongArity,
    /// What cannot be assigned is (JLS 15.26), or what needs `this` stands in a static method (JLS 8.4.3.2).
    BadTarget,
    /// A `break` or `continue` without its target (JLS 14.15, 14.16).
    BadLabel,
    /// A parameter or local of the name of one that is in scope (JLS 8.4.1, 14.4).
    Redeclared,
}

/// A refused token: where it stands, and why.
#[derive(Clone, Copy, PartialEq, Eq)]
pub struct Fault {
    /// The offset of the token.
    pub at: u32,
    /// Why it is refused.
    pub cause: Cause,
}
