/// What members of one number agree in.
#[derive(Clone, Copy)]
pub(crate) enum Agreement {
    /// The name.
    Name,
    /// The name and the types of the parameters (JLS 8.4.2).
    Signature,
    /// The name, the result, and whether it is static (JLS 8.4.5, 8.4.3.2).
    Return,
}
