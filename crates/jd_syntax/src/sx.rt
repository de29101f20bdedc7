/// A bracketed expression: a token, or a list in round brackets.
#[derive(Drop)]
pub enum Sx {
    /// One token, as its bytes.
    Atom(Vec<u8>),
    /// The parts between `(` and `)`.
    List(Vec<Sx>),
}
