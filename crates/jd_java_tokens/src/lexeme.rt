/// What a token says beside its kind.
#[derive(Clone, Copy)]
pub enum Content<'a> {
    /// Nothing.
    Nothing,
    /// The text of a word.
    Word(&'a [u8]),
    /// The value of a literal, from 0 to 2147483648.
    Number(u32),
    /// Of a run of JML tokens the number of its first token in the file, from 0, and that of the token behind its last.
    Specs(u32, u32),
}

/// A token of the grammar.
#[derive(Clone, Copy)]
pub struct Lexeme<'a> {
    /// Its kind, of `jd_java_grammar::kinds`.
    pub kind: u8,
    /// The offset of its first byte; for a run of JML, of its first token's.
    pub at: u32,
    /// What it says.
    pub content: Content<'a>,
}
