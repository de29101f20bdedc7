//! The forms of terms, location sets, formulas and code, as tables.

/// What stands at a place.
#[derive(Clone, Copy)]
pub enum Place<'a> {
    /// A term.
    Term,
    /// A location set.
    Loc,
    /// A formula.
    Formula,
    /// An expression of code.
    Expr,
    /// A statement of code.
    Stmt,
    /// A list of statements.
    Code,
    /// The pairs of an update.
    Pairs,
    /// One of them.
    Pair,
    /// `(arr X)`, the array that an allocation makes.
    Array,
    /// The sort of a quantified variable.
    Sort,
    /// A class or `int[]`.
    Kind,
    /// The name of a class, field, method or variable.
    Name,
    /// The variable that takes a result, or `-`.
    Result,
    /// The number of a loop, which may be 0.
    Loop,
    /// A label.
    Label,
    /// This word.
    Word(&'a [u8]),
}

/// A row of the table: what begins a form, the word that does, the parts behind it and what may follow them.
pub(crate) type Row<'a, H> = (H, &'a [u8], &'a [Place<'a>], Option<Place<'a>>);

/// What stands in brackets.
#[derive(Clone, Copy)]
pub(crate) struct Form<'a> {
    /// The word that stands first, if one does.
    pub(crate) word: Option<&'a [u8]>,
    /// The parts behind it.
    pub(crate) parts: &'a [Place<'a>],
    /// What may follow them, as often as one likes.
    pub(crate) rest: Option<Place<'a>>,
}
