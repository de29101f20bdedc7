/// What a rule acts on.
#[derive(Clone, Copy, PartialEq, Eq)]
pub enum Kind {
    /// A formula on the right, with one assumed on the left.
    Closing,
    /// A whole formula.
    Whole,
    /// A formula at any place.
    Anywhere,
}
