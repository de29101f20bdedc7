/// The rules of the first replay.
#[derive(Clone, Copy, PartialEq, Eq)]
pub enum FirstRule {
    /// A formula on the right that stands on the left too.
    Close,
    /// `true` on the right.
    CloseTrue,
    /// A negation on the left.
    NotLeft,
    /// A conjunction on the left.
    AndLeft,
    /// A conjunction on the right.
    AndRight,
    /// An implication on the right.
    ImpRight,
    /// An equation of a term with itself.
    EqRefl,
    /// An assignment of a simple expression becomes an update.
    SetSimple,
    /// A `return` in its frame becomes an assignment of the result.
    FrameReturn,
    /// A `catch` round no statement goes away.
    CatchEmpty,
    /// A modality over no statement goes away.
    EmptyCode,
    /// Updates are pushed inward.
    Simplify,
}
