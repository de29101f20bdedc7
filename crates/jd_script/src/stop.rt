use crate::draft::Part;

/// How many steps a proof may have, and how many levels of brackets the expressions of its instantiations.
#[derive(Clone, Copy)]
pub(crate) struct Limits {
    pub steps: usize,
    pub levels: usize,
}

/// Why no file within the limits goes on with a token.
#[derive(Clone, Copy)]
pub(crate) enum Stop {
    /// None does, whatever the limits.
    Wrong,
    /// The version is another.
    Version,
    /// A proof has that name.
    Duplicate,
    /// The proof would have too many steps.
    TooManySteps,
    /// The expression would have too many levels.
    TooDeep,
}

/// What a token of a proof leads to.
#[derive(Clone, Copy)]
pub(crate) enum PartTurn {
    /// What comes next.
    Goes(Part),
    /// That it is refused.
    Stops(Stop),
}
