ghost use Rattle.std.specs.Prelude.{◌≡◌};
ghost use Rattle.jd_sequent.specs.declared.bad.Bad.TheVariants.{NoMemory as OutOfMemory};

use jd_base::NoMemory;
use std::alloc::{AllocError, AllocFailed};

/// Why a step is refused, in the order in which the causes are tested.
#[derive(Clone, Copy, PartialEq, Eq, Debug)]
pub enum Bad {
    /// 1: no rule has the name.
    UnknownRule,
    /// 2: the index is past the side, or no place is given where the rule has a find.
    NoFormula,
    /// 3: the path leaves the tree.
    NoPlace,
    /// 4: the rule does not act on such a place.
    WrongPlaceKind,
    /// 5: what stands at the place does not match the rule's find.
    NoMatch,
    /// 6: an instantiation is missing.
    MissingInst,
    /// 7: an instantiation is given twice or unasked, or is not of its form.
    BadInst,
    /// 8: an assumed formula is missing, or does not match.
    NoAssume,
    /// 9: a new name is not new.
    NotFresh,
    /// 10: the rule's condition fails.
    SideCondition,
    /// 11: the called method has no such case.
    NoContract,
    /// 12: the loop has no variant where its end is to be shown.
    NoDecreases,
    /// 13: a premise passes a limit.
    TooLarge,
    /// Memory ran out; this has no number in a report.
    NoMemory,
}

impl From<AllocError> for Bad {
    ghost from_gives = { λ _ e. e ≡ OutOfMemory };

    fn from(_error: AllocError) -> Bad {
        Bad::NoMemory
    }
}

impl<T: Drop> From<AllocFailed<T>> for Bad {
    ghost from_gives = { λ _ e. e ≡ OutOfMemory };

    fn from(_error: AllocFailed<T>) -> Bad {
        Bad::NoMemory
    }
}

impl From<NoMemory> for Bad {
    ghost from_gives = { λ _ e. e ≡ OutOfMemory };

    fn from(_error: NoMemory) -> Bad {
        Bad::NoMemory
    }
}
