ghost use Rattle.std.specs.Prelude.{◌≡◌};
ghost use Rattle.jd_jheads.specs.declared.refusal.HeadRefusal.TheVariants.{NoMemory as OutOfMemory};

use jd_base::NoMemory;
use std::alloc::{AllocError, AllocFailed};

/// Why the heads of the classes are no program's. A place is the file's number and an offset in it.
#[derive(Clone, Copy, PartialEq, Eq)]
pub enum HeadRefusal {
    /// The class of this name has the name of an earlier class (JLS 7.6).
    DuplicateClass {
        /// The file's number.
        file: u32,
        /// Where the name stands.
        at: u32,
    },
    /// What the class extends does not exist (JLS 8.1.4).
    UnknownSuper {
        /// The file's number.
        file: u32,
        /// Where the name behind `extends` stands.
        at: u32,
    },
    /// The class is its own ancestor (JLS 8.1.4).
    CyclicExtends {
        /// The file's number.
        file: u32,
        /// Where the class's name stands.
        at: u32,
    },
    /// Memory ran out.
    NoMemory,
}

impl From<NoMemory> for HeadRefusal {
    ghost from_gives = { λ _ e. e ≡ OutOfMemory };

    fn from(_error: NoMemory) -> HeadRefusal {
        HeadRefusal::NoMemory
    }
}

impl<T: Drop> From<AllocFailed<T>> for HeadRefusal {
    ghost from_gives = { λ _ e. e ≡ OutOfMemory };

    fn from(_error: AllocFailed<T>) -> HeadRefusal {
        HeadRefusal::NoMemory
    }
}

impl From<AllocError> for HeadRefusal {
    ghost from_gives = { λ _ e. e ≡ OutOfMemory };

    fn from(_error: AllocError) -> HeadRefusal {
        HeadRefusal::NoMemory
    }
}
