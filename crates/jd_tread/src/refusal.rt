ghost use Rattle.std.specs.Prelude.{◌≡◌};
ghost use Rattle.jd_tread.specs.declared.refusal.TermRefusal.TheVariants.{NoMemory as OutOfMemory};

use jd_base::NoMemory;
use thiserror::Error;

/// Why an expression is no term or no formula: the least that is so of any of its parts, in this order.
#[derive(Clone, Copy, PartialEq, Eq, Debug, Error)]
pub enum TermRefusal {
    /// A part has no form.
    #[error("a part has no form")]
    Syntax,
    /// A name stands for nothing.
    #[error("a name stands for nothing")]
    UnknownSymbol,
    /// A part has another sort than its place asks for.
    #[error("a part has another sort than its place asks for")]
    SortMismatch,
    /// The whole is deeper than 1,000.
    #[error("the whole is deeper than 1000")]
    TooDeep,
    /// Memory ran out.
    #[error("memory ran out")]
    NoMemory,
}

impl From<NoMemory> for TermRefusal {
    ghost from_gives = { λ _ e. e ≡ OutOfMemory };

    fn from(_error: NoMemory) -> TermRefusal {
        TermRefusal::NoMemory
    }
}
