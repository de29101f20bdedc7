//! Why the JML of files is no program's.

ghost use Rattle.std.specs.Prelude.{◌≡◌, Some};
ghost use Rattle.jd_jml_refusals.specs.First.{refused_view};
ghost use Rattle.jd_jmlcheck.specs.Views.{refusal_view};

use jd_jml_refusals::Refused;
use jd_specifications::SpecCause;
use std::error::Error;
use std::fmt;

/// Why the JML of files is no program's. A place is the file's number and an offset in it. Of two that hold of one token the one that is
/// listed first is told.
#[derive(Clone, Copy, PartialEq, Eq, Debug)]
pub enum SpecRefusal {
    /// A name or class without declaration (JLS 6.5), or one that needs `this` where there is none (JLS 8.4.3.2).
    UnknownName { file: u32, at: u32 },
    /// A value of a type that does not fit its place (JLS 15; JML Reference Manual, 12).
    TypeMismatch { file: u32, at: u32 },
    /// `\result` where there is no result (JML Reference Manual, 12.4.1).
    ResultHere { file: u32, at: u32 },
    /// `\old` or `\fresh` where there is no earlier state, or a local inside `\old` (JML Reference Manual, 12.4.2, 12.4.9).
    OldHere { file: u32, at: u32 },
    /// `\invariant_for` in an invariant (JML Reference Manual, 12.4.22).
    InvariantRecursion { file: u32, at: u32 },
    /// A call.
    CallInSpec { file: u32, at: u32 },
    /// A clause that its case cannot have, or a second one of which there can be one (JML Reference Manual, 9.6, 9.9), or `?:` on
    /// other than truth values.
    BadClause { file: u32, at: u32 },
    /// Memory ran out.
    NoMemory,
}

/// The refusal of a token.
pub(crate) fn of_refused(r: Refused) -> SpecRefusal
    ensures { refusal_view result ≡ Some (refused_view r) }
{
    let file = r.file;
    let at = r.fault.at;
    match r.fault.cause {
        SpecCause::UnknownName => SpecRefusal::UnknownName { file, at },
        SpecCause::TypeMismatch => SpecRefusal::TypeMismatch { file, at },
        SpecCause::ResultHere => SpecRefusal::ResultHere { file, at },
        SpecCause::OldHere => SpecRefusal::OldHere { file, at },
        SpecCause::InvariantRecursion => SpecRefusal::InvariantRecursion { file, at },
        SpecCause::CallInSpec => SpecRefusal::CallInSpec { file, at },
        SpecCause::BadClause => SpecRefusal::BadClause { file, at },
    }
}

impl SpecRefusal {
    // What is wrong, without the place.
    fn cause(&self) -> &'static str {
        match self {
            SpecRefusal::UnknownName { .. } => "a name is not declared",
            SpecRefusal::TypeMismatch { .. } => "a value does not fit its place",
            SpecRefusal::ResultHere { .. } => "there is no result here",
            SpecRefusal::OldHere { .. } => "there is no earlier state here",
            SpecRefusal::InvariantRecursion { .. } => "an invariant speaks of invariants",
            SpecRefusal::CallInSpec { .. } => "a specification calls a method",
            SpecRefusal::BadClause { .. } => "a clause cannot stand here",
            SpecRefusal::NoMemory => "memory ran out",
        }
    }

    // The file's number and the offset in it, where there are any.
    fn place(&self) -> Option<(u32, u32)> {
        match self {
            SpecRefusal::UnknownName { file, at }
            | SpecRefusal::TypeMismatch { file, at }
            | SpecRefusal::ResultHere { file, at }
            | SpecRefusal::OldHere { file, at }
            | SpecRefusal::InvariantRecursion { file, at }
            | SpecRefusal::CallInSpec { file, at }
            | SpecRefusal::BadClause { file, at } => Some((*file, *at)),
            SpecRefusal::NoMemory => None,
        }
    }
}

impl fmt::Display for SpecRefusal {
    fn fmt<W: fmt::Write>(&self, f: &mut fmt::Formatter<W>) -> fmt::Result {
        match self.place() {
            Some((file, at)) => write!(f, "{} at {} of file {}", self.cause(), at, file),
            None => write!(f, "{}", self.cause()),
        }
    }
}

impl Error for SpecRefusal {}
