//! A refused token of a program's bodies or JML.

use jd_bodies::Cause;
use jd_specifications::SpecCause;

/// Why a token is refused.
#[derive(Clone, Copy)]
pub enum Refusal {
    /// It stands in a body, or in what is declared of its method.
    Body(Cause),
    /// It stands in JML.
    Jml(SpecCause),
}

/// A token that no program has at its place.
#[derive(Clone, Copy)]
pub struct Refused {
    /// The number of its file.
    pub file: u32,
    /// Where it stands there, as an offset in bytes.
    pub at: u32,
    /// Why it is refused.
    pub why: Refusal,
}
