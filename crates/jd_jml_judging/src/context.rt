//! Where expressions and clauses stand.

ghost use Rattle.std.specs.Prelude.{◌≡◌, false};
ghost use Rattle.jd_jml_judging.specs.Contexts.{context_view, placed, sofar_view};
ghost use Rattle.jd_specifications.specs.Clauses as plain;

use crate::method_names::MethodNames;
use jd_bodies::{Place, ValueType};

/// Where an expression stands.
#[derive(Clone, Copy)]
pub(crate) struct Context {
    /// In which class, and whether there is no `this`.
    pub(crate) place: Place,
    /// The type of `\result`, where it may stand.
    pub(crate) result: Option<ValueType>,
    /// Whether `\old` and `\fresh` may stand.
    pub(crate) old: bool,
    /// Whether `\invariant_for` may stand.
    pub(crate) invariants: bool,
}

/// Where a clause stands.
#[derive(Clone, Copy)]
pub struct Around<'a, D> {
    /// What the program declares.
    pub declared: &'a D,
    /// The parameters and locals in scope.
    pub names: &'a MethodNames,
    /// In which class, and whether there is no `this`.
    pub place: Place,
    /// What the method gives.
    pub result: Option<ValueType>,
}

/// The behaviour word of a case (JML Reference Manual, 9.6).
#[derive(Clone, Copy, PartialEq, Eq)]
pub enum Word {
    /// None, or `behavior`.
    Any,
    /// `normal_behavior`
    Normal,
    /// `exceptional_behavior`
    Exceptional,
}

/// What the clauses of a case or of a loop say so far.
#[derive(Clone, Copy)]
pub struct Sofar {
    /// The behaviour word.
    pub word: Word,
    /// Whether there is a measure.
    pub measure: bool,
    /// Whether there is a `diverges`.
    pub diverges: bool,
}

/// Nothing is said yet.
pub fn at_first() -> Sofar
    ensures { sofar_view result ≡ plain.at_first }
{
    Sofar {
        word: Word::Any,
        measure: false,
        diverges: false,
    }
}

/// Whether a method may return in such a case.
pub(crate) fn may_return(sofar: Sofar) -> bool
    ensures { result ≡ plain.may_return (sofar_view sofar).word }
{
    match sofar.word {
        Word::Any | Word::Normal => true,
        Word::Exceptional => false,
    }
}

/// Whether a method may throw in such a case.
pub(crate) fn may_throw(sofar: Sofar) -> bool
    ensures { result ≡ plain.may_throw (sofar_view sofar).word }
{
    match sofar.word {
        Word::Any | Word::Exceptional => true,
        Word::Normal => false,
    }
}

/// Before the method runs there is no earlier state.
pub(crate) fn before(place: Place) -> Context
    ensures { context_view result ≡ plain.before (placed place None) }
{
    Context {
        place,
        result: None,
        old: false,
        invariants: true,
    }
}

/// Behind a return there may be a result.
pub(crate) fn behind(place: Place, value: Option<ValueType>) -> Context
    ensures { context_view result ≡ plain.behind (placed place value) }
{
    Context {
        place,
        result: value,
        old: true,
        invariants: true,
    }
}

/// Behind a throw, in a loop, and where locations are named, there is none.
pub(crate) fn elsewhere(place: Place) -> Context
    ensures { context_view result ≡ plain.elsewhere (placed place None) }
{
    Context {
        place,
        result: None,
        old: true,
        invariants: true,
    }
}

/// In an invariant there is `this`, and there are no other invariants.
pub(crate) fn in_invariant(class: u32) -> Context
    ensures { context_view result ≡ plain.in_invariant (placed (record { class = class; is_static = false }) None) }
{
    Context {
        place: Place {
            class,
            is_static: false,
        },
        result: None,
        old: false,
        invariants: false,
    }
}
