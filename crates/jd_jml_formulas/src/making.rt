//! What expressions speak of.

ghost use Rattle.jd_jml_formulas.specs.Spellings.{spelling_view, when_view};
ghost use Rattle.jd_sized_makers.specs.Made.{IsTerm};
ghost use Rattle.jd_jml_formulas.specs.Spellings.{argument_in};

use jd_jml_known::Sight;
use jd_naming::Declares;
use jd_sized_makers::{MadeTerm, copied, number};
use jd_term::Term;
use std::alloc::Global;

/// Now, or before the method ran.
#[derive(Clone, Copy)]
pub enum When {
    /// Now.
    Now,
    /// Before the method ran.
    Before,
}

/// The closed terms that stand for what expressions speak of.
#[derive(Drop)]
pub struct Spelled {
    /// The heap now.
    pub now: Term,
    /// The heap before the method ran.
    pub before: Term,
    /// The arguments now, by position.
    pub arguments: Vec<Term>,
    /// The arguments before the method ran, by position.
    pub arguments_before: Vec<Term>,
    /// `this`
    pub this: Term,
    /// `\result`
    pub value: Term,
    /// The exception of a `signals`.
    pub thrown: Term,
}

/// What a formula is made with.
#[derive(Clone, Copy)]
pub struct Making<'a, D> {
    /// Where memory is taken.
    pub alloc: Global,
    /// What the expression sees beside the names in scope.
    pub sight: Sight<'a, D>,
    /// What it speaks of.
    pub spelled: &'a Spelled,
    /// How many nodes a formula may have.
    pub limit: u32,
}

/// The heap.
pub(crate) fn heap<D: Declares>(m: &Making<'_, D>, t: When) -> MadeTerm
    ensures { IsTerm result ((spelling_view m.now.spelled.now).heap (when_view t)) }
{
    match t {
        When::Now => copied(m.alloc, &m.spelled.now),
        When::Before => copied(m.alloc, &m.spelled.before),
    }
}

// The term at the position, or 0.
fn argument_of(alloc: Global, arguments: &[Term], position: u32) -> MadeTerm
    ensures { IsTerm result (argument_in arguments.now position) }
{
    let position = position as usize;
    if position < arguments.len() {
        copied(alloc, &arguments[position])
    } else {
        number(0)
    }
}

/// The argument at the position.
pub(crate) fn argument<D: Declares>(m: &Making<'_, D>, t: When, position: u32) -> MadeTerm
    ensures { IsTerm result ((spelling_view m.now.spelled.now).argument (when_view t) position) }
{
    match t {
        When::Now => argument_of(m.alloc, &m.spelled.arguments, position),
        When::Before => argument_of(m.alloc, &m.spelled.arguments_before, position),
    }
}
