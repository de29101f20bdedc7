//! Parts that are made for a step, and what variables stand for with them behind what was found.

ghost use Rattle.std.specs.Prelude.{◌≡◌, ◌++◌, IfOk, OnOk, map};
ghost use Rattle.jd_schema_matching.specs.Bound.{answered};
ghost use Rattle.jd_schema_matching.specs.PartViews.{bindings, entry_view, part_view};
ghost use Rattle.jd_schema_matching.specs.Tested.{tests};
ghost use Rattle.jd_taclet_stages.specs.Stages.{bind_all, going};
ghost use Rattle.jd_taclet_matching.specs.Answers.{Answers};
ghost use Rattle.jd_taclet_matching.specs.OwnedParts.{owned_entry, owned_part};

use crate::answers::ended;
use jd_base::{NoMemory, Sort};
use jd_schema_matching::{Entry, Found, PartRef, bind};
use jd_sequent::Bad;
use jd_syntax::{CodeExpr, Kind, VarId};
use jd_term::{Formula, Term};
use std::alloc::Global;

/// What one schema variable stands for, where no part of the sequent is lent for it.
#[derive(Drop)]
pub enum OwnedPart {
    /// A formula.
    Formula(Formula),
    /// A term.
    Term(Term),
    /// A literal.
    Literal(i128),
    /// A class, or `int[]`.
    Kind(Kind),
    /// A sort.
    Sort(Sort),
    /// A program variable or a constant.
    Name(VarId),
    /// A simple expression.
    Simple(CodeExpr),
}

/// A schema variable with a part of its own.
#[derive(Drop)]
pub struct OwnedEntry<'t> {
    /// The variable's name.
    pub name: &'t [u8],
    /// The part.
    pub part: OwnedPart,
}

// The part, lent.
fn lent(part: &OwnedPart) -> PartRef<'_>
    ensures { part_view result ≡ owned_part part.now }
{
    match part {
        OwnedPart::Formula(a) => PartRef::Formula(a),
        OwnedPart::Term(t) => PartRef::Term(t),
        OwnedPart::Literal(z) => PartRef::Literal(*z),
        OwnedPart::Kind(k) => PartRef::Kind(*k),
        OwnedPart::Sort(s) => PartRef::Sort(*s),
        OwnedPart::Name(x) => PartRef::Name(x),
        OwnedPart::Simple(e) => PartRef::Simple(e),
    }
}

// The part, for a while.
fn lent_again<'s, 't: 's>(x: PartRef<'t>) -> PartRef<'s>
    ensures { part_view result ≡ part_view x.entry }
{
    match x {
        PartRef::Formula(a) => PartRef::Formula(&*a),
        PartRef::Term(t) => PartRef::Term(&*t),
        PartRef::Literal(z) => PartRef::Literal(z),
        PartRef::Locations(l) => PartRef::Locations(&*l),
        PartRef::Kind(k) => PartRef::Kind(k),
        PartRef::Sort(s) => PartRef::Sort(s),
        PartRef::Name(v) => PartRef::Name(&*v),
        PartRef::Result(r) => PartRef::Result(&*r),
        PartRef::Field(f) => PartRef::Field(f),
        PartRef::Class(c) => PartRef::Class(c),
        PartRef::Label(l) => PartRef::Label(l),
        PartRef::Code(c) => PartRef::Code(&*c),
        PartRef::Return(s) => PartRef::Return(&*s),
        PartRef::Simple(e) => PartRef::Simple(&*e),
        PartRef::Modality(m) => PartRef::Modality(m),
        PartRef::Context(c, test) => PartRef::Context(&*c, test),
    }
}

// The binding, for a while.
fn again<'s, 't: 's>(e: &Entry<'t>) -> Entry<'s>
    ensures { entry_view result ≡ entry_view e.now }
{
    Entry {
        name: &*e.name,
        part: lent_again(e.part),
    }
}

// Puts the same bindings behind others.
fn add_again<'s, 't: 's>(found: &Found<'t>, all: &mut Found<'s>) -> Result<(), NoMemory>
    ensures { OnOk result (bindings all.new ≡ bindings all.old ++ bindings found.now) }
{
    for e in found.entries.as_slice() {
        all.entries.push(again(e))?;
    }
    Ok(())
}

// Lets each variable stand for its part: whether all do, or did before.
#[tactic(auto, using(crate::proofs::Binding::binds))]
fn bind_all<'s>(entries: &'s [OwnedEntry<'_>], found: &mut Found<'s>) -> Result<bool, NoMemory>
    ensures { IfOk result (λ b. answered b (bindings found.new) ≡ bind_all tests (map owned_entry entries.now) (bindings found.old)) }
{
    for entry in entries {
        if !bind(&*entry.name, lent(&entry.part), found)? {
            return Ok(false);
        }
    }
    Ok(true)
}

// The same behind the same bindings.
fn bind_behind<'s, 't: 's>(
    found: &Found<'t>,
    entries: &'s [OwnedEntry<'_>],
    all: &mut Found<'s>,
) -> Result<bool, NoMemory>
    ensures { IfOk result (λ b. answered b (bindings all.new) ≡ bind_all tests (map owned_entry entries.now) (bindings all.old ++ bindings found.now)) }
{
    add_again(found, all)?;
    bind_all(entries, all)
}

/// What the variables stand for with these parts, beside what was found before.
///
/// # Errors
///
/// This cause, if a variable had another part; `NoMemory` if memory runs out.
pub fn bound_behind<'s, 't: 's>(
    alloc: Global,
    found: &Found<'t>,
    entries: &'s [OwnedEntry<'_>],
    otherwise: Bad,
) -> Result<Found<'s>, Bad>
    ensures { Answers bindings result (going otherwise (bind_all tests (map owned_entry entries.now) (bindings found.now))) }
{
    let mut all = Found::new(alloc);
    let whole = bind_behind(found, entries, &mut all);
    ended(whole, all, otherwise)
}
