//! What was found by now.

ghost use Rattle.std.specs.Prelude.{◌≡◌, [], map, IfOk};
ghost use Rattle.jd_patterns.specs.Bindings.{bind};
ghost use Rattle.jd_schema_matching.specs.Bound.{answered, looked, met};
ghost use Rattle.jd_schema_matching.specs.PartViews.{bindings, entry_view, part_view, verdict_view};
ghost use Rattle.jd_schema_matching.specs.Tested.{tests};

use crate::compare::{Verdict, compare};
use crate::parts::PartRef;
use crate::tests::same_variable;
use jd_base::NoMemory;
use smallvec::SmallVec;
use std::alloc::Global;

/// A schema variable with what it stands for.
#[derive(Clone, Copy)]
pub struct Entry<'t> {
    /// The variable's name.
    pub name: &'t [u8],
    /// The part.
    pub part: PartRef<'t>,
}

impl<'t> Default for Entry<'t> {
    fn default() -> Entry<'t> {
        Entry {
            name: &[],
            part: PartRef::Label(0),
        }
    }
}

/// The variables that were found, with what they stand for. As many as a row mostly has take no memory.
#[derive(Drop)]
pub struct Found<'t> {
    /// The bindings, in the order in which they were found.
    pub entries: SmallVec<Entry<'t>, 16>,
}

impl<'t> Found<'t> {
    /// Nothing yet.
    pub fn new(alloc: Global) -> Found<'t>
        ensures { bindings result ≡ [] }
    {
        Found {
            entries: SmallVec::new(alloc),
        }
    }
}

// What a binding tells of a variable that is to have a part.
fn met(e: &Entry<'_>, n: &[u8], x: PartRef<'_>) -> Verdict
    ensures { verdict_view result ≡ met (entry_view e.now) n.now (part_view x.entry) }
{
    if same_variable(e.name, n) {
        compare(x, e.part)
    } else {
        Verdict::OtherKind
    }
}

// What the bindings tell of a variable that is to have a part.
fn look(entries: &[Entry<'_>], n: &[u8], x: PartRef<'_>) -> Verdict
    ensures { verdict_view result ≡ looked n.now (part_view x.entry) (map entry_view entries.now) }
{
    for e in entries {
        match met(e, n, x) {
            Verdict::OtherKind => {}
            Verdict::Equal => return Verdict::Equal,
            Verdict::Different => return Verdict::Different,
        }
    }
    Verdict::OtherKind
}

/// Lets the variable stand for the part: whether it does, or did before.
pub fn bind<'t>(n: &'t [u8], x: PartRef<'t>, found: &mut Found<'t>) -> Result<bool, NoMemory>
    ensures { IfOk result (λ b. answered b (bindings found.new) ≡ bind tests n.now (part_view x.entry) (bindings found.old)) }
{
    match look(found.entries.as_slice(), n, x) {
        Verdict::OtherKind => {
            found.entries.push(Entry { name: n, part: x })?;
            Ok(true)
        }
        Verdict::Equal => Ok(true),
        Verdict::Different => Ok(false),
    }
}
