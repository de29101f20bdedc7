//! Instantiations: what the variables of a row stand for.

ghost use Rattle.std.specs.Prelude.{◌≡◌, IfOk, map};
ghost use Rattle.jd_schema.specs.Parts.{insts_view, part};
ghost use Rattle.jd_schema_matching.specs.PartViews.{bindings, entry_view};

use crate::part::Part;
use jd_base::{NoMemory, both, copy_bytes};
use jd_schema_matching::{Entry, Found};
use std::alloc::Global;

/// What each variable stands for. Each has its name once.
#[derive(Drop)]
pub struct Insts {
    /// The variables' names, and their parts.
    pub pairs: Vec<(Vec<u8>, Part)>,
}

// The variable of the entry, with a part of its own.
fn pair(alloc: Global, e: &Entry<'_>) -> Result<(Vec<u8>, Part), NoMemory>
    ensures { IfOk result (λ p. (p.0.items, part p.1) ≡ entry_view e.now) }
{
    both(copy_bytes(alloc, e.name), Part::of(alloc, e.part))
}

fn pairs(alloc: Global, entries: &[Entry<'_>]) -> Result<Vec<(Vec<u8>, Part)>, NoMemory>
    ensures { IfOk result (λ v. map (λ p. (p.0.items, part p.1)) v.items ≡ map entry_view entries.now) }
{
    let mut made = Vec::with_capacity(alloc, entries.len())?;
    for e in entries {
        made.push(pair(alloc, e)?)?;
    }
    Ok(made)
}

impl Insts {
    /// Copies of what was found. The error is `NoMemory` alone.
    pub fn of(alloc: Global, found: &Found<'_>) -> Result<Insts, NoMemory>
        ensures { IfOk result (λ i. insts_view i ≡ bindings found.now) }
    {
        let pairs = pairs(alloc, found.entries.as_slice())?;
        Ok(Insts { pairs })
    }

    /// The parts, lent. The error is `NoMemory` alone.
    pub fn lent(&self, alloc: Global) -> Result<Found<'_>, NoMemory>
        ensures { IfOk result (λ f. bindings f ≡ insts_view self.now) }
    {
        let mut found = Found::new(alloc);
        for p in &self.pairs {
            found.entries.push(Entry {
                name: &p.0,
                part: p.1.lent(),
            })?;
        }
        Ok(found)
    }
}
