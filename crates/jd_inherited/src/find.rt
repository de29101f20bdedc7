//! The first item that disagrees with one of a node above its own.

ghost use Rattle.std.specs.Prelude.{◌≡◌, ℕ, ◌≤◌, length, IfOk, MatchOption, slice_index};
ghost use Rattle.jd_ancestry.specs.Ancestors.{AreNodes};
ghost use Rattle.jd_ancestry.specs.Depths.{IsDepths};
ghost use Rattle.jd_inherited.specs.Disagreements.{IsFirst, NoneDisagrees};
ghost use Rattle.jd_inherited.specs.Items.{AreItems, HaveOneKey};
ghost use Rattle.jd_inherited.specs.Orders.{IsOrder, lesser_of};
ghost use Rattle.jd_inherited.specs.Places.{AreWays};

use crate::counts::Counts;
use crate::items::Item;
use crate::order::in_order;
use crate::places::{Place, Ways, next, ways_past};
use crate::walk::walk;
use jd_ancestry::Forest;
use jd_base::NoMemory;
use std::alloc::Global;

// The lesser of two indices, of which the one may be missing.
fn lesser(first: Option<u32>, i: u32) -> u32
    ensures { result ≡ lesser_of first i }
{
    match first {
        Some(first) => first.min(i),
        None => i,
    }
}

// The least index of an item that disagrees. The counts go along, from the place above one item to the
// place above the next in the order.
fn search(
    counts: &mut Counts,
    forest: Forest<'_>,
    items: &[Item],
    ways: &Ways,
    order: &[(u32, u32)],
) -> Option<u32>
    requires few { length items.now ≤ 4294967294 }
    requires nodes { AreNodes forest.parents.now }
    requires depths { IsDepths forest.parents.now forest.depths.now }
    requires items { AreItems (length forest.parents.now) (length counts.old.keys.items) (length counts.old.variants.items) items.now }
    requires one_key { HaveOneKey items.now }
    requires ways { AreWays items.now (length forest.parents.now) ways.now.starts.items ways.now.nexts.items }
    requires order { IsOrder (length items.now) order.now }
    requires no_key { (k : ℕ) → slice_index counts.old.keys.items k ≡ 0 }
    requires no_variant { (v : ℕ) → slice_index counts.old.variants.items v ≡ 0 }
    ensures { MatchOption result (NoneDisagrees forest.entry.parents.now items.now) (λ i. IsFirst forest.entry.parents.now items.now i) }
{
    let mut place = Place::Top;
    let mut first: Option<u32> = None;
    for (_, i) in order {
        let item = items[*i as usize];
        let above = next(forest.parents, items, ways, Place::AtNode(item.node));
        walk(counts, forest, items, ways, place, above);
        place = above;
        if counts.differ(item) {
            first = Some(lesser(first, *i));
        }
    }
    first
}

/// The first item such that an item of a node above its own has the same key and another variant.
///
/// The nodes of the items are among these of `forest`, their keys are below `keys` and their variants
/// below `variants`, and items of one variant have one key. It takes time in these counts and lengths, and
/// in a sort of the items.
///
/// # Errors
///
/// `NoMemory` if memory runs out.
pub fn first_disagreeing(
    alloc: Global,
    forest: Forest<'_>,
    items: &[Item],
    keys: u32,
    variants: u32,
) -> Result<Option<u32>, NoMemory>
    requires few_nodes { length forest.parents.now ≤ 4294967294 }
    requires few_items { length items.now ≤ 4294967294 }
    requires nodes { AreNodes forest.parents.now }
    requires depths { IsDepths forest.parents.now forest.depths.now }
    requires items { AreItems (length forest.parents.now) keys variants items.now }
    requires one_key { HaveOneKey items.now }
    ensures { IfOk result (λ first. MatchOption first (NoneDisagrees forest.entry.parents.now items.now)
        (λ i. IsFirst forest.entry.parents.now items.now i)) }
{
    let ways = ways_past(alloc, items, forest.parents.len() as u32)?;
    let order = in_order(alloc, forest.parents, items)?;
    let mut counts = Counts::new(alloc, keys, variants)?;
    Ok(search(&mut counts, forest, items, &ways, &order))
}
