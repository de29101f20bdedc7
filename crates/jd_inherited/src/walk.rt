//! Walks from one place to another, which keep the counts of the items on the way up.

ghost use Rattle.std.specs.Prelude.{◌≡◌, ◌≤◌, length};
ghost use Rattle.jd_ancestry.specs.Ancestors.{AreNodes};
ghost use Rattle.jd_ancestry.specs.Depths.{IsDepths};
ghost use Rattle.jd_inherited.specs.Items.{AreItems};
ghost use Rattle.jd_inherited.specs.Places.{AreWays, IsPlace};
ghost use Rattle.jd_inherited.specs.Tallies.{AreCounts, tally};

use crate::counts::Counts;
use crate::items::Item;
use crate::places::{Place, Ways, height, is_same, next};
use jd_ancestry::Forest;

// Makes counts of the items on the way up from one place counts of those on the way up from another: what
// the ways have not in common is taken out, or counted.
pub(crate) fn walk(
    counts: &mut Counts,
    forest: Forest<'_>,
    items: &[Item],
    ways: &Ways,
    mut from: Place,
    mut to: Place,
)
    requires nodes { AreNodes forest.parents.now }
    requires depths { IsDepths forest.parents.now forest.depths.now }
    requires items { AreItems (length forest.parents.now) (length counts.old.keys.items) (length counts.old.variants.items) items.now }
    requires few { length items.now ≤ 4294967294 }
    requires ways { AreWays items.now (length forest.parents.now) ways.now.starts.items ways.now.nexts.items }
    requires from { IsPlace items.now (length forest.parents.now) from }
    requires to { IsPlace items.now (length forest.parents.now) to }
    requires counted { AreCounts items.now (tally forest.parents.now forest.depths.now items.now from) counts.old.keys.items counts.old.variants.items }
    ensures key_count { length counts.new.keys.items ≡ length counts.old.keys.items }
    ensures variant_count { length counts.new.variants.items ≡ length counts.old.variants.items }
    ensures counted { AreCounts items.now (tally forest.entry.parents.now forest.entry.depths.now items.now to) counts.new.keys.items counts.new.variants.items }
{
    while !is_same(from, to) {
        if height(forest.depths, items, from) >= height(forest.depths, items, to) {
            counts.remove(items, from);
            from = next(forest.parents, items, ways, from);
        } else {
            counts.add(items, to);
            to = next(forest.parents, items, ways, to);
        }
    }
}
