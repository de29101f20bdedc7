//! Ways up from the nodes: past the items of a node, from the last to the first, and on to the node above.

ghost use Rattle.std.specs.Prelude.{◌≡◌, ◌≤◌, length, map, IfOk};
ghost use Rattle.std.specs.List.{range_with_len};
ghost use Rattle.std.specs.Bool.{Decides};
ghost use Rattle.jd_ancestry.specs.Ancestors.{AreNodes};
ghost use Rattle.jd_inherited.specs.Places.{AreWays, IsPlace, HaveNodesBelow, height_of, next_place};

use crate::items::Item;
use jd_base::NoMemory;
use std::alloc::Global;

// A place on a way up: at an item, at a node past its items, or above all nodes.
#[derive(Clone, Copy, PartialEq, Eq)]
pub(crate) enum Place {
    AtItem(u32),
    AtNode(u32),
    Top,
}

// Whether two places are one.
pub(crate) fn is_same(one: Place, other: Place) -> bool
    ensures { Decides result (one ≡ other) }
{
    one == other
}

// For each node the place where the way past its items begins, and for each item the place after it.
#[derive(Drop)]
pub(crate) struct Ways {
    pub(crate) starts: Vec<Place>,
    pub(crate) nexts: Vec<Place>,
}

// The places at the nodes.
fn node_places(alloc: Global, nodes: u32) -> Result<Vec<Place>, NoMemory>
    ensures { IfOk result (λ v. v.items ≡ map (λ n. Place.AtNode n) (range_with_len 0 nodes)) }
{
    Ok((0..nodes).map(|n| Place::AtNode(n)).collect(alloc)?)
}

// The ways past the items of each node.
pub(crate) fn ways_past(alloc: Global, items: &[Item], nodes: u32) -> Result<Ways, NoMemory>
    requires within { HaveNodesBelow nodes items.now }
    requires few { length items.now ≤ 4294967294 }
    ensures { IfOk result (λ w. AreWays items.now nodes w.starts.items w.nexts.items) }
{
    let mut starts = node_places(alloc, nodes)?;
    let mut nexts = Vec::new(alloc);
    for (i, item) in items.iter().enumerate() {
        let start = starts[item.node as usize];
        nexts.push(start)?;
        starts[item.node as usize] = Place::AtItem(i as u32);
    }
    Ok(Ways { starts, nexts })
}

// The place after this one.
pub(crate) fn next(parents: &[Option<u32>], items: &[Item], ways: &Ways, place: Place) -> Place
    requires nodes { AreNodes parents.now }
    requires ways { AreWays items.now (length parents.now) ways.now.starts.items ways.now.nexts.items }
    requires place { IsPlace items.now (length parents.now) place }
    ensures { result ≡ next_place parents.now ways.now.starts.items ways.now.nexts.items place }
{
    match place {
        Place::AtItem(i) => ways.nexts[i as usize],
        Place::AtNode(n) => match parents[n as usize] {
            Some(parent) => ways.starts[parent as usize],
            None => Place::Top,
        },
        Place::Top => Place::Top,
    }
}

// How many nodes the way from here passes or stands at.
pub(crate) fn height(depths: &[u32], items: &[Item], place: Place) -> u64
    requires within { HaveNodesBelow (length depths.now) items.now }
    requires place { IsPlace items.now (length depths.now) place }
    ensures { result ≡ height_of depths.now items.now place }
{
    match place {
        Place::AtItem(i) => u64::from(depths[items[i as usize].node as usize]) + 1,
        Place::AtNode(n) => u64::from(depths[n as usize]) + 1,
        Place::Top => 0,
    }
}
