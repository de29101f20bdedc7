ghost use Rattle.std.specs.Prelude.{◌≡◌, ℕ, ◌+◌, ◌<◌, ◌≤◌, length, slice_index, IfOk, IfSome, MatchOption};
ghost use Rattle.jd_ancestry.specs.Ancestors.{AreNodes, HasNoCycle};
ghost use Rattle.jd_ancestry.specs.Depths.{IsDepths};
ghost use Rattle.jd_ancestry.specs.Walks.{IsFilled, IsNumbered, ancestor};

use crate::walks::walk_up;
use jd_base::NoMemory;
use std::alloc::Global;

// Writes the depths of so many nodes from a node up, of which the uppermost has the depth `lowest`.
fn number_from(parents: &[Option<u32>], depths: &mut [u32], start: u32, count: u32, lowest: u32)
    requires nodes { AreNodes parents.now }
    requires no_cycle { HasNoCycle parents.now }
    requires same { length depths.old ≡ length parents.now }
    requires start { start < length parents.now }
    requires fits { lowest + count ≤ 4294967294 }
    requires reached { (k : ℕ) → k < count → (x : ℕ) × (ancestor parents.now k start ≡ Some x) }
    ensures { IsNumbered parents.now depths.old depths.new start count (lowest + count) }
{
    let mut node = start;
    for step in 0..count {
        depths[node as usize] = lowest + (count - 1 - step);
        node = parents[node as usize].unwrap_or(node);
    }
}

// The depth of what stands directly below this node, or below none.
fn depth_below(depths: &[u32], above: Option<u32>) -> u32
    requires inside { IfSome above (λ a. a < length depths.now) }
    requires fits { IfSome above (λ a. slice_index depths.now a < 4294967295) }
    ensures { MatchOption above (result ≡ 0) (λ a. result ≡ slice_index depths.now a + 1) }
{
    match above {
        Some(node) => depths[node as usize] + 1,
        None => 0,
    }
}

// Walks up from a node, and writes the depths of the nodes of the walk.
fn fill_from(parents: &[Option<u32>], stamps: &mut [u32], depths: &mut [u32], start: u32)
    requires nodes { AreNodes parents.now }
    requires few { length parents.now ≤ 4294967294 }
    requires no_cycle { HasNoCycle parents.now }
    requires start { start < length parents.now }
    requires filled { IsFilled parents.now stamps.old depths.old start }
    ensures { IsFilled parents.now stamps.new depths.new (start + 1) }
{
    let walk = walk_up(parents, stamps, start, 1);
    let lowest = depth_below(depths, walk.end);
    number_from(parents, depths, start, walk.count, lowest);
}

/// How many nodes stand above each, in time and memory that grow as the number of nodes.
///
/// # Errors
///
/// `NoMemory` if memory runs out.
pub fn depths(alloc: Global, parents: &[Option<u32>]) -> Result<Vec<u32>, NoMemory>
    requires nodes { AreNodes parents.now }
    requires few { length parents.now ≤ 4294967294 }
    requires no_cycle { HasNoCycle parents.now }
    ensures { IfOk result (λ v. IsDepths parents.now v.items) }
{
    let mut stamps = vec![in alloc; 0u32; parents.len()]?;
    let mut depths = vec![in alloc; 0u32; parents.len()]?;
    for start in 0..parents.len() as u32 {
        fill_from(parents, &mut stamps, &mut depths, start);
    }
    Ok(depths)
}
