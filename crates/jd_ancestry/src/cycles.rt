ghost use Rattle.std.specs.Prelude.{◌≡◌, ◌≢◌, ℕ, ◌+◌, ◌<◌, ◌≤◌, length, slice_index, IfOk, MatchOption};
ghost use Rattle.jd_ancestry.specs.Ancestors.{Above, AreNodes, HasNoCycle};
ghost use Rattle.jd_ancestry.specs.Walks.{IsMarked};

use crate::walks::walk_up;
use jd_base::NoMemory;
use std::alloc::Global;

// Walks up from a node, and marks the cycle that the walk comes round, if there is one.
fn mark_from(parents: &[Option<u32>], stamps: &mut [u32], marks: &mut [u32], start: u32)
    requires nodes { AreNodes parents.now }
    requires few { length parents.now ≤ 4294967294 }
    requires start { start < length parents.now }
    requires marked { IsMarked parents.now stamps.old marks.old start }
    ensures { IsMarked parents.now stamps.new marks.new (start + 1) }
{
    let stamp = start + 1;
    let walk = walk_up(parents, stamps, start, stamp);
    let Some(node) = walk.end else {
        return;
    };
    if stamps[node as usize] != stamp {
        return;
    }
    walk_up(parents, marks, node, 1);
}

// The first node that is marked.
fn first_marked(marks: &[u32]) -> Option<u32>
    requires { length marks.now ≤ 4294967294 }
    ensures { MatchOption result ((j : ℕ) → j < length marks.now → slice_index marks.now j ≡ 0)
        (λ i. (slice_index marks.now i ≢ 0) × ((j : ℕ) → j < i → slice_index marks.now j ≡ 0)) }
{
    for node in 0..marks.len() as u32 {
        if marks[node as usize] != 0 {
            return Some(node);
        }
    }
    None
}

/// The first node that stands above itself, in time and memory that grow as the number of nodes.
///
/// # Errors
///
/// `NoMemory` if memory runs out.
pub fn first_above_itself(alloc: Global, parents: &[Option<u32>]) -> Result<Option<u32>, NoMemory>
    requires nodes { AreNodes parents.now }
    requires few { length parents.now ≤ 4294967294 }
    ensures { IfOk result (λ first. MatchOption first (HasNoCycle parents.now)
        (λ i. Above parents.now i i × ((j : ℕ) → j < i → Above parents.now j j → ⊥))) }
{
    let mut stamps = vec![in alloc; 0u32; parents.len()]?;
    let mut marks = vec![in alloc; 0u32; parents.len()]?;
    for start in 0..parents.len() as u32 {
        mark_from(parents, &mut stamps, &mut marks, start);
    }
    Ok(first_marked(&marks))
}
