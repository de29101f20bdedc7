//! The rows of the nodes' values, filled from the top down.

ghost use Rattle.std.specs.Prelude.{◌≡◌, ◌≢◌, ◌+◌, ◌*◌, ◌≤◌, length, IfOk};
ghost use Rattle.jd_ancestry.specs.Ancestors.{AreNodes};
ghost use Rattle.jd_ancestry.specs.Depths.{IsDepths};
ghost use Rattle.jd_nearest.specs.Nearest.{AreNearest};
ghost use Rattle.jd_nearest.specs.Rows.{IsRowFilled};

use crate::order::by_depth;
use jd_base::NoMemory;
use std::alloc::Global;

// Fills the row of a node from that of its parent, where it has nothing.
fn fill_row(values: &mut [Option<u32>], width: usize, node: usize, parent: usize)
    requires distinct { parent ≢ node }
    requires node { node * width + width ≤ length values.old }
    requires parent { parent * width + width ≤ length values.old }
    ensures { IsRowFilled width values.old values.new node parent }
{
    for k in 0..width {
        let cell = node * width + k;
        values[cell] = values[cell].or(values[parent * width + k]);
    }
}

/// For each node and column the value of the nearest among the node and those above it that has one.
/// The values of a node stand in a row of `width`, and the rows one behind the other. This takes the
/// time of a walk over the values and of a sort of the nodes.
///
/// # Errors
///
/// `NoMemory` if memory runs out.
pub fn nearest_values(
    alloc: Global,
    parents: &[Option<u32>],
    depths: &[u32],
    width: usize,
    own: Vec<Option<u32>>,
) -> Result<Vec<Option<u32>>, NoMemory>
    requires few { length parents.now ≤ 4294967294 }
    requires nodes { AreNodes parents.now }
    requires depths { IsDepths parents.now depths.now }
    requires cells { length own.items ≡ length parents.now * width }
    ensures { IfOk result (λ v. AreNearest parents.now width own.items v.items) }
{
    let order = by_depth(alloc, depths)?;
    let mut values = own;
    for (_, node) in &order {
        if let Some(parent) = parents[*node as usize] {
            fill_row(&mut values, width, *node as usize, parent as usize);
        }
    }
    Ok(values)
}
