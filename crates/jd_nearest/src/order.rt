//! The nodes in an order in which each stands behind those above it.

ghost use Rattle.std.specs.Prelude.{◌≤◌, length, IfOk};
ghost use Rattle.jd_nearest.specs.Orders.{IsByDepth};

use jd_base::NoMemory;
use std::alloc::Global;

// The nodes, each behind its depth, the lesser depths first.
pub(crate) fn by_depth(alloc: Global, depths: &[u32]) -> Result<Vec<(u32, u32)>, NoMemory>
    requires few { length depths.now ≤ 4294967294 }
    ensures { IfOk result (λ v. IsByDepth depths.now v.items) }
{
    let mut order = Vec::new(alloc);
    for (node, depth) in depths.iter().enumerate() {
        order.push((*depth, node as u32))?;
    }
    order.sort_unstable_by_key(|p| p.0);
    Ok(order)
}
