ghost use Rattle.std.specs.Prelude.{◌≤◌, length, IfOk};
ghost use Rattle.jd_ancestry.specs.Ancestors.{AreNodes};
ghost use Rattle.jd_ancestry.specs.Depths.{IsDepths};
ghost use Rattle.jd_components.specs.Components.{AreComponents};

use crate::numbering::{Components, number_by_first};
use crate::roots::roots;
use jd_base::NoMemory;
use std::alloc::Global;

/// The number of the component of each node: components are nodes tied by standing directly below one
/// another, over as many nodes as may be, and are numbered from 0 in the order of their first nodes.
/// This takes the time of a sort of the nodes.
///
/// # Errors
///
/// `NoMemory` if memory runs out.
pub fn components(
    alloc: Global,
    parents: &[Option<u32>],
    depths: &[u32],
) -> Result<Components, NoMemory>
    requires few { length parents.now ≤ 4294967294 }
    requires nodes { AreNodes parents.now }
    requires depths { IsDepths parents.now depths.now }
    ensures { IfOk result (λ c. AreComponents parents.now c.numbers.items c.count) }
{
    let roots = roots(alloc, parents, depths)?;
    number_by_first(alloc, &roots)
}
