//! The root of each node: the highest node above it, or the node itself where it stands below none.

ghost use Rattle.std.specs.Prelude.{◌≡◌, ◌≤◌, length, map, Some, None, IfOk, MatchOption};
ghost use Rattle.std.specs.Option.{unwrap_or};
ghost use Rattle.jd_ancestry.specs.Ancestors.{AreNodes};
ghost use Rattle.jd_ancestry.specs.Depths.{IsDepths};
ghost use Rattle.jd_components.specs.Roots.{AreRoots, AreTops};

use jd_base::NoMemory;
use jd_nearest::nearest_values;
use std::alloc::Global;

// The number of a node that stands below none.
fn own_number(node: u32, parent: Option<u32>) -> Option<u32>
    ensures { MatchOption parent (result ≡ Some node) (λ p. result ≡ None) }
{
    match parent {
        Some(_) => None,
        None => Some(node),
    }
}

// The number of each node that stands below none, and nothing for the others.
fn tops(alloc: Global, parents: &[Option<u32>]) -> Result<Vec<Option<u32>>, NoMemory>
    requires few { length parents.now ≤ 4294967294 }
    ensures { IfOk result (λ v. AreTops parents.now v.items) }
{
    let mut tops = Vec::new(alloc);
    for (node, parent) in parents.iter().enumerate() {
        tops.push(own_number(node as u32, *parent))?;
    }
    Ok(tops)
}

// The values, with 0 for those that are missing.
fn known(alloc: Global, values: &[Option<u32>]) -> Result<Vec<u32>, NoMemory>
    ensures { IfOk result (λ v. v.items ≡ map (λ o. unwrap_or o 0) values.now) }
{
    Ok(values.iter().map(|v| v.unwrap_or(0)).collect(alloc)?)
}

// The root of each node.
pub(crate) fn roots(
    alloc: Global,
    parents: &[Option<u32>],
    depths: &[u32],
) -> Result<Vec<u32>, NoMemory>
    requires few { length parents.now ≤ 4294967294 }
    requires nodes { AreNodes parents.now }
    requires depths { IsDepths parents.now depths.now }
    ensures { IfOk result (λ v. AreRoots parents.now v.items) }
{
    let tops = tops(alloc, parents)?;
    let values = nearest_values(alloc, parents, depths, 1, tops)?;
    known(alloc, &values)
}
