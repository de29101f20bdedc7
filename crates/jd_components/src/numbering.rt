//! Numbers for labels, in the order in which these come.

ghost use Rattle.std.specs.Prelude.{◌≤◌, length, IfOk};
ghost use Rattle.jd_components.specs.Numberings.{AreInside, AreNumbered};

use jd_base::NoMemory;
use std::alloc::Global;

/// The number of the component of each node, and how many components there are.
#[derive(Drop)]
pub struct Components {
    /// For each node the number of its component, below `count`.
    pub numbers: Vec<u32>,
    /// How many components there are.
    pub count: u32,
}

// The number of each label, where they are numbered from 0 in the order in which they first stand here.
pub(crate) fn number_by_first(alloc: Global, labels: &[u32]) -> Result<Components, NoMemory>
    requires few { length labels.now ≤ 4294967294 }
    requires inside { AreInside labels.now }
    ensures { IfOk result (λ c. AreNumbered labels.now c.numbers.items c.count) }
{
    let mut given: Vec<Option<u32>> = vec![in alloc; None; labels.len()]?;
    let mut numbers = Vec::new(alloc);
    let mut count = 0u32;
    for label in labels {
        let number = given[*label as usize].unwrap_or(count);
        given[*label as usize] = Some(number);
        count = count.max(number + 1);
        numbers.push(number)?;
    }
    Ok(Components { numbers, count })
}
