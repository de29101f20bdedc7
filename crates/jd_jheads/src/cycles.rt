//! Classes that are their own ancestors.

ghost use Rattle.std.specs.Prelude.{◌≡◌, ◌≤◌, map, length, IfErr, OnOk};
ghost use Rattle.jd_jheads.specs.Firsts.{CycleRefused, NoneOnCycle};
ghost use Rattle.jd_jheads.specs.Names.{parents_with};
ghost use Rattle.jd_jheads.specs.Placed.{placed_view};

use crate::placed::Placed;
use crate::refusal::HeadRefusal;
use jd_ancestry::first_above_itself;
use std::alloc::Global;

// How many classes are always there; of them none is its own ancestor.
const PRELUDE_COUNT: usize = 10;

// That no class is its own ancestor (JLS 8.1.4).
pub(crate) fn check_cycles(
    alloc: Global,
    classes: &[Placed],
    parents: &[Option<u32>],
) -> Result<(), HeadRefusal>
    requires few { length classes.now ≤ 999999999 }
    requires parents { parents.now ≡ parents_with (map placed_view classes.now) }
    ensures no_cycle { OnOk result (NoneOnCycle (map placed_view classes.now)) }
    ensures refused { IfErr result (CycleRefused (map placed_view classes.now)) }
{
    let Some(number) = first_above_itself(alloc, parents)? else {
        return Ok(());
    };
    let placed = classes[number as usize - PRELUDE_COUNT];
    Err(HeadRefusal::CyclicExtends {
        file: placed.file,
        at: placed.class.name.at,
    })
}
