//! What each class extends, by the classes' numbers.

ghost use Rattle.std.specs.Prelude.{◌≡◌, ◌++◌, ◌≤◌, Some, map, length, IfOk, IfErr, OnOk};
ghost use Rattle.jd_jclasses.specs.Classes.{parent_by};
ghost use Rattle.jd_jheads.specs.Firsts.{IsUnknownSuper, SuperRefused, SupersAreKnown};
ghost use Rattle.jd_jheads.specs.Names.{name_list, names_with, parents_of, parents_with};
ghost use Rattle.jd_jheads.specs.Placed.{placed_view};

use crate::names::class_number;
use crate::placed::Placed;
use crate::refusal::HeadRefusal;
use indexmap::IndexSet;
use std::alloc::Global;

// What the classes that are always there extend, by their numbers (JLS 11.1.1).
const PRELUDE_PARENTS: [Option<u32>; 10] = [
    None,
    Some(0),
    Some(1),
    Some(2),
    Some(3),
    Some(3),
    Some(3),
    Some(3),
    Some(3),
    Some(6),
];

// The number of the class that a class extends: `Object` where nothing is written (JLS 8.1.4).
fn parent_number(names: &IndexSet<Vec<u8>>, placed: &Placed) -> Result<u32, HeadRefusal>
    requires { length names.now.keys ≤ 4294967295 }
    ensures found { IfOk result (λ n. parent_by (name_list names.now) (placed_view placed.now).tree.parent ≡ Some n) }
    ensures refused { IfErr result (IsUnknownSuper (name_list names.now) (placed_view placed.now)) }
{
    let Some(parent) = &placed.class.parent else {
        return Ok(0);
    };
    match class_number(names, &parent.name) {
        Some(number) => Ok(number),
        None => Err(HeadRefusal::UnknownSuper {
            file: placed.file,
            at: parent.at,
        }),
    }
}

// Adds what the classes extend.
fn add_parents(
    names: &IndexSet<Vec<u8>>,
    classes: &[Placed],
    parents: &mut Vec<Option<u32>>,
) -> Result<(), HeadRefusal>
    requires few { length names.now.keys ≤ 4294967295 }
    requires names { name_list names.now ≡ names_with (map placed_view classes.now) }
    ensures parents { OnOk result (parents.new.items ≡ parents.old.items ++ parents_of (map placed_view classes.now)) }
    ensures known { OnOk result (SupersAreKnown (map placed_view classes.now)) }
    ensures refused { IfErr result (SuperRefused (map placed_view classes.now)) }
{
    for placed in classes {
        let number = parent_number(names, placed)?;
        parents.push(Some(number))?;
    }
    Ok(())
}

// What each class extends.
pub(crate) fn read_parents(
    alloc: Global,
    names: &IndexSet<Vec<u8>>,
    classes: &[Placed],
) -> Result<Vec<Option<u32>>, HeadRefusal>
    requires few { length names.now.keys ≤ 4294967295 }
    requires names { name_list names.now ≡ names_with (map placed_view classes.now) }
    ensures parents { IfOk result (λ parents. parents.items ≡ parents_with (map placed_view classes.now)) }
    ensures known { OnOk result (SupersAreKnown (map placed_view classes.now)) }
    ensures refused { IfErr result (SuperRefused (map placed_view classes.now)) }
{
    let mut parents = PRELUDE_PARENTS.to_vec(alloc)?;
    add_parents(names, classes, &mut parents)?;
    Ok(parents)
}
