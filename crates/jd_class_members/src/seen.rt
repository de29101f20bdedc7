//! The methods that are members of a class.

ghost use Rattle.std.specs.Prelude.{◌≡◌, ◌<◌, IfOk, List, OnOk, [], map};
ghost use Rattle.jd_bodies.specs.Declarations.{AreDeclarations};
ghost use Rattle.jd_class_members.specs.Distinct.{all_inserted, inserted};
ghost use Rattle.jd_classes.specs.Tables.{AreTables, class_count_of};
ghost use Rattle.jd_jinfos.specs.Views.{method_number};
ghost use Rattle.jd_jml_cases.specs.Cases.{lineage};
ghost use Rattle.jd_programs.specs.Members as plain;
ghost use Rattle.jd_programs.specs.Members.{routine_name};
ghost use Rattle.jd_syntax.specs.JavaTrees.{JavaUnit};

use crate::along::{add_members, name_at};
use crate::distinct::{insert, methods_of};
use indexmap::IndexSet;
use jd_base::{ClassId, MethodId, NoMemory};
use jd_classes::Classes;
use jd_naming::Declares;
use std::alloc::Global;

// Puts the method that the class sees by the name of another behind those found, where it is none of them.
fn add_seen<D: Declares>(
    d: &D,
    classes: &Classes,
    found: &mut IndexSet<u32>,
    class: u32,
    m: u32,
) -> Result<(), NoMemory>
    ensures { (units : List JavaUnit) → AreTables units classes.now
        → OnOk result (found.new.keys ≡ inserted found.old.keys ((D.declarations d.now).method class (routine_name units m))) }
{
    match d.method(class, name_at(classes, m)) {
        None => Ok(()),
        Some(k) => insert(found, k),
    }
}

// The same of each of them.
fn add_all_seen<D: Declares>(
    d: &D,
    classes: &Classes,
    found: &mut IndexSet<u32>,
    class: u32,
    ms: &[MethodId],
) -> Result<(), NoMemory>
    ensures { (units : List JavaUnit) → AreTables units classes.now
        → OnOk result (found.new.keys ≡ all_inserted (λ m. (D.declarations d.now).method class (routine_name units m)) found.old.keys (map method_number ms.now)) }
{
    for m in ms {
        add_seen(d, classes, found, class, m.0)?;
    }
    Ok(())
}

// The methods that the class sees by the names of these, each once.
fn distinct_seen<D: Declares>(
    alloc: Global,
    d: &D,
    classes: &Classes,
    class: u32,
    ms: &[MethodId],
) -> Result<Vec<MethodId>, NoMemory>
    ensures { (units : List JavaUnit) → AreTables units classes.now
        → IfOk result (λ v. map method_number v.items ≡ all_inserted (λ m. (D.declarations d.now).method class (routine_name units m)) [] (map method_number ms.now)) }
{
    let mut found = IndexSet::new(alloc);
    add_all_seen(d, classes, &mut found, class, ms)?;
    methods_of(alloc, found.as_slice())
}

/// The methods that are members of a class (JLS 8.2, 8.4.8): those of the topmost class first, in the order of their declaration; a method
/// that overrides another stands in that one's place, and a static method is one of its own class alone. Time grows as the number of
/// methods that the class and those above it declare.
///
/// # Errors
///
/// `NoMemory` if memory runs out.
pub fn methods_seen<D: Declares>(
    alloc: Global,
    d: &D,
    classes: &Classes,
    class: ClassId,
) -> Result<Vec<MethodId>, NoMemory>
    requires tables { (units : List JavaUnit) × AreTables units classes.now }
    requires class { class.0 < class_count_of classes.now }
    ensures { (units : List JavaUnit) → AreTables units classes.now → AreDeclarations units (D.declarations d.now)
        → IfOk result (λ v. map method_number v.items ≡ plain.methods_seen units (lineage units) (D.declarations d.now) class.0) }
{
    let mut members = Vec::new(alloc);
    add_members(
        classes,
        &mut members,
        class.0,
        classes.class_count(),
        Some(class.0),
    )?;
    distinct_seen(alloc, d, classes, class.0, &members)
}
