//! The fields of a class's objects, with their sorts.

ghost use Rattle.std.specs.Prelude.{◌≡◌, ◌++◌, ◌<◌, ◌∷◌, [], IfOk, IfSome, List, OnOk, map, length};
ghost use Rattle.jd_ancestry.specs.Walks.{parent_of};
ghost use Rattle.jd_case_tables.specs.Fielded.{all_sorted, own_sorted, sorted};
ghost use Rattle.jd_classes.specs.Tables.{AreTables, class_count_of};
ghost use Rattle.jd_jclasses.specs.Classes.{parents};
ghost use Rattle.jd_jinfos.specs.Views.{field_number};
ghost use Rattle.jd_jml_cases.specs.Cases.{classes_up, lineage};
ghost use Rattle.jd_row_makers.specs.Heads.{field_view};
ghost use Rattle.jd_syntax.specs.JavaTrees.{JavaUnit};

use jd_base::{ClassId, FieldId, NoMemory, Sort};
use jd_classes::Classes;
use jd_jml_known::sort_of_value;
use jd_judging::type_by;
use jd_lists::put;
use jd_naming::Declares;
use jd_row_makers::FieldSort;
use std::alloc::Global;

// The sort of a field.
fn sort_at<D: Declares>(d: &D, classes: &Classes, f: FieldId) -> Sort
    ensures { (units : List JavaUnit) → AreTables units classes.now → result ≡ (sorted units (D.declarations d.now) f.0).1 }
{
    if (f.0 as usize) < classes.field_count() {
        sort_of_value(type_by(d, &classes.field(f).ty))
    } else {
        Sort::Int
    }
}

// Adds a field.
fn add_field<D: Declares>(
    d: &D,
    classes: &Classes,
    to: &mut Vec<FieldSort>,
    f: FieldId,
) -> Result<(), NoMemory>
    ensures { (units : List JavaUnit) → AreTables units classes.now → OnOk result (map field_view to.new.items ≡ map field_view to.old.items ++ sorted units (D.declarations d.now) f.0 ∷ []) }
{
    put(
        to,
        FieldSort {
            field: f,
            sort: sort_at(d, classes, f),
        },
    )
}

// Adds fields.
fn add_each<D: Declares>(
    d: &D,
    classes: &Classes,
    to: &mut Vec<FieldSort>,
    fs: &[FieldId],
) -> Result<(), NoMemory>
    ensures { (units : List JavaUnit) → AreTables units classes.now
        → OnOk result (map field_view to.new.items ≡ map field_view to.old.items ++ map (sorted units (D.declarations d.now)) (map field_number fs.now)) }
{
    for f in fs {
        add_field(d, classes, to, *f)?;
    }
    Ok(())
}

// Adds those that a class declares itself.
fn add_own<D: Declares>(
    d: &D,
    classes: &Classes,
    to: &mut Vec<FieldSort>,
    class: u32,
) -> Result<(), NoMemory>
    requires { class < class_count_of classes.now }
    ensures { (units : List JavaUnit) → AreTables units classes.now
        → OnOk result (map field_view to.new.items ≡ map field_view to.old.items ++ own_sorted units (D.declarations d.now) class) }
{
    add_each(d, classes, to, &classes.class(ClassId(class)).fields)
}

// What the class extends.
fn extended(classes: &Classes, class: u32) -> Option<u32>
    requires tables { (units : List JavaUnit) × AreTables units classes.now }
    requires class { class < class_count_of classes.now }
    ensures parent { (units : List JavaUnit) → AreTables units classes.now → result ≡ parent_of (parents units) class }
    ensures within { IfSome result (λ c. c < class_count_of classes.now) }
{
    match classes.class(ClassId(class)).parent {
        None => None,
        Some(c) => Some(c.0),
    }
}

// Adds those of a class and of so many above it at most, the topmost class's first.
fn add_along<D: Declares>(
    d: &D,
    classes: &Classes,
    to: &mut Vec<FieldSort>,
    left: u32,
    class: Option<u32>,
) -> Result<(), NoMemory>
    requires tables { (units : List JavaUnit) × AreTables units classes.now }
    requires class { IfSome class (λ c. c < class_count_of classes.now) }
    ensures { (units : List JavaUnit) → AreTables units classes.now
        → OnOk result (map field_view to.new.items ≡ map field_view to.old.items ++ all_sorted units (D.declarations d.now) (classes_up (parents units) left class)) }
{
    if left == 0 {
        return Ok(());
    }
    match class {
        None => Ok(()),
        Some(c) => {
            add_along(d, classes, to, left - 1, extended(classes, c))?;
            add_own(d, classes, to, c)
        }
    }
}

// Those of a class that is there.
fn fields_of<D: Declares>(
    alloc: Global,
    d: &D,
    classes: &Classes,
    class: ClassId,
) -> Result<Vec<FieldSort>, NoMemory>
    requires tables { (units : List JavaUnit) × AreTables units classes.now }
    requires class { class.0 < class_count_of classes.now }
    ensures { (units : List JavaUnit) → AreTables units classes.now → IfOk result (λ v. map field_view v.items ≡ all_sorted units (D.declarations d.now) (lineage units class.0)) }
{
    let mut made = Vec::new(alloc);
    add_along(d, classes, &mut made, classes.class_count(), Some(class.0))?;
    Ok(made)
}

/// The fields of the objects of a class, with their sorts (JLS 8.2); none where there is no such class. Time grows as the number of
/// classes above it and of their fields.
///
/// # Errors
///
/// `NoMemory` if memory runs out.
pub(crate) fn fields_along<D: Declares>(
    alloc: Global,
    d: &D,
    classes: &Classes,
    class: ClassId,
) -> Result<Vec<FieldSort>, NoMemory>
    requires { (units : List JavaUnit) × AreTables units classes.now }
    ensures { (units : List JavaUnit) → AreTables units classes.now → class.0 < length (parents units)
        → IfOk result (λ v. map field_view v.items ≡ all_sorted units (D.declarations d.now) (lineage units class.0)) }
{
    if class.0 < classes.class_count() {
        fields_of(alloc, d, classes, class)
    } else {
        Ok(Vec::new(alloc))
    }
}
