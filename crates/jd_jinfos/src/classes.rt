//! The table of classes.

ghost use Rattle.jd_jclasses.specs.Classes.{declared_classes, parents as parents_in, prelude_count};
ghost use Rattle.jd_jclasses.specs.Members.{declared_members};
ghost use Rattle.jd_jinfos.specs.Infos.{class_infos, own_of_each};
ghost use Rattle.jd_jinfos.specs.Stages.{class_heads, class_of, classes_of, declared_head, head_view, prelude_head};
ghost use Rattle.jd_jinfos.specs.Views.{class_info_view, class_number, own_view};
ghost use Rattle.jd_jlists.specs.Views.{class_in_file};
ghost use Rattle.jd_syntax.specs.JavaTrees.{class_view, unit_view};
ghost use Rattle.std.specs.Prelude.{◌≡◌, ◌+◌, ◌++◌, ◌≤◌, IfOk, OnOk, length, map, option_map};

use crate::info::{ClassInfo, OwnMembers};
use jd_base::{ClassId, NoMemory, copy_bytes};
use jd_syntax::{ClassDecl, Unit};
use std::alloc::Global;

// The classes that are always there, by their numbers (JLS 4.3.2, 11.1.1).
const PRELUDE_NAMES: [&[u8]; 10] = [
    b"Object",
    b"Throwable",
    b"Exception",
    b"RuntimeException",
    b"NullPointerException",
    b"ArithmeticException",
    b"IndexOutOfBoundsException",
    b"NegativeArraySizeException",
    b"ClassCastException",
    b"ArrayIndexOutOfBoundsException",
];

// The name of a class, its file and its declaration.
#[derive(Drop)]
struct ClassHead {
    name: Vec<u8>,
    file: u32,
    decl: Option<ClassDecl>,
}

// Adds classes that are always there.
fn add_table(alloc: Global, table: &[&[u8]], out: &mut Vec<ClassHead>) -> Result<(), NoMemory>
    ensures { OnOk result (map head_view out.new.items
        ≡ map head_view out.old.items ++ map prelude_head (map (λ row. row.now) table.now)) }
{
    for name in table {
        let name = copy_bytes(alloc, name)?;
        out.push(ClassHead {
            name,
            file: 0,
            decl: None,
        })?;
    }
    Ok(())
}

// Adds the classes of a file.
fn add_file(
    alloc: Global,
    file: u32,
    classes: Vec<ClassDecl>,
    out: &mut Vec<ClassHead>,
) -> Result<(), NoMemory>
    ensures { OnOk result (map head_view out.new.items
        ≡ map head_view out.old.items ++ map declared_head (map (class_in_file file) (map class_view classes.items))) }
{
    for class in classes {
        let name = copy_bytes(alloc, &class.name.name)?;
        out.push(ClassHead {
            name,
            file,
            decl: Some(class),
        })?;
    }
    Ok(())
}

// Adds the classes of the files.
fn add_files(alloc: Global, units: Vec<Unit>, out: &mut Vec<ClassHead>) -> Result<(), NoMemory>
    requires { length units.items ≤ 999999999 }
    ensures { OnOk result (map head_view out.new.items
        ≡ map head_view out.old.items ++ map declared_head (declared_classes (map unit_view units.items))) }
{
    let mut file: u32 = 0;
    for unit in units {
        add_file(alloc, file, unit.classes, out)?;
        file += 1;
    }
    Ok(())
}

// The heads of all classes, with room for so many.
fn heads_of(alloc: Global, classes: usize, units: Vec<Unit>) -> Result<Vec<ClassHead>, NoMemory>
    requires { length units.items ≤ 999999999 }
    ensures { IfOk result (λ v. map head_view v.items ≡ class_heads (map unit_view units.items)) }
{
    let mut heads = Vec::with_capacity(alloc, classes)?;
    add_table(alloc, &PRELUDE_NAMES, &mut heads)?;
    add_files(alloc, units, &mut heads)?;
    Ok(heads)
}

// The number of a class, where there is one.
fn class_id(number: Option<u32>) -> Option<ClassId>
    ensures { option_map class_number result ≡ number }
{
    match number {
        Some(number) => Some(ClassId(number)),
        None => None,
    }
}

// A class from its head, from what it extends and from its own members.
fn class_info(head: ClassHead, parent: Option<u32>, own: OwnMembers) -> ClassInfo
    ensures { class_info_view result ≡ class_of (head_view head) parent (own_view own) }
{
    ClassInfo {
        name: head.name,
        parent: class_id(parent),
        file: head.file,
        decl: head.decl,
        fields: own.fields,
        constants: own.constants,
        constructor: own.constructor,
        methods: own.methods,
    }
}

// The classes from their heads, from what they extend and from their own members.
fn put_together(
    alloc: Global,
    heads: Vec<ClassHead>,
    parents: &[Option<u32>],
    own: Vec<OwnMembers>,
) -> Result<Vec<ClassInfo>, NoMemory>
    ensures { IfOk result (λ v. map class_info_view v.items
        ≡ classes_of (map head_view heads.items) parents.now (map own_view own.items)) }
{
    let mut out = Vec::with_capacity(alloc, heads.len())?;
    let mut parents = parents.iter();
    let mut own = own.into_iter();
    for head in heads {
        let Some(parent) = parents.next() else {
            break;
        };
        let Some(members) = own.next() else {
            break;
        };
        out.push(class_info(head, *parent, members))?;
    }
    Ok(out)
}

/// The classes of these files, by their numbers: those that are always there (JLS 4.3.2, 11.1.1), then
/// those of the files in order. `parents` has the number of what each extends (JLS 8.1.4), and `own`
/// what each declares itself. The declarations are moved out of the files.
///
/// # Errors
///
/// `NoMemory` if memory runs out.
pub fn class_infos(
    alloc: Global,
    parents: &[Option<u32>],
    own: Vec<OwnMembers>,
    units: Vec<Unit>,
) -> Result<Vec<ClassInfo>, NoMemory>
    requires files { length units.items ≤ 999999999 }
    requires parents { parents.now ≡ parents_in (map unit_view units.items) }
    requires own { map own_view own.items ≡ own_of_each (declared_members (map unit_view units.items))
        (prelude_count + length (declared_classes (map unit_view units.items))) }
    ensures { IfOk result (λ v. map class_info_view v.items ≡ class_infos (map unit_view units.items)) }
{
    let heads = heads_of(alloc, own.len(), units)?;
    put_together(alloc, heads, parents, own)
}
