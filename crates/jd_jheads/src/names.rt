//! The names of classes, each at its number.

ghost use Rattle.std.specs.Prelude.{◌≡◌, ◌≤◌, map, not, fold, length, IfOk, IfErr, OnOk};
ghost use Rattle.std.specs.List.{list_any};
ghost use Rattle.std.specs.Str.{bytes_eq};
ghost use Rattle.jd_jclasses.specs.Classes.{class_in, prelude};
ghost use Rattle.jd_jheads.specs.Firsts.{NameRefused, NamesAreNew};
ghost use Rattle.jd_jheads.specs.Names.{insert_name, name_list, names_with};
ghost use Rattle.jd_jheads.specs.Placed.{placed_view};

use crate::placed::Placed;
use crate::refusal::HeadRefusal;
use indexmap::IndexSet;
use jd_base::{NoMemory, copy_bytes};
use std::alloc::Global;

// The classes that are always there, by their numbers (JLS 4.3.2, 11.1.1).
const PRELUDE_NAMES: [&[u8]; 10] = [
    b"Object",
    b"Throwable",
    b"Exception",
    b"RuntimeException",
    b"NullPointerException",
    b"ArithmeticException",
    b"IndexOutOfBoundsException",
    b"NegativeArraySizeException",
    b"ClassCastException",
    b"ArrayIndexOutOfBoundsException",
];

// Adds a name behind the others, and answers whether it was none of them.
fn add_name(alloc: Global, names: &mut IndexSet<Vec<u8>>, name: &[u8]) -> Result<bool, NoMemory>
    ensures names { OnOk result (name_list names.new ≡ insert_name (name_list names.old) name.now) }
    ensures new { IfOk result (λ b. b ≡ not (list_any (bytes_eq name.now) (name_list names.old))) }
{
    Ok(names.insert(copy_bytes(alloc, name)?)?)
}

// Adds each of these names that is not there.
fn add_table(alloc: Global, names: &mut IndexSet<Vec<u8>>, table: &[&[u8]]) -> Result<(), NoMemory>
    ensures { OnOk result (name_list names.new ≡ fold insert_name (name_list names.old) (map (λ row. row.now) table.now)) }
{
    for name in table {
        add_name(alloc, names, name)?;
    }
    Ok(())
}

// The names of the classes that are always there.
fn prelude_names(alloc: Global) -> Result<IndexSet<Vec<u8>>, NoMemory>
    ensures { IfOk result (λ names. name_list names ≡ map (λ p. p.0) prelude) }
{
    let mut names = IndexSet::new(alloc);
    add_table(alloc, &mut names, &PRELUDE_NAMES)?;
    Ok(names)
}

// Adds the classes' names.
fn add_names(
    alloc: Global,
    names: &mut IndexSet<Vec<u8>>,
    classes: &[Placed],
) -> Result<(), HeadRefusal>
    requires { name_list names.old ≡ map (λ p. p.0) prelude }
    ensures names { OnOk result (name_list names.new ≡ names_with (map placed_view classes.now)) }
    ensures all_new { OnOk result (NamesAreNew (map placed_view classes.now)) }
    ensures refused { IfErr result (NameRefused (map placed_view classes.now)) }
{
    for placed in classes {
        let name = &placed.class.name;
        if !add_name(alloc, names, &name.name)? {
            return Err(HeadRefusal::DuplicateClass {
                file: placed.file,
                at: name.at,
            });
        }
    }
    Ok(())
}

// The names of all classes.
pub(crate) fn read_names(
    alloc: Global,
    classes: &[Placed],
) -> Result<IndexSet<Vec<u8>>, HeadRefusal>
    ensures read { IfOk result (λ names. name_list names ≡ names_with (map placed_view classes.now)) }
    ensures all_new { OnOk result (NamesAreNew (map placed_view classes.now)) }
    ensures refused { IfErr result (NameRefused (map placed_view classes.now)) }
{
    let mut names = prelude_names(alloc)?;
    add_names(alloc, &mut names, classes)?;
    Ok(names)
}

// The number of the class of this name.
pub(crate) fn class_number(names: &IndexSet<Vec<u8>>, name: &[u8]) -> Option<u32>
    requires { length names.now.keys ≤ 4294967295 }
    ensures { result ≡ class_in (name_list names.now) name.now }
{
    match names.get_index_of(name) {
        Some(number) => Some(number as u32),
        None => None,
    }
}
