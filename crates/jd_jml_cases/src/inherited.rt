//! The cases of a method, those of the methods that it overrides among them.

ghost use Rattle.std.specs.Prelude.{◌≡◌, ◌++◌, ◌<◌, ◌∷◌, ◌||◌, [], IfOk, IfSome, List, OnOk, filter, flat_map, map, option_map};
ghost use Rattle.std.specs.List.{slice_get};
ghost use Rattle.std.specs.Str.{bytes_eq};
ghost use Rattle.jd_ancestry.specs.Walks.{parent_of};
ghost use Rattle.jd_classes.specs.Tables.{AreTables, class_count_of, method_count_of};
ghost use Rattle.jd_jclasses.specs.Classes.{parents};
ghost use Rattle.jd_jinfos.specs.Views.{method_info_view, method_number};
ghost use Rattle.jd_jml_cases.specs.Cases as plain;
ghost use Rattle.jd_jml_cases.specs.Trees.{AreTrees, cases_by, tree_view};
ghost use Rattle.jd_jml_written.specs.Views.{case_view};
ghost use Rattle.jd_programs.specs.Members.{declared_as, routine_name};
ghost use Rattle.jd_syntax.specs.JavaTrees.{JavaUnit};

use jd_base::{ClassId, MethodId, NoMemory};
use jd_classes::{Classes, MethodInfo};
use jd_jml_written::own_cases;
use jd_syntax::{MethodDecl, SpecCase};
use std::alloc::Global;

/// What cases are looked up in.
#[derive(Clone, Copy)]
pub struct Source<'a> {
    /// The tables of the program's classes.
    pub classes: &'a Classes,
    /// Its methods and constructors, by their numbers.
    pub trees: &'a [&'a MethodDecl],
}

/// The declaration of the method or constructor of a number, if there is one.
pub fn tree_at<'a>(trees: &'a [&'a MethodDecl], number: usize) -> Option<&'a MethodDecl>
    ensures { option_map tree_view result ≡ slice_get (map tree_view trees.now) number }
{
    if number < trees.len() {
        Some(trees[number])
    } else {
        None
    }
}

// Adds the cases that are written at a method or constructor.
fn add_written(
    alloc: Global,
    p: Source<'_>,
    made: &mut Vec<SpecCase>,
    m: MethodId,
) -> Result<(), NoMemory>
    ensures { OnOk result (map case_view made.new.items ≡ map case_view made.old.items ++ cases_by (map tree_view p.entry.trees.now) m.0) }
{
    match tree_at(p.trees, m.0 as usize) {
        None => Ok(()),
        Some(tree) => {
            let mut own = own_cases(alloc, m, tree)?;
            made.append(&mut own)?;
            Ok(())
        }
    }
}

// Whether the method has the name.
fn is_named(p: Source<'_>, m: MethodId, name: &[u8]) -> bool
    ensures { (units : List JavaUnit) → AreTables units p.entry.classes.now → result ≡ bytes_eq (routine_name units m.0) name.now }
{
    if (m.0 as usize) < p.classes.method_count() {
        p.classes.method(m).name.as_slice() == name
    } else {
        name.is_empty()
    }
}

// Adds the cases of a method where it has the name.
fn add_if_named(
    alloc: Global,
    p: Source<'_>,
    made: &mut Vec<SpecCase>,
    name: &[u8],
    m: MethodId,
) -> Result<(), NoMemory>
    ensures { (units : List JavaUnit) → AreTables units p.entry.classes.now
        → OnOk result (map case_view made.new.items ≡ map case_view made.old.items ++ flat_map (cases_by (map tree_view p.entry.trees.now)) (filter (λ k. bytes_eq (routine_name units k) name.now) (m.0 ∷ []))) }
{
    if is_named(p, m, name) {
        add_written(alloc, p, made, m)
    } else {
        Ok(())
    }
}

// Adds the cases of those methods that have the name.
fn add_named(
    alloc: Global,
    p: Source<'_>,
    made: &mut Vec<SpecCase>,
    name: &[u8],
    ms: &[MethodId],
) -> Result<(), NoMemory>
    ensures { (units : List JavaUnit) → AreTables units p.entry.classes.now
        → OnOk result (map case_view made.new.items ≡ map case_view made.old.items ++ flat_map (cases_by (map tree_view p.entry.trees.now)) (filter (λ k. bytes_eq (routine_name units k) name.now) (map method_number ms.now))) }
{
    for m in ms {
        add_if_named(alloc, p, made, name, *m)?;
    }
    Ok(())
}

// Adds the cases of the method of the name that a class declares itself.
fn add_declared(
    alloc: Global,
    p: Source<'_>,
    made: &mut Vec<SpecCase>,
    name: &[u8],
    class: u32,
) -> Result<(), NoMemory>
    requires { class < class_count_of p.classes.now }
    ensures { (units : List JavaUnit) → AreTables units p.entry.classes.now
        → OnOk result (map case_view made.new.items ≡ map case_view made.old.items ++ flat_map (cases_by (map tree_view p.entry.trees.now)) (declared_as units name.now class)) }
{
    add_named(
        alloc,
        p,
        made,
        name,
        &p.classes.class(ClassId(class)).methods,
    )
}

// What the class extends.
fn extended(p: Source<'_>, class: u32) -> Option<u32>
    requires tables { (units : List JavaUnit) × AreTables units p.classes.now }
    requires class { class < class_count_of p.classes.now }
    ensures parent { (units : List JavaUnit) → AreTables units p.entry.classes.now → result ≡ parent_of (parents units) class }
    ensures within { IfSome result (λ c. c < class_count_of p.entry.classes.now) }
{
    match p.classes.class(ClassId(class)).parent {
        None => None,
        Some(c) => Some(c.0),
    }
}

// Adds the cases of the methods of the name that the class and those above it declare, so many at most, the topmost first.
fn add_inherited(
    alloc: Global,
    p: Source<'_>,
    made: &mut Vec<SpecCase>,
    name: &[u8],
    left: u32,
    class: Option<u32>,
) -> Result<(), NoMemory>
    requires tables { (units : List JavaUnit) × AreTables units p.classes.now }
    requires class { IfSome class (λ c. c < class_count_of p.classes.now) }
    ensures { (units : List JavaUnit) → AreTables units p.entry.classes.now
        → OnOk result (map case_view made.new.items ≡ map case_view made.old.items ++ flat_map (cases_by (map tree_view p.entry.trees.now)) (flat_map (declared_as units name.now) (plain.classes_up (parents units) left class))) }
{
    if left == 0 {
        return Ok(());
    }
    match class {
        None => Ok(()),
        Some(c) => {
            add_inherited(alloc, p, made, name, left - 1, extended(p, c))?;
            add_declared(alloc, p, made, name, c)
        }
    }
}

// Whether the method or constructor has its own cases alone.
fn is_alone(info: &MethodInfo) -> bool
    ensures { result ≡ (method_info_view info.now).static || (method_info_view info.now).constructor }
{
    info.is_static || info.constructor
}

// Adds the cases of a method or constructor.
fn add_cases(
    alloc: Global,
    p: Source<'_>,
    made: &mut Vec<SpecCase>,
    m: MethodId,
) -> Result<(), NoMemory>
    requires tables { (units : List JavaUnit) × AreTables units p.classes.now }
    requires m { m.0 < method_count_of p.classes.now }
    ensures { (units : List JavaUnit) → AreTables units p.entry.classes.now → AreTrees units p.entry.trees.now
        → OnOk result (map case_view made.new.items ≡ map case_view made.old.items ++ plain.method_cases units m.0) }
{
    let info = p.classes.method(m);
    if is_alone(info) {
        return add_written(alloc, p, made, m);
    }
    add_inherited(
        alloc,
        p,
        made,
        &info.name,
        p.classes.class_count(),
        Some(info.class.0),
    )
}

/// The cases of a method or constructor by their numbers: those of the methods that it overrides, the topmost class first, and its own (JML
/// Reference Manual, 6.2, 9.6); of a static method and of a constructor its own alone.
///
/// # Errors
///
/// `NoMemory`.
pub fn method_cases(alloc: Global, p: Source<'_>, m: MethodId) -> Result<Vec<SpecCase>, NoMemory>
    requires tables { (units : List JavaUnit) × AreTables units p.classes.now }
    requires m { m.0 < method_count_of p.classes.now }
    ensures { (units : List JavaUnit) → AreTables units p.entry.classes.now → AreTrees units p.entry.trees.now
        → IfOk result (λ v. map case_view v.items ≡ plain.method_cases units m.0) }
{
    let mut made = Vec::new(alloc);
    add_cases(alloc, p, &mut made, m)?;
    Ok(made)
}
