//! What a class and those above it declare, the topmost class first.

ghost use Rattle.std.specs.Prelude.{◌≡◌, ◌++◌, ◌<◌, ◌||◌, ◌∷◌, [], IfOk, IfSome, List, OnOk, filter, flat_map, map, nat_eq, not};
ghost use Rattle.jd_ancestry.specs.Walks.{parent_of};
ghost use Rattle.jd_class_members.specs.Along.{constructor_of};
ghost use Rattle.jd_classes.specs.Tables.{AreTables, class_count_of};
ghost use Rattle.jd_jclasses.specs.Classes.{parents};
ghost use Rattle.jd_jinfos.specs.Views.{method_number};
ghost use Rattle.jd_jml_cases.specs.Cases.{classes_up, lineage};
ghost use Rattle.jd_programs.specs.Members as plain;
ghost use Rattle.jd_programs.specs.Members.{members_from, routine_name, static_routine};
ghost use Rattle.jd_syntax.specs.JavaTrees.{JavaUnit};

use jd_base::{ClassId, MethodId, NoMemory};
use jd_classes::Classes;
use jd_lists::put;
use std::alloc::Global;

// What the class extends.
fn extended(classes: &Classes, class: u32) -> Option<u32>
    requires tables { (units : List JavaUnit) × AreTables units classes.now }
    requires class { class < class_count_of classes.now }
    ensures parent { (units : List JavaUnit) → AreTables units classes.now → result ≡ parent_of (parents units) class }
    ensures within { IfSome result (λ c. c < class_count_of classes.now) }
{
    match classes.class(ClassId(class)).parent {
        None => None,
        Some(c) => Some(c.0),
    }
}

// Adds the constructor that a class declares itself, if there is one.
fn add_constructor(classes: &Classes, to: &mut Vec<MethodId>, class: u32) -> Result<(), NoMemory>
    requires { class < class_count_of classes.now }
    ensures { (units : List JavaUnit) → AreTables units classes.now → OnOk result (map method_number to.new.items ≡ map method_number to.old.items ++ constructor_of units class) }
{
    match classes.class(ClassId(class)).constructor {
        None => Ok(()),
        Some(m) => put(to, m),
    }
}

// Adds the constructors that run for a class, looked for in so many classes at most.
fn add_constructors(
    classes: &Classes,
    to: &mut Vec<MethodId>,
    left: u32,
    class: Option<u32>,
) -> Result<(), NoMemory>
    requires tables { (units : List JavaUnit) × AreTables units classes.now }
    requires class { IfSome class (λ c. c < class_count_of classes.now) }
    ensures { (units : List JavaUnit) → AreTables units classes.now
        → OnOk result (map method_number to.new.items ≡ map method_number to.old.items ++ flat_map (constructor_of units) (classes_up (parents units) left class)) }
{
    if left == 0 {
        return Ok(());
    }
    match class {
        None => Ok(()),
        Some(c) => {
            add_constructors(classes, to, left - 1, extended(classes, c))?;
            add_constructor(classes, to, c)
        }
    }
}

/// The constructors that run for an object of a class: those of the classes above it, the topmost first, then its own (JLS 12.5). Time grows
/// as the number of classes above.
///
/// # Errors
///
/// `NoMemory` if memory runs out.
pub fn constructors_run(
    alloc: Global,
    classes: &Classes,
    class: ClassId,
) -> Result<Vec<MethodId>, NoMemory>
    requires tables { (units : List JavaUnit) × AreTables units classes.now }
    requires class { class.0 < class_count_of classes.now }
    ensures { (units : List JavaUnit) → AreTables units classes.now → IfOk result (λ v. map method_number v.items ≡ plain.constructors_run units (lineage units) class.0) }
{
    let mut made = Vec::new(alloc);
    add_constructors(classes, &mut made, classes.class_count(), Some(class.0))?;
    Ok(made)
}

/// The name of the method or constructor of a number.
pub(crate) fn name_at(classes: &Classes, m: u32) -> &[u8]
    ensures { (units : List JavaUnit) → AreTables units classes.now → result.now ≡ routine_name units m }
{
    if (m as usize) < classes.method_count() {
        classes.method(MethodId(m)).name.as_slice()
    } else {
        b""
    }
}

// Whether the method or constructor of a number is static.
fn is_static_at(classes: &Classes, m: u32) -> bool
    ensures { (units : List JavaUnit) → AreTables units classes.now → result ≡ static_routine units m }
{
    if (m as usize) < classes.method_count() {
        classes.method(MethodId(m)).is_static
    } else {
        false
    }
}

// Whether a method that a class declares is a member of the class `of` at or below it.
fn is_member(classes: &Classes, of: u32, class: u32, m: u32) -> bool
    ensures { (units : List JavaUnit) → AreTables units classes.now → result ≡ (not (static_routine units m) || nat_eq class of) }
{
    !is_static_at(classes, m) || class == of
}

// Adds a method where it is a member.
fn add_if_member(
    classes: &Classes,
    to: &mut Vec<MethodId>,
    of: u32,
    class: u32,
    m: MethodId,
) -> Result<(), NoMemory>
    ensures { (units : List JavaUnit) → AreTables units classes.now
        → OnOk result (map method_number to.new.items ≡ map method_number to.old.items ++ filter (λ k. not (static_routine units k) || nat_eq class of) (m.0 ∷ [])) }
{
    if is_member(classes, of, class, m.0) {
        put(to, m)
    } else {
        Ok(())
    }
}

// Adds those of a class's methods that are members.
fn add_members_among(
    classes: &Classes,
    to: &mut Vec<MethodId>,
    of: u32,
    class: u32,
    ms: &[MethodId],
) -> Result<(), NoMemory>
    ensures { (units : List JavaUnit) → AreTables units classes.now
        → OnOk result (map method_number to.new.items ≡ map method_number to.old.items ++ filter (λ k. not (static_routine units k) || nat_eq class of) (map method_number ms.now)) }
{
    for m in ms {
        add_if_member(classes, to, of, class, *m)?;
    }
    Ok(())
}

// Adds the methods that a class declares and that are members of the class `of`.
fn add_members_of(
    classes: &Classes,
    to: &mut Vec<MethodId>,
    of: u32,
    class: u32,
) -> Result<(), NoMemory>
    requires { class < class_count_of classes.now }
    ensures { (units : List JavaUnit) → AreTables units classes.now → OnOk result (map method_number to.new.items ≡ map method_number to.old.items ++ members_from units of class) }
{
    add_members_among(
        classes,
        to,
        of,
        class,
        &classes.class(ClassId(class)).methods,
    )
}

/// Adds the methods that are declared in a class and in so many above it at most, and are members of the class `of`, the topmost class's first.
pub(crate) fn add_members(
    classes: &Classes,
    to: &mut Vec<MethodId>,
    of: u32,
    left: u32,
    class: Option<u32>,
) -> Result<(), NoMemory>
    requires tables { (units : List JavaUnit) × AreTables units classes.now }
    requires class { IfSome class (λ c. c < class_count_of classes.now) }
    ensures { (units : List JavaUnit) → AreTables units classes.now
        → OnOk result (map method_number to.new.items ≡ map method_number to.old.items ++ flat_map (members_from units of) (classes_up (parents units) left class)) }
{
    if left == 0 {
        return Ok(());
    }
    match class {
        None => Ok(()),
        Some(c) => {
            add_members(classes, to, of, left - 1, extended(classes, c))?;
            add_members_of(classes, to, of, c)
        }
    }
}
