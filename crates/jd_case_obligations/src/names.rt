//! What obligations are called.

ghost use Rattle.std.specs.Fmt.{decimal};
ghost use Rattle.std.specs.Prelude.{◌≡◌, ◌++◌, ◌<◌, IfOk, List, OnOk};
ghost use Rattle.jd_case_obligations.specs.Listed as plain;
ghost use Rattle.jd_case_obligations.specs.Told.{info_text};
ghost use Rattle.jd_classes.specs.Tables.{AreTables, method_count_of};
ghost use Rattle.jd_jinfos.specs.Views.{method_info_view};
ghost use Rattle.jd_syntax.specs.JavaTrees.{JavaUnit};

use jd_base::{ClassId, MethodId, NoMemory};
use jd_classes::{Classes, MethodInfo};
use std::alloc::Global;

// The name of a class; of a number that no class has there is none.
fn class_text(classes: &Classes, class: ClassId) -> &[u8]
    ensures { (units : List JavaUnit) → AreTables units classes.now → result.now ≡ plain.class_text units class.0 }
{
    if class.0 < classes.class_count() {
        classes.class(class).name.as_slice()
    } else {
        b""
    }
}

// Adds this text.
fn add_text(out: &mut Vec<u8>, text: &[u8]) -> Result<(), NoMemory>
    ensures { OnOk result (out.new.items ≡ out.old.items ++ text.now) }
{
    out.extend_from_slice(text)?;
    Ok(())
}

// Adds the decimal digits of a number.
fn add_decimal(alloc: Global, out: &mut Vec<u8>, number: u64) -> Result<(), NoMemory>
    ensures { OnOk result (out.new.items ≡ out.old.items ++ decimal number) }
{
    let digits = number.to_string(alloc)?;
    add_text(out, digits.as_bytes())
}

// Adds what the constructor of the class `owner` is called where it runs for the class.
fn add_constructor(
    classes: &Classes,
    out: &mut Vec<u8>,
    class: ClassId,
    owner: ClassId,
) -> Result<(), NoMemory>
    ensures { (units : List JavaUnit) → AreTables units classes.now → OnOk result (out.new.items ≡ out.old.items ++ plain.constructor_text units class.0 owner.0) }
{
    if owner.0 == class.0 {
        return add_text(out, b"new");
    }
    add_text(out, class_text(classes, owner))?;
    add_text(out, b"::new")
}

// Adds what a method or constructor is called where it runs for the class.
fn add_info(
    classes: &Classes,
    out: &mut Vec<u8>,
    class: ClassId,
    info: &MethodInfo,
) -> Result<(), NoMemory>
    ensures { (units : List JavaUnit) → AreTables units classes.now → OnOk result (out.new.items ≡ out.old.items ++ info_text units class.0 (method_info_view info.now)) }
{
    if info.constructor {
        add_constructor(classes, out, class, info.class)
    } else {
        add_text(out, &info.name)
    }
}

// Adds what the method or constructor of the number is called where it runs for the class.
#[tactic(auto, using(crate::proofs::ClassNames::told_text))]
fn add_routine(
    classes: &Classes,
    out: &mut Vec<u8>,
    class: ClassId,
    method: MethodId,
) -> Result<(), NoMemory>
    requires { method.0 < method_count_of classes.now }
    ensures { (units : List JavaUnit) → AreTables units classes.now → OnOk result (out.new.items ≡ out.old.items ++ plain.routine_text units class.0 method.0) }
{
    add_info(classes, out, class, classes.method(method))
}

/// The name of the obligation of a case of a method or constructor for a class, by its number: `C::m#1`, `C::new#1` of the class's own
/// constructor, `C::A::new#1` of that of a class above it.
///
/// # Errors
///
/// `NoMemory` if memory runs out.
pub fn obligation_name(
    alloc: Global,
    classes: &Classes,
    class: ClassId,
    method: MethodId,
    number: u32,
) -> Result<Vec<u8>, NoMemory>
    requires { method.0 < method_count_of classes.now }
    ensures { (units : List JavaUnit) → AreTables units classes.now → IfOk result (λ v. v.items ≡ plain.obligation_name units class.0 method.0 number) }
{
    let mut out = Vec::new(alloc);
    add_text(&mut out, class_text(classes, class))?;
    add_text(&mut out, b"::")?;
    add_routine(classes, &mut out, class, method)?;
    add_text(&mut out, b"#")?;
    add_decimal(alloc, &mut out, u64::from(number))?;
    Ok(out)
}
