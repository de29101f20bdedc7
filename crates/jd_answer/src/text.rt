ghost use Rattle.std.specs.Prelude.{◌≡◌, ◌++◌, IfOk, OnOk};
ghost use Rattle.std.specs.Fmt.{decimal};
ghost use Rattle.jd_answer.specs.Reports.{class_limit_text, file_limit_text, files_limit_text, formula_limit_text, line, method_limit_text, placed_text, proof_limit_text, report_limit_text, steps_limit_text, unbuilt_text, usage_text};

use jd_base::{NoMemory, copy_bytes};
use std::alloc::Global;

/// Adds the decimal digits of a number.
pub fn add_decimal(alloc: Global, out: &mut Vec<u8>, number: u64) -> Result<(), NoMemory>
    ensures { OnOk result (out.new.items ≡ out.old.items ++ decimal number) }
{
    let digits = number.to_string(alloc)?;
    out.extend_from_slice(digits.as_bytes())?;
    Ok(())
}

/// Adds a kind of refusal and its place.
pub fn add_placed(alloc: Global, out: &mut Vec<u8>, kind: &[u8], at: u32) -> Result<(), NoMemory>
    ensures { OnOk result (out.new.items ≡ out.old.items ++ placed_text kind.now at) }
{
    out.extend_from_slice(kind)?;
    out.extend_from_slice(b" at ")?;
    add_decimal(alloc, out, u64::from(at))?;
    Ok(())
}

/// A line of this text.
pub fn line_of(alloc: Global, text: &[u8]) -> Result<Vec<u8>, NoMemory>
    ensures { IfOk result (λ v. v.items ≡ line text.now) }
{
    let mut out = copy_bytes(alloc, text)?;
    out.push(b'\n')?;
    Ok(out)
}

/// The line for words that are no command.
pub fn usage(alloc: Global) -> Result<Vec<u8>, NoMemory>
    ensures { IfOk result (λ v. v.items ≡ usage_text) }
{
    line_of(alloc, b"usage: jdl COMMAND ARGUMENT..")
}

/// The line for too many Java files.
pub fn too_many_files(alloc: Global) -> Result<Vec<u8>, NoMemory>
    ensures { IfOk result (λ v. v.items ≡ files_limit_text) }
{
    line_of(alloc, b"limit files 64")
}

/// The line for too many classes.
pub fn too_many_classes(alloc: Global) -> Result<Vec<u8>, NoMemory>
    ensures { IfOk result (λ v. v.items ≡ class_limit_text) }
{
    line_of(alloc, b"limit classes 256")
}

/// The line for too many methods.
pub fn too_many_methods(alloc: Global) -> Result<Vec<u8>, NoMemory>
    ensures { IfOk result (λ v. v.items ≡ method_limit_text) }
{
    line_of(alloc, b"limit methods 2048")
}

/// The line for a proof file that is too long.
pub fn proof_too_long(alloc: Global) -> Result<Vec<u8>, NoMemory>
    ensures { IfOk result (λ v. v.items ≡ proof_limit_text) }
{
    line_of(alloc, b"limit proof-bytes 16777216")
}

/// The line for a proof of too many steps.
pub fn too_many_steps(alloc: Global) -> Result<Vec<u8>, NoMemory>
    ensures { IfOk result (λ v. v.items ≡ steps_limit_text) }
{
    line_of(alloc, b"limit nodes 500000")
}

/// The line for a Java file that is too long.
pub fn file_too_long(alloc: Global) -> Result<Vec<u8>, NoMemory>
    ensures { IfOk result (λ v. v.items ≡ file_limit_text) }
{
    line_of(alloc, b"limit file-bytes 1048576")
}

/// The line for a formula that is too large.
pub fn formula_too_large(alloc: Global) -> Result<Vec<u8>, NoMemory>
    ensures { IfOk result (λ v. v.items ≡ formula_limit_text) }
{
    line_of(alloc, b"limit formula 100000")
}

/// The line for a report that is too long.
pub fn report_too_long(alloc: Global) -> Result<Vec<u8>, NoMemory>
    ensures { IfOk result (λ v. v.items ≡ report_limit_text) }
{
    line_of(alloc, b"limit report 67108864")
}

/// The line for a file of a form that has no obligation yet.
pub fn unbuilt(alloc: Global, file: &[u8]) -> Result<Vec<u8>, NoMemory>
    ensures { IfOk result (λ v. v.items ≡ unbuilt_text file.now) }
{
    let mut out = copy_bytes(alloc, b"refused ")?;
    out.extend_from_slice(file)?;
    out.extend_from_slice(b" Unbuilt at 0\n")?;
    Ok(out)
}
