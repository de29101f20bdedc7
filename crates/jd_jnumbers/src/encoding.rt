//! What members agree in as texts: they agree where their texts are equal.

ghost use Rattle.std.specs.Prelude.{◌≡◌, ◌++◌, map, IfOk, OnOk};
ghost use Rattle.jd_syntax.specs.JavaTypes.{type_view};
ghost use Rattle.jd_syntax.specs.JavaTrees.{parameter_view, result_view};
ghost use Rattle.jd_jclasses.specs.Members.{result_type};
ghost use Rattle.jd_jlists.specs.Views.{member_of_view};
ghost use Rattle.jd_jnumbers.specs.Encoding.{
  encoded_name,
  encoded_result,
  encoded_static,
  encoded_type,
  encoded_types,
  return_text,
  signature_text,
  text_by,
  types_of,
};

use crate::agreement::Agreement;
use jd_base::{NoMemory, copy_bytes};
use jd_jlists::{MemberKind, MemberOf};
use jd_syntax::{JavaType, Parameter, ResultType};
use std::alloc::Global;

// Adds a name: each byte behind a 1, then a 0.
fn add_name(name: &[u8], text: &mut Vec<u8>) -> Result<(), NoMemory>
    ensures { OnOk result (text.new.items ≡ text.old.items ++ encoded_name name.now) }
{
    for byte in name {
        text.push(1)?;
        text.push(*byte)?;
    }
    text.push(0)?;
    Ok(())
}

// Adds a type.
fn add_type(ty: &JavaType, text: &mut Vec<u8>) -> Result<(), NoMemory>
    ensures { OnOk result (text.new.items ≡ text.old.items ++ encoded_type (type_view ty.now)) }
{
    match ty {
        JavaType::Int => text.push(0)?,
        JavaType::Boolean => text.push(1)?,
        JavaType::IntArray => text.push(2)?,
        JavaType::Named(name) => {
            text.push(3)?;
            add_name(name, text)?;
        }
    }
    Ok(())
}

// Adds the types of the parameters.
fn add_types(parameters: &[Parameter], text: &mut Vec<u8>) -> Result<(), NoMemory>
    ensures { OnOk result (text.new.items ≡ text.old.items ++ encoded_types (types_of (map parameter_view parameters.now))) }
{
    for parameter in parameters {
        add_type(&parameter.ty.written, text)?;
    }
    Ok(())
}

// Adds the type of the result, or that there is none.
fn add_result(given: &ResultType, text: &mut Vec<u8>) -> Result<(), NoMemory>
    ensures { OnOk result (text.new.items ≡ text.old.items ++ encoded_result (result_type (result_view given.now))) }
{
    match given {
        ResultType::Gives(ty) => add_type(&ty.written, text),
        ResultType::Void | ResultType::Constructor => {
            text.push(4)?;
            Ok(())
        }
    }
}

// Adds whether it is static.
fn add_static(is_static: bool, text: &mut Vec<u8>) -> Result<(), NoMemory>
    ensures { OnOk result (text.new.items ≡ text.old.items ++ encoded_static is_static) }
{
    text.push(if is_static { 5 } else { 6 })?;
    Ok(())
}

// The name and the types of the parameters.
fn signature_of(alloc: Global, member: &MemberOf<'_>) -> Result<Vec<u8>, NoMemory>
    ensures { IfOk result (λ text. text.items ≡ signature_text (member_of_view member.now)) }
{
    let mut text = Vec::new(alloc);
    add_name(&member.name.name, &mut text)?;
    match member.kind {
        MemberKind::Routine(routine) => add_types(&routine.parameters, &mut text)?,
        MemberKind::Field(_) | MemberKind::Constant(_) => {}
    }
    Ok(text)
}

// The name, the result, and whether it is static.
fn return_of(alloc: Global, member: &MemberOf<'_>) -> Result<Vec<u8>, NoMemory>
    ensures { IfOk result (λ text. text.items ≡ return_text (member_of_view member.now)) }
{
    let mut text = Vec::new(alloc);
    add_name(&member.name.name, &mut text)?;
    match member.kind {
        MemberKind::Routine(routine) => {
            add_result(&routine.result, &mut text)?;
            add_static(routine.is_static, &mut text)?;
        }
        MemberKind::Field(_) | MemberKind::Constant(_) => {
            add_result(&ResultType::Void, &mut text)?;
            add_static(false, &mut text)?;
        }
    }
    Ok(text)
}

// The text of what members are to agree in.
pub(crate) fn text_of(
    alloc: Global,
    by: Agreement,
    member: &MemberOf<'_>,
) -> Result<Vec<u8>, NoMemory>
    ensures { IfOk result (λ text. text.items ≡ text_by by (member_of_view member.now)) }
{
    match by {
        Agreement::Name => copy_bytes(alloc, &member.name.name),
        Agreement::Signature => signature_of(alloc, member),
        Agreement::Return => return_of(alloc, member),
    }
}
