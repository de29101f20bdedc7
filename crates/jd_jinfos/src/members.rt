//! The tables of fields and of methods and constructors.

ghost use Rattle.jd_jclasses.specs.Members.{is_field, is_routine};
ghost use Rattle.jd_jinfos.specs.Infos.{field_info, method_info};
ghost use Rattle.jd_jinfos.specs.Views.{field_info_view, method_info_view};
ghost use Rattle.jd_jlists.specs.Views.{member_of_view};
ghost use Rattle.std.specs.Prelude.{[], ◌≡◌, ◌++◌, ◌∷◌, IfOk, OnOk, filter, map};

use crate::copies::{copy_result, copy_type, copy_types};
use crate::info::{FieldInfo, MethodInfo};
use jd_base::{ClassId, NoMemory, copy_bytes};
use jd_jlists::{MemberKind, MemberOf};
use std::alloc::Global;

// Adds the member where it is a field.
fn add_field(alloc: Global, member: &MemberOf<'_>, out: &mut Vec<FieldInfo>) -> Result<(), NoMemory>
    ensures { OnOk result (map field_info_view out.new.items
        ≡ map field_info_view out.old.items ++ map field_info (filter (λ m. is_field m.kind) (member_of_view member.now ∷ []))) }
{
    let MemberKind::Field(ty) = member.kind else {
        return Ok(());
    };
    let name = copy_bytes(alloc, &member.name.name)?;
    let ty = copy_type(alloc, ty)?;
    out.push(FieldInfo {
        name,
        class: ClassId(member.class),
        ty,
    })?;
    Ok(())
}

/// The fields among these members (JLS 8.3), in their order, by which they are numbered.
///
/// # Errors
///
/// `NoMemory` if memory runs out.
pub fn field_infos(alloc: Global, members: &[MemberOf<'_>]) -> Result<Vec<FieldInfo>, NoMemory>
    ensures { IfOk result (λ v. map field_info_view v.items
        ≡ map field_info (filter (λ m. is_field m.kind) (map member_of_view members.now))) }
{
    let mut out = Vec::new(alloc);
    for member in members {
        add_field(alloc, member, &mut out)?;
    }
    Ok(out)
}

// Adds the member where it is a method or a constructor.
fn add_method(
    alloc: Global,
    member: &MemberOf<'_>,
    out: &mut Vec<MethodInfo>,
) -> Result<(), NoMemory>
    ensures { OnOk result (map method_info_view out.new.items
        ≡ map method_info_view out.old.items ++ map method_info (filter (λ m. is_routine m.kind) (member_of_view member.now ∷ []))) }
{
    let MemberKind::Routine(routine) = member.kind else {
        return Ok(());
    };
    let name = copy_bytes(alloc, &member.name.name)?;
    let params = copy_types(alloc, &routine.parameters)?;
    let result_type = copy_result(alloc, &routine.result)?;
    out.push(MethodInfo {
        name,
        class: ClassId(member.class),
        member: member.member,
        is_static: routine.is_static,
        constructor: member.is_constructor(),
        params,
        result: result_type,
    })?;
    Ok(())
}

/// The methods and constructors among these members (JLS 8.4, 8.8), in their order, by which they are
/// numbered.
///
/// # Errors
///
/// `NoMemory` if memory runs out.
pub fn method_infos(alloc: Global, members: &[MemberOf<'_>]) -> Result<Vec<MethodInfo>, NoMemory>
    ensures { IfOk result (λ v. map method_info_view v.items
        ≡ map method_info (filter (λ m. is_routine m.kind) (map member_of_view members.now))) }
{
    let mut out = Vec::new(alloc);
    for member in members {
        add_method(alloc, member, &mut out)?;
    }
    Ok(out)
}
