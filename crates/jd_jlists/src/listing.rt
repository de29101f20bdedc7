ghost use Rattle.jd_jclasses.specs.Classes.{declared_classes, prelude_count};
ghost use Rattle.jd_jclasses.specs.Members.{declared_members, of_classes, of_member, of_members};
ghost use Rattle.jd_jlists.specs.Views.{class_in_file, member_of_view, HasFewMembers};
ghost use Rattle.jd_syntax.specs.JavaTrees.{class_view, field_view, member_view, unit_view, FieldMember};
ghost use Rattle.std.specs.Prelude.{◌≡◌, ◌+◌, ◌<◌, ◌^◌, ◌++◌, length, map, IfOk, OnOk};
ghost use Rattle.std.specs.List.{All};

use crate::member::{MemberKind, MemberOf};
use jd_base::NoMemory;
use jd_syntax::{ClassDecl, FieldDecl, Member, Unit};
use std::alloc::Global;

// The number of the first class of the files; the classes before it are always there.
const FIRST_CLASS: u32 = 10;

// Adds the fields of a declaration.
#[tactic(auto, using(jd_syntax::proofs::Lists::rest))]
fn add_fields<'a>(
    class: u32,
    file: u32,
    place: u32,
    field: &'a FieldDecl,
    out: &mut Vec<MemberOf<'a>>,
) -> Result<(), NoMemory>
    ensures { OnOk result (map member_of_view out.new.items
        ≡ map member_of_view out.old.items ++ of_member class file place (FieldMember (field_view field.now))) }
{
    for name in &field.names {
        out.push(MemberOf {
            class,
            file,
            member: place,
            name,
            kind: MemberKind::Field(&field.ty.written),
        })?;
    }
    Ok(())
}

// Adds what a member declares.
fn add_member<'a>(
    class: u32,
    file: u32,
    place: u32,
    member: &'a Member,
    out: &mut Vec<MemberOf<'a>>,
) -> Result<(), NoMemory>
    ensures { OnOk result (map member_of_view out.new.items
        ≡ map member_of_view out.old.items ++ of_member class file place (member_view member.now)) }
{
    let (name, kind) = match member {
        Member::Field(field) => return add_fields(class, file, place, field, out),
        Member::Constant(constant) => (&constant.name, MemberKind::Constant(constant.value)),
        Member::Method(method) => (&method.name, MemberKind::Routine(method)),
    };
    out.push(MemberOf {
        class,
        file,
        member: place,
        name,
        kind,
    })?;
    Ok(())
}

// Adds what the members of a class declare.
#[tactic(auto, using(crate::proofs::Rests::members))]
fn add_members<'a>(
    class: u32,
    file: u32,
    members: &'a [Member],
    out: &mut Vec<MemberOf<'a>>,
) -> Result<(), NoMemory>
    requires { length members.now < 2 ^ 32 }
    ensures { OnOk result (map member_of_view out.new.items
        ≡ map member_of_view out.old.items ++ of_members class file 0 (map member_view members.now)) }
{
    for (place, member) in members.iter().enumerate() {
        add_member(class, file, place as u32, member, out)?;
    }
    Ok(())
}

// Adds what the classes of a file declare, of which the first has this number.
#[tactic(auto, using(crate::proofs::Rests::classes))]
fn add_classes<'a>(
    first: u32,
    file: u32,
    classes: &'a [ClassDecl],
    out: &mut Vec<MemberOf<'a>>,
) -> Result<(), NoMemory>
    requires numbers { first + length classes.now < 2 ^ 32 }
    requires places { All HasFewMembers (map class_view classes.now) }
    ensures { OnOk result (map member_of_view out.new.items
        ≡ map member_of_view out.old.items ++ of_classes first (map (class_in_file file) (map class_view classes.now))) }
{
    for (index, class) in classes.iter().enumerate() {
        add_members(first + index as u32, file, &class.members, out)?;
    }
    Ok(())
}

/// The members of the classes of these files, in the order of the files.
///
/// # Errors
///
/// `NoMemory` if memory runs out.
pub fn members_of<'a>(alloc: Global, units: &'a [Unit]) -> Result<Vec<MemberOf<'a>>, NoMemory>
    requires files { length units.now < 2 ^ 32 }
    requires classes { prelude_count + length (declared_classes (map unit_view units.now)) < 2 ^ 32 }
    requires places { All (λ d. HasFewMembers d.tree) (declared_classes (map unit_view units.now)) }
    ensures { IfOk result (λ v. map member_of_view v.items ≡ declared_members (map unit_view units.now)) }
{
    let mut out = Vec::new(alloc);
    let mut class = FIRST_CLASS;
    for (file, unit) in units.iter().enumerate() {
        add_classes(class, file as u32, &unit.classes, &mut out)?;
        class += unit.classes.len() as u32;
    }
    Ok(out)
}
