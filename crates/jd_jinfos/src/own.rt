//! What each class declares itself.

ghost use Rattle.jd_jinfos.specs.Infos.{own_nothing, own_of_each};
ghost use Rattle.jd_jinfos.specs.Stages.{member_alone, next_field, next_routine, routine_alone, with_others};
ghost use Rattle.jd_jinfos.specs.Views.{own_view};
ghost use Rattle.jd_jlists.specs.Views.{member_of_view};
ghost use Rattle.std.specs.Prelude.{◌≡◌, ◌+◌, ◌<◌, ◌^◌, All, IfOk, OnOk, length, map, replicate};

use crate::info::OwnMembers;
use jd_base::{FieldId, MethodId, NoMemory, copy_bytes};
use jd_jlists::{MemberKind, MemberOf};
use std::alloc::Global;

// So many classes that declare nothing.
fn nothing_declared(alloc: Global, classes: u32) -> Result<Vec<OwnMembers>, NoMemory>
    ensures { IfOk result (λ v. map own_view v.items ≡ replicate classes own_nothing) }
{
    let mut out = Vec::with_capacity(alloc, classes as usize)?;
    for _ in 0..classes {
        out.push(OwnMembers {
            fields: Vec::new(alloc),
            constants: Vec::new(alloc),
            constructor: None,
            methods: Vec::new(alloc),
        })?;
    }
    Ok(out)
}

// The number of the field behind the member, where the member has this one if it is a field.
fn number_of_next_field(field: u32, member: &MemberOf<'_>) -> u32
    requires { field + 1 < 2 ^ 32 }
    ensures { result ≡ next_field field (member_of_view member.now).kind }
{
    match member.kind {
        MemberKind::Field(_) => field + 1,
        MemberKind::Constant(_) | MemberKind::Routine(_) => field,
    }
}

// The number of the routine behind the member, where the member has this one if it is a routine.
fn number_of_next_routine(routine: u32, member: &MemberOf<'_>) -> u32
    requires { routine + 1 < 2 ^ 32 }
    ensures { result ≡ next_routine routine (member_of_view member.now).kind }
{
    match member.kind {
        MemberKind::Field(_) | MemberKind::Constant(_) => routine,
        MemberKind::Routine(_) => routine + 1,
    }
}

impl OwnMembers {
    // Adds a method or constructor of this number; of several constructors the first stays.
    fn add_routine(&mut self, number: u32, builds: bool) -> Result<(), NoMemory>
        ensures { OnOk result (own_view self.new ≡ with_others (own_view self.old) (routine_alone builds number)) }
    {
        if !builds {
            self.methods.push(MethodId(number))?;
        } else if self.constructor.is_none() {
            self.constructor = Some(MethodId(number));
        }
        Ok(())
    }

    // Adds a member, where the next field and the next routine have these numbers.
    fn add(
        &mut self,
        alloc: Global,
        field: u32,
        routine: u32,
        member: &MemberOf<'_>,
    ) -> Result<(), NoMemory>
        ensures { OnOk result (own_view self.new
            ≡ with_others (own_view self.old) (member_alone field routine (member_of_view member.now))) }
    {
        match member.kind {
            MemberKind::Field(_) => self.fields.push(FieldId(field))?,
            MemberKind::Constant(value) => {
                let name = copy_bytes(alloc, &member.name.name)?;
                self.constants.push((name, value))?;
            }
            MemberKind::Routine(_) => self.add_routine(routine, member.is_constructor())?,
        }
        Ok(())
    }
}

/// What each of so many classes declares itself among these members, in their order: fields by their
/// numbers among all fields, methods and constructors by theirs.
///
/// # Errors
///
/// `NoMemory` if memory runs out.
pub fn own_members(
    alloc: Global,
    classes: u32,
    members: &[MemberOf<'_>],
) -> Result<Vec<OwnMembers>, NoMemory>
    requires classes { All (λ m. m.class < classes) (map member_of_view members.now) }
    requires numbers { length members.now < 2 ^ 32 }
    ensures { IfOk result (λ v. map own_view v.items ≡ own_of_each (map member_of_view members.now) classes) }
{
    let mut own = nothing_declared(alloc, classes)?;
    let mut field = 0;
    let mut routine = 0;
    for member in members {
        own[member.class as usize].add(alloc, field, routine, member)?;
        field = number_of_next_field(field, member);
        routine = number_of_next_routine(routine, member);
    }
    Ok(own)
}
