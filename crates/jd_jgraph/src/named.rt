//! The families of the methods of each name.

ghost use Rattle.std.specs.Prelude.{◌≡◌, ◌<◌, ℕ, [], map, length, replicate, slice_index, IfOk, OnOk};
ghost use Rattle.jd_jclasses.specs.Members.{is_method, is_routine};
ghost use Rattle.jd_jgraph.specs.Named.{AreNamed, lists_of, put_behind, put_if};
ghost use Rattle.jd_jlists.specs.Views.{member_of_view};
ghost use Rattle.jd_jseen.specs.Own.{routines_before};

use jd_base::NoMemory;
use jd_jlists::{MemberKind, MemberOf};
use std::alloc::Global;

// Whether it is a method or a constructor.
pub(crate) fn is_routine(member: &MemberOf<'_>) -> bool
    ensures { result ≡ is_routine (member_of_view member.now).kind }
{
    match member.kind {
        MemberKind::Field(_) | MemberKind::Constant(_) => false,
        MemberKind::Routine(_) => true,
    }
}

// Adds a number behind those of the list of this place.
fn put(lists: &mut Vec<Vec<u32>>, place: usize, number: u32) -> Result<(), NoMemory>
    requires { place < length lists.old.items }
    ensures { OnOk result (lists_of lists.new.items ≡ put_behind (lists_of lists.old.items) place number) }
{
    lists[place].push(number)?;
    Ok(())
}

// Adds the family of a method behind those of its name.
fn put_method(
    lists: &mut Vec<Vec<u32>>,
    member: &MemberOf<'_>,
    name: u32,
    family: u32,
) -> Result<(), NoMemory>
    requires { name < length lists.old.items }
    ensures { OnOk result (lists_of lists.new.items
        ≡ put_if (is_method (member_of_view member.now).kind) (lists_of lists.old.items) name family) }
{
    if !member.is_method() {
        return Ok(());
    }
    put(lists, name as usize, family)
}

// So many empty lists.
fn empty_lists(alloc: Global, count: u32) -> Result<Vec<Vec<u32>>, NoMemory>
    ensures { IfOk result (λ v. lists_of v.items ≡ replicate count []) }
{
    let mut lists = Vec::new(alloc);
    for _ in 0..count {
        lists.push(Vec::new(alloc))?;
    }
    Ok(lists)
}

// For each number of a name the families of the methods of this name.
pub(crate) fn families_by_name(
    alloc: Global,
    members: &[MemberOf<'_>],
    names: &[u32],
    count: u32,
    families: &[u32],
) -> Result<Vec<Vec<u32>>, NoMemory>
    requires each { length names.now ≡ length members.now }
    requires below { (i : ℕ) → i < length members.now → slice_index names.now i < count }
    requires routines { length families.now ≡ routines_before (map member_of_view members.now) (length members.now) }
    ensures count { IfOk result (λ v. length v.items ≡ count) }
    ensures named { IfOk result (λ v. AreNamed (map member_of_view members.now) names.now families.now (length members.now) (lists_of v.items)) }
{
    let mut lists = empty_lists(alloc, count)?;
    let mut routine = 0;
    for (index, member) in members.iter().enumerate() {
        if !is_routine(member) {
            continue;
        }
        put_method(&mut lists, member, names[index], families[routine])?;
        routine += 1;
    }
    Ok(lists)
}
