//! The method that each method of a program overrides nearest.

ghost use Rattle.std.specs.Prelude.{◌≡◌, ◌<◌, ◌≤◌, List, map, length, IfOk};
ghost use Rattle.jd_jclasses.specs.Members.{is_routine, is_static};
ghost use Rattle.jd_jfamilies.specs.Listed.{AreListed, AreOfClasses, seen_above};
ghost use Rattle.jd_jfamilies.specs.Overridden.{AreOverridden};
ghost use Rattle.jd_jlists.specs.Views.{member_of_view};
ghost use Rattle.jd_jseen.specs.Seen.{AreSeen, cells_of, name_count};
ghost use Rattle.jd_jseen.specs.Tables.{AreSomeTables, AreTables};
ghost use Rattle.jd_syntax.specs.JavaTrees.{JavaUnit};

use jd_base::NoMemory;
use jd_jclasses::one_method;
use jd_jlists::{MemberKind, MemberOf};
use jd_jseen::{Seen, numbers_of_classes, numbers_of_routines};
use std::alloc::Global;

fn is_routine(member: &MemberOf<'_>) -> bool
    ensures { result ≡ is_routine (member_of_view member.now).kind }
{
    match member.kind {
        MemberKind::Field(_) | MemberKind::Constant(_) => false,
        MemberKind::Routine(_) => true,
    }
}

fn is_static(member: &MemberOf<'_>) -> bool
    ensures { result ≡ is_static (member_of_view member.now).kind }
{
    match member.kind {
        MemberKind::Field(_) | MemberKind::Constant(_) => false,
        MemberKind::Routine(routine) => routine.is_static,
    }
}

// For an instance method what the class above its own sees of its name, and nothing for others.
fn seen_above(parents: &[Option<u32>], member: &MemberOf<'_>, name: u32, seen: &Seen) -> Option<u32>
    requires { (member_of_view member.now).class < length parents.now }
    ensures { result ≡ seen_above parents.now (name_count seen.now) (cells_of seen.now) (member_of_view member.now) name }
{
    if !member.is_method() {
        return None;
    }
    if is_static(member) {
        return None;
    }
    match parents[member.class as usize] {
        Some(parent) => seen.method(parent, name),
        None => None,
    }
}

// This of each method and constructor, in their order.
fn all_seen_above(
    alloc: Global,
    parents: &[Option<u32>],
    members: &[MemberOf<'_>],
    names: &[u32],
    seen: &Seen,
) -> Result<Vec<Option<u32>>, NoMemory>
    requires same { length names.now ≡ length members.now }
    requires within { AreOfClasses (map member_of_view members.now) (length parents.now) }
    ensures { IfOk result (λ v. AreListed parents.now (map member_of_view members.now) names.now (name_count seen.now) (cells_of seen.now) (length members.now) v.items) }
{
    let mut listed = Vec::new(alloc);
    for (index, member) in members.iter().enumerate() {
        if is_routine(member) {
            listed.push(seen_above(parents, member, names[index], seen))?;
        }
    }
    Ok(listed)
}

// Of each method and constructor, in their order, the method that it overrides nearest (JLS 8.4.8.1).
pub(crate) fn overridden_of(
    alloc: Global,
    parents: &[Option<u32>],
    members: &[MemberOf<'_>],
    names: &[u32],
    seen: &Seen,
) -> Result<Vec<Option<u32>>, NoMemory>
    requires tables { AreSomeTables parents.now (map member_of_view members.now) names.now (name_count seen.now) }
    requires seen { (units : List JavaUnit) → AreTables units parents.now (map member_of_view members.now) names.now (name_count seen.now)
        → AreSeen units names.now (name_count seen.now) (cells_of seen.now) }
    ensures few { IfOk result (λ v. length v.items ≤ length members.now) }
    ensures overridden { (units : List JavaUnit) → AreTables units parents.now (map member_of_view members.now) names.now (name_count seen.now)
        → IfOk result (λ v. AreOverridden units v.items) }
{
    numbers_of_classes();
    numbers_of_routines();
    one_method();
    let overridden = all_seen_above(alloc, parents, members, names, seen)?;
    Ok(overridden)
}
