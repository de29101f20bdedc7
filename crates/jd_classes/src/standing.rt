//! Whether the members of files are a program's.

ghost use Rattle.std.specs.Prelude.{◌≡◌, ◌≤◌, IfOk, IfErr, OnOk, map, length};
ghost use Rattle.jd_ancestry.specs.Depths.{IsDepths};
ghost use Rattle.jd_jclasses.specs.Classes.{parents as parents_of_classes};
ghost use Rattle.jd_jclasses.specs.Members.{declared_members};
ghost use Rattle.jd_jclasses.specs.Numbers.{AreNumbers};
ghost use Rattle.jd_jclasses.specs.Refusals.{ClassesStand, MembersStand, AreClasses, SameName};
ghost use Rattle.jd_jlists.specs.Views.{member_of_view};
ghost use Rattle.jd_jnumbers.specs.Numbered.{AreNames, count_of, texts_of};
ghost use Rattle.jd_syntax.specs.JavaTrees.{unit_view};
ghost use Rattle.jd_classes.specs.Refusals.{Refuses};

use crate::limits::check_limits;
use crate::refusal::{ClassRefusal, of_clash};
use jd_jclashes::{MemberNumbers, Numbers as Told, first_clash};
use jd_jlists::MemberOf;
use jd_jnumbers::{Numbers, member_names, member_returns, member_signatures};
use jd_syntax::Unit;
use std::alloc::Global;

// The numbers as the search for clashes takes them.
fn told(numbers: &Numbers) -> Told<'_>
    ensures numbers { result.of.now ≡ numbers.now.numbers.items }
    ensures count { result.count ≡ count_of numbers.now }
{
    Told {
        of: numbers.numbers.as_slice(),
        count: numbers.count(),
    }
}

// The numbers of the members' names, where no member is refused.
#[tactic(auto, using(crate::proofs::Refusing::clash_refuses))]
fn unrefused_names(
    alloc: Global,
    units: &[Unit],
    parents: &[Option<u32>],
    depths: &[u32],
    members: &[MemberOf<'_>],
) -> Result<Numbers, ClassRefusal>
    requires few_classes { length parents.now ≤ 4294967294 }
    requires few_members { length members.now ≤ 999999999 }
    requires members { map member_of_view members.now ≡ declared_members (map unit_view units.now) }
    requires parents { parents.now ≡ parents_of_classes (map unit_view units.now) }
    requires depths { IsDepths parents.now depths.now }
    requires standing { ClassesStand (map unit_view units.now) }
    ensures numbers { IfOk result (λ n. AreNumbers SameName (declared_members (map unit_view units.now)) n.numbers.items (count_of n)) }
    ensures names { IfOk result (λ n. AreNames (declared_members (map unit_view units.now)) (texts_of n) n.numbers.items) }
    ensures stand { OnOk result (MembersStand (map unit_view units.now)) }
    ensures refused { IfErr result (Refuses (map unit_view units.now)) }
{
    let names = member_names(alloc, members)?;
    let signatures = member_signatures(alloc, members)?;
    let returns = member_returns(alloc, members)?;
    let numbers = MemberNumbers {
        names: told(&names),
        signatures: told(&signatures),
        returns: told(&returns),
    };
    match first_clash(alloc, units, parents, depths, members, &numbers)? {
        Some(clash) => Err(of_clash(clash)),
        None => Ok(names),
    }
}

/// The numbers of the members' names, where the files' classes are a program's.
pub(crate) fn standing_names(
    alloc: Global,
    units: &[Unit],
    parents: &[Option<u32>],
    depths: &[u32],
    members: &[MemberOf<'_>],
) -> Result<Numbers, ClassRefusal>
    requires few_classes { length parents.now ≤ 4294967294 }
    requires few_members { length members.now ≤ 999999999 }
    requires members { map member_of_view members.now ≡ declared_members (map unit_view units.now) }
    requires parents { parents.now ≡ parents_of_classes (map unit_view units.now) }
    requires depths { IsDepths parents.now depths.now }
    requires standing { ClassesStand (map unit_view units.now) }
    ensures numbers { IfOk result (λ n. AreNumbers SameName (declared_members (map unit_view units.now)) n.numbers.items (count_of n)) }
    ensures names { IfOk result (λ n. AreNames (declared_members (map unit_view units.now)) (texts_of n) n.numbers.items) }
    ensures stand { OnOk result (AreClasses (map unit_view units.now)) }
    ensures refused { IfErr result (Refuses (map unit_view units.now)) }
{
    let names = unrefused_names(alloc, units, parents, depths, members)?;
    check_limits(units, parents.len(), members)?;
    Ok(names)
}
