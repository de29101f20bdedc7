ghost use Rattle.std.specs.Prelude.{◌≡◌, ◌≤◌, List, length, map, IfOk, MatchOption};
ghost use Rattle.jd_ancestry.specs.Ancestors.{AreNodes};
ghost use Rattle.jd_ancestry.specs.Depths.{IsDepths};
ghost use Rattle.jd_syntax.specs.JavaTrees.{unit_view, JavaUnit};
ghost use Rattle.jd_jclasses.specs.Classes.{parents as parents_of_classes};
ghost use Rattle.jd_jclasses.specs.Members.{declared_members};
ghost use Rattle.jd_jclasses.specs.Numbers.{AreNumbers, SameReturn, SameSignature};
ghost use Rattle.jd_jclasses.specs.Refusals.{ClassesStand, MembersStand, SameName};
ghost use Rattle.jd_jlists.specs.Views.{member_of_view};
ghost use Rattle.jd_jclashes.specs.Clashes.{ClashRefuses};
ghost use Rattle.jd_jclashes.specs.Items.{HaveClassesBelow, HaveRisingClasses};

use crate::clash::Clash;
use crate::numbers::MemberNumbers;
use crate::reason::{Reason, first_place};
use jd_ancestry::Forest;
use jd_base::NoMemory;
use jd_jlists::MemberOf;
use jd_syntax::Unit;
use std::alloc::Global;

// The reasons in the order in which they are answered.
const REASONS: [Reason; 4] = [
    Reason::SecondMember,
    Reason::Hidden,
    Reason::Overloaded,
    Reason::BadlyOverridden,
];

// The first member that no program may have, where all that the search needs is known of the members themselves.
pub(crate) fn clash_among(
    alloc: Global,
    parents: &[Option<u32>],
    depths: &[u32],
    members: &[MemberOf<'_>],
    numbers: &MemberNumbers<'_>,
) -> Result<Option<Clash>, NoMemory>
    requires few_nodes { length parents.now ≤ 4294967294 }
    requires few { length members.now ≤ 999999999 }
    requires few_names { numbers.now.names.count ≤ 999999999 }
    requires few_signatures { numbers.now.signatures.count ≤ 999999999 }
    requires few_returns { numbers.now.returns.count ≤ 999999999 }
    requires nodes { AreNodes parents.now }
    requires depths { IsDepths parents.now depths.now }
    requires rising { HaveRisingClasses (map member_of_view members.now) }
    requires classes { HaveClassesBelow (length parents.now) (map member_of_view members.now) }
    requires named { AreNumbers SameName (map member_of_view members.now) numbers.now.names.of.now numbers.now.names.count }
    requires signed { AreNumbers SameSignature (map member_of_view members.now) numbers.now.signatures.of.now numbers.now.signatures.count }
    requires given { AreNumbers SameReturn (map member_of_view members.now) numbers.now.returns.of.now numbers.now.returns.count }
    ensures { IfOk result (λ c. (units : List JavaUnit) → map member_of_view members.now ≡ declared_members units
        → parents.now ≡ parents_of_classes units → ClassesStand units
        → MatchOption c (MembersStand units) (ClashRefuses units)) }
{
    for reason in REASONS {
        if let Some(i) = first_place(alloc, reason, Forest { parents, depths }, members, numbers)? {
            return Ok(Some(reason.clash(&members[i as usize])));
        }
    }
    Ok(None)
}

/// The first member of these files that no program may have, in time and memory that grow as the files,
/// and in sorts of the members.
///
/// `parents` has what each class extends, `depths` the number of each class's ancestors, `members` what
/// `members_of` lists, and `numbers` tells which of them agree. The classes are not refused themselves.
/// Of the reasons the first in the order of `Clash` is answered, at the first member that has it.
///
/// # Errors
///
/// `NoMemory` if memory runs out.
pub fn first_clash(
    alloc: Global,
    units: &[Unit],
    parents: &[Option<u32>],
    depths: &[u32],
    members: &[MemberOf<'_>],
    numbers: &MemberNumbers<'_>,
) -> Result<Option<Clash>, NoMemory>
    requires few_classes { length parents.now ≤ 4294967294 }
    requires few_members { length members.now ≤ 999999999 }
    requires few_names { numbers.now.names.count ≤ 999999999 }
    requires few_signatures { numbers.now.signatures.count ≤ 999999999 }
    requires few_returns { numbers.now.returns.count ≤ 999999999 }
    requires members { map member_of_view members.now ≡ declared_members (map unit_view units.now) }
    requires parents { parents.now ≡ parents_of_classes (map unit_view units.now) }
    requires depths { IsDepths parents.now depths.now }
    requires standing { ClassesStand (map unit_view units.now) }
    requires names { AreNumbers SameName (declared_members (map unit_view units.now)) numbers.now.names.of.now numbers.now.names.count }
    requires signatures { AreNumbers SameSignature (declared_members (map unit_view units.now)) numbers.now.signatures.of.now numbers.now.signatures.count }
    requires returns { AreNumbers SameReturn (declared_members (map unit_view units.now)) numbers.now.returns.of.now numbers.now.returns.count }
    ensures { IfOk result (λ c. MatchOption c (MembersStand (map unit_view units.now)) (ClashRefuses (map unit_view units.now))) }
{
    clash_among(alloc, parents, depths, members, numbers)
}
