//! The reasons for which a program may not have a member, and the first place of each.

ghost use Rattle.std.specs.Prelude.{◌≡◌, ◌≤◌, ◌<◌, List, length, map, IfOk, IfSome};
ghost use Rattle.jd_ancestry.specs.Ancestors.{AreNodes};
ghost use Rattle.jd_ancestry.specs.Depths.{IsDepths};
ghost use Rattle.jd_syntax.specs.JavaTrees.{JavaUnit};
ghost use Rattle.jd_jclasses.specs.Classes.{parents as parents_of_classes};
ghost use Rattle.jd_jclasses.specs.Members.{declared_members};
ghost use Rattle.jd_jclasses.specs.Numbers.{AreNumbers, SameReturn, SameSignature};
ghost use Rattle.jd_jclasses.specs.Refusals.{ClassesStand, OverloadAt, SameName};
ghost use Rattle.jd_jlists.specs.Views.{member_of_view};
ghost use Rattle.jd_jclashes.specs.Clashes.{clash_of, holds_at};
ghost use Rattle.jd_jclashes.specs.Firsts.{IsFoundFirst, earlier_of};
ghost use Rattle.jd_jclashes.specs.Items.{HaveClassesBelow, HaveRisingClasses};

use crate::clash::Clash;
use crate::compared::Compared;
use crate::items::{first_differing, first_hiding};
use crate::numbers::{MemberNumbers, Numbers};
use crate::repeats::first_repeat;
use jd_ancestry::Forest;
use jd_base::NoMemory;
use jd_jlists::MemberOf;
use std::alloc::Global;

// A reason, without a place.
#[derive(Clone, Copy)]
pub(crate) enum Reason {
    SecondMember,
    Hidden,
    Overloaded,
    BadlyOverridden,
}

impl Reason {
    // The refusal of a member for the reason.
    pub(crate) fn clash(self, member: &MemberOf<'_>) -> Clash
        ensures { result ≡ clash_of self member.now.file member.now.name.now.at }
    {
        let (file, at) = (member.file, member.name.at);
        match self {
            Reason::SecondMember => Clash::DuplicateMember { file, at },
            Reason::Hidden => Clash::Hiding { file, at },
            Reason::Overloaded => Clash::Overload { file, at },
            Reason::BadlyOverridden => Clash::BadOverride { file, at },
        }
    }
}

// The earlier of two places, of which either may be missing.
fn earlier(one: Option<u32>, other: Option<u32>) -> Option<u32>
    ensures { result ≡ earlier_of one other }
{
    match (one, other) {
        (Some(one), Some(other)) => Some(one.min(other)),
        (Some(one), None) => Some(one),
        (None, other) => other,
    }
}

// The first method of the name of another in its class, or with other parameters than one of its name in an ancestor.
fn first_overload(
    alloc: Global,
    forest: Forest<'_>,
    members: &[MemberOf<'_>],
    names: &Numbers<'_>,
    signatures: &Numbers<'_>,
) -> Result<Option<u32>, NoMemory>
    requires few_nodes { length forest.parents.now ≤ 4294967294 }
    requires few { length members.now ≤ 999999999 }
    requires few_names { names.now.count ≤ 999999999 }
    requires few_signatures { signatures.now.count ≤ 999999999 }
    requires nodes { AreNodes forest.parents.now }
    requires depths { IsDepths forest.parents.now forest.depths.now }
    requires rising { HaveRisingClasses (map member_of_view members.now) }
    requires classes { HaveClassesBelow (length forest.parents.now) (map member_of_view members.now) }
    requires named { AreNumbers SameName (map member_of_view members.now) names.now.of.now names.now.count }
    requires signed { AreNumbers SameSignature (map member_of_view members.now) signatures.now.of.now signatures.now.count }
    ensures inside { IfOk result (λ first. IfSome first (λ i. i < length members.now)) }
    ensures found { IfOk result (λ first. (units : List JavaUnit) → map member_of_view members.now ≡ declared_members units
        → forest.entry.parents.now ≡ parents_of_classes units
        → IsFoundFirst (OverloadAt units) first) }
{
    let repeat = first_repeat(alloc, Compared::Methods, members, names)?;
    let other = first_differing(alloc, Compared::Methods, forest, members, names, signatures)?;
    Ok(earlier(repeat, other))
}

// The place of the first member for which the reason holds.
pub(crate) fn first_place(
    alloc: Global,
    reason: Reason,
    forest: Forest<'_>,
    members: &[MemberOf<'_>],
    numbers: &MemberNumbers<'_>,
) -> Result<Option<u32>, NoMemory>
    requires few_nodes { length forest.parents.now ≤ 4294967294 }
    requires few { length members.now ≤ 999999999 }
    requires few_names { numbers.now.names.count ≤ 999999999 }
    requires few_signatures { numbers.now.signatures.count ≤ 999999999 }
    requires few_returns { numbers.now.returns.count ≤ 999999999 }
    requires nodes { AreNodes forest.parents.now }
    requires depths { IsDepths forest.parents.now forest.depths.now }
    requires rising { HaveRisingClasses (map member_of_view members.now) }
    requires classes { HaveClassesBelow (length forest.parents.now) (map member_of_view members.now) }
    requires named { AreNumbers SameName (map member_of_view members.now) numbers.now.names.of.now numbers.now.names.count }
    requires signed { AreNumbers SameSignature (map member_of_view members.now) numbers.now.signatures.of.now numbers.now.signatures.count }
    requires given { AreNumbers SameReturn (map member_of_view members.now) numbers.now.returns.of.now numbers.now.returns.count }
    ensures inside { IfOk result (λ first. IfSome first (λ i. i < length members.now)) }
    ensures found { IfOk result (λ first. (units : List JavaUnit) → map member_of_view members.now ≡ declared_members units
        → forest.entry.parents.now ≡ parents_of_classes units → ClassesStand units
        → IsFoundFirst (holds_at units reason) first) }
{
    let names = &numbers.names;
    let place = match reason {
        Reason::SecondMember => first_repeat(alloc, Compared::Variables, members, names)?,
        Reason::Hidden => first_hiding(alloc, forest, members, names)?,
        Reason::Overloaded => {
            first_overload(alloc, forest, members, names, &numbers.signatures)?
        }
        Reason::BadlyOverridden => first_differing(
            alloc,
            Compared::Methods,
            forest,
            members,
            names,
            &numbers.returns,
        )?,
    };
    Ok(place)
}
