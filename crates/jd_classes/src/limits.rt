//! How many classes and methods a program has.

ghost use Rattle.std.specs.Prelude.{◌≡◌, IfErr, OnOk, map, length, filter};
ghost use Rattle.jd_jclasses.specs.Classes.{parents};
ghost use Rattle.jd_jclasses.specs.Members.{declared_members, is_method};
ghost use Rattle.jd_jclasses.specs.Refusals.{ClassesStand, MembersStand, AreClasses};
ghost use Rattle.jd_jlists.specs.Views.{member_of_view};
ghost use Rattle.jd_syntax.specs.JavaTrees.{unit_view};
ghost use Rattle.jd_classes.specs.Refusals.{Refuses};

use crate::refusal::ClassRefusal;
use jd_jlists::MemberOf;
use jd_syntax::Unit;

// How many classes the files may have, besides the ten that are always there; and how many methods.
const GREATEST_CLASS_COUNT: usize = 266;

const GREATEST_METHOD_COUNT: usize = 2048;

// How many methods there are.
fn count_methods(members: &[MemberOf<'_>]) -> usize
    ensures { result ≡ length (filter (λ m. is_method m.kind) (map member_of_view members.now)) }
{
    let mut count = 0;
    for member in members {
        if member.is_method() {
            count += 1;
        }
    }
    count
}

/// Refuses files of more than 256 classes, or of more than 2,048 methods.
pub(crate) fn check_limits(
    units: &[Unit],
    classes: usize,
    members: &[MemberOf<'_>],
) -> Result<(), ClassRefusal>
    requires classes { classes ≡ length (parents (map unit_view units.now)) }
    requires members { map member_of_view members.now ≡ declared_members (map unit_view units.now) }
    requires heads_stand { ClassesStand (map unit_view units.now) }
    requires members_stand { MembersStand (map unit_view units.now) }
    ensures stand { OnOk result (AreClasses (map unit_view units.now)) }
    ensures refused { IfErr result (Refuses (map unit_view units.now)) }
{
    if classes > GREATEST_CLASS_COUNT {
        return Err(ClassRefusal::TooManyClasses);
    }
    if count_methods(members) > GREATEST_METHOD_COUNT {
        return Err(ClassRefusal::TooManyMethods);
    }
    Ok(())
}
