//! Members of which a class may declare one alone.

ghost use Rattle.std.specs.Prelude.{◌≡◌, ◌≤◌, ◌<◌, List, length, map, IfOk, IfSome};
ghost use Rattle.std.specs.Bool.{Decides};
ghost use Rattle.jd_syntax.specs.JavaTrees.{JavaUnit};
ghost use Rattle.jd_jclasses.specs.Members.{declared_members};
ghost use Rattle.jd_jclasses.specs.Numbers.{AreNumbers};
ghost use Rattle.jd_jclasses.specs.Refusals.{EarlierMember, SameName};
ghost use Rattle.jd_jlists.specs.Views.{member_of_view};
ghost use Rattle.jd_jclashes.specs.Firsts.{IsFoundFirst};
ghost use Rattle.jd_jclashes.specs.Items.{HaveRisingClasses};
ghost use Rattle.jd_jclashes.specs.Repeats.{IsSecond, IsSeenIn, seen_in};

use crate::compared::Compared;
use crate::numbers::Numbers;
use jd_base::NoMemory;
use jd_jlists::MemberOf;
use std::alloc::Global;

// Whether a key was seen last in this class, as it is from now on.
fn see(last: &mut Vec<Option<u32>>, key: Option<u32>, class: u32) -> bool
    requires { IfSome key (λ k. k < length last.old.items) }
    ensures seen { Decides result (IsSeenIn last.old.items key class) }
    ensures now { last.new.items ≡ seen_in last.old.items key class }
{
    let Some(key) = key else {
        return false;
    };
    let before = last[key as usize];
    last[key as usize] = Some(class);
    match before {
        Some(before) => before == class,
        None => false,
    }
}

// The first variable, or method, of the name of an earlier one of its class; beside the variables also the
// first constructor behind another of its class.
pub(crate) fn first_repeat(
    alloc: Global,
    compared: Compared,
    members: &[MemberOf<'_>],
    names: &Numbers<'_>,
) -> Result<Option<u32>, NoMemory>
    requires few { length members.now ≤ 999999999 }
    requires rising { HaveRisingClasses (map member_of_view members.now) }
    requires few_names { names.now.count ≤ 999999999 }
    requires named { AreNumbers SameName (map member_of_view members.now) names.now.of.now names.now.count }
    ensures inside { IfOk result (λ first. IfSome first (λ i. i < length members.now)) }
    ensures found { IfOk result (λ first. (units : List JavaUnit) → map member_of_view members.now ≡ declared_members units
        → IsFoundFirst (λ i. EarlierMember units i (IsSecond compared)) first) }
{
    let mut last = vec![in alloc; None; names.count as usize + 1]?;
    for (i, member) in members.iter().enumerate() {
        let key = compared.key(member, names.of[i], names.count);
        if see(&mut last, key, member.class) {
            return Ok(Some(i as u32));
        }
    }
    Ok(None)
}
