//! The numbers of the methods and constructors that the classes declare themselves.

ghost use Rattle.std.specs.Prelude.{◌≡◌, ◌≤◌, map, length, IfOk};
ghost use Rattle.jd_jlists.specs.Views.{member_of_view};
ghost use Rattle.jd_jseen.specs.Own.{AreOwn, AreWithin, StandAlone, column_of};

use jd_base::NoMemory;
use jd_jlists::MemberOf;
use std::alloc::Global;

// The column of a member: a method's is its name's number, a constructor's the last.
fn column_of(member: &MemberOf<'_>, name: u32, count: u32) -> Option<u32>
    ensures { result ≡ column_of name count (member_of_view member.now).kind }
{
    if member.is_constructor() {
        return Some(count);
    }
    if member.is_method() {
        return Some(name);
    }
    None
}

// For each class a row of cells, with the number of the method of each name that the class declares,
// and of its constructor.
pub(crate) fn own_cells(
    alloc: Global,
    classes: usize,
    members: &[MemberOf<'_>],
    names: &[u32],
    count: u32,
) -> Result<Vec<Option<u32>>, NoMemory>
    requires few_classes { classes ≤ 4294967295 }
    requires few_members { length members.now ≤ 4294967295 }
    requires same { length names.now ≡ length members.now }
    requires within { AreWithin (map member_of_view members.now) names.now count classes }
    requires alone { StandAlone (map member_of_view members.now) names.now count }
    ensures { IfOk result (λ cells. AreOwn (map member_of_view members.now) names.now count classes (length members.now) cells.items) }
{
    let width = count as usize + 1;
    let mut cells = vec![in alloc; None; classes * width]?;
    let mut routine: u32 = 0;
    for (index, member) in members.iter().enumerate() {
        let Some(column) = column_of(member, names[index], count) else {
            continue;
        };
        cells[member.class as usize * width + column as usize] = Some(routine);
        routine += 1;
    }
    Ok(cells)
}
