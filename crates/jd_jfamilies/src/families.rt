ghost use Rattle.std.specs.Prelude.{◌≡◌, ◌≤◌, List, map, length, slice_index, IfOk};
ghost use Rattle.jd_jclasses.specs.Methods.{AreFamilies, routines};
ghost use Rattle.jd_jclasses.specs.Refusals.{AreClasses};
ghost use Rattle.jd_jfamilies.specs.Overridden.{AreOverridden};
ghost use Rattle.jd_jlists.specs.Views.{member_of_view};
ghost use Rattle.jd_jseen.specs.Seen.{AreSeen, cells_of, name_count};
ghost use Rattle.jd_jseen.specs.Tables.{AreSomeTables, AreTables};
ghost use Rattle.jd_syntax.specs.JavaTrees.{JavaUnit};

use crate::overridden::overridden_of;
use jd_ancestry::{depths, depths_are_an_order};
use jd_base::NoMemory;
use jd_components::components;
use jd_jlists::MemberOf;
use jd_jseen::{Seen, numbers_of_routines};
use std::alloc::Global;

/// The families of a program's methods and constructors: the number of each one's family, and how many
/// families there are. Methods that are tied by overriding, over as many methods as may be, are of one
/// family (JLS 8.4.8.1); a static method and a constructor are alone in theirs. Families are numbered
/// from 0 in the order of their first methods.
#[derive(Drop)]
pub struct Families {
    /// The number of each one's family; methods and constructors stand in the order of the files.
    pub numbers: Vec<u32>,
    /// How many families there are.
    pub count: u32,
}

// The families of methods of which it is known what each overrides nearest.
fn families_by(alloc: Global, overridden: &[Option<u32>]) -> Result<Families, NoMemory>
    requires few { length overridden.now ≤ 4294967294 }
    requires overridden { (units : List JavaUnit) × AreClasses units × AreOverridden units overridden.now }
    ensures each { IfOk result (λ f. length f.numbers.items ≡ length overridden.now) }
    ensures families { (units : List JavaUnit) → AreClasses units → AreOverridden units overridden.now
        → IfOk result (λ f. AreFamilies units f.count (λ m. slice_index f.numbers.items m)) }
{
    numbers_of_routines();
    depths_are_an_order();
    let depths = depths(alloc, overridden)?;
    let components = components(alloc, overridden, &depths)?;
    Ok(Families {
        numbers: components.numbers,
        count: components.count,
    })
}

/// The families of a program's methods and constructors, by what the classes extend, their members, the
/// numbers of the members' names, and what each class sees.
///
/// # Errors
///
/// `NoMemory` if memory runs out.
pub fn families_of(
    alloc: Global,
    parents: &[Option<u32>],
    members: &[MemberOf<'_>],
    names: &[u32],
    seen: &Seen,
) -> Result<Families, NoMemory>
    requires few { length members.now ≤ 4294967294 }
    requires tables { AreSomeTables parents.now (map member_of_view members.now) names.now (name_count seen.now) }
    requires seen { (units : List JavaUnit) → AreTables units parents.now (map member_of_view members.now) names.now (name_count seen.now)
        → AreSeen units names.now (name_count seen.now) (cells_of seen.now) }
    ensures each { (units : List JavaUnit) → AreTables units parents.now (map member_of_view members.now) names.now (name_count seen.now)
        → IfOk result (λ f. length f.numbers.items ≡ length (routines units)) }
    ensures families { (units : List JavaUnit) → AreTables units parents.now (map member_of_view members.now) names.now (name_count seen.now)
        → IfOk result (λ f. AreFamilies units f.count (λ m. slice_index f.numbers.items m)) }
{
    let overridden = overridden_of(alloc, parents, members, names, seen)?;
    families_by(alloc, &overridden)
}
