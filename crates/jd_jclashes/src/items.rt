//! Members as items: a node for each class, and numbers for what is compared.

ghost use Rattle.std.specs.Prelude.{◌≡◌, ◌+◌, ◌≤◌, ◌<◌, ℕ, List, length, map, IfOk, IfSome, slice_index};
ghost use Rattle.jd_ancestry.specs.Ancestors.{AreNodes};
ghost use Rattle.jd_ancestry.specs.Depths.{IsDepths};
ghost use Rattle.jd_syntax.specs.JavaTrees.{JavaUnit};
ghost use Rattle.jd_jclasses.specs.Classes.{parents as parents_of_classes};
ghost use Rattle.jd_jclasses.specs.Members.{declared_members};
ghost use Rattle.jd_jclasses.specs.Numbers.{AreNumbers};
ghost use Rattle.jd_jclasses.specs.Refusals.{ClassesStand, HidingAt, SameName};
ghost use Rattle.jd_jlists.specs.Views.{member_of_view};
ghost use Rattle.jd_jclashes.specs.Firsts.{IsFoundFirst};
ghost use Rattle.jd_jclashes.specs.Items.{AreItemsOf, AreVariants, DiffersAt, HaveClassesBelow, item_of};
ghost use Rattle.jd_jclashes.specs.Repeats.{is_compared};

use crate::compared::Compared;
use crate::numbers::Numbers;
use jd_ancestry::Forest;
use jd_base::NoMemory;
use jd_inherited::{Item, first_disagreeing};
use jd_jlists::MemberOf;
use std::alloc::Global;

// The member at this index as an item.
fn item(
    compared: Compared,
    i: u32,
    member: &MemberOf<'_>,
    names: &Numbers<'_>,
    variants: &Numbers<'_>,
) -> Item
    requires few { i ≤ 999999999 }
    requires named { i < length names.now.of.now }
    requires numbered { i < length variants.now.of.now }
    requires few_names { names.now.count ≤ 999999999 }
    requires few_variants { variants.now.count ≤ 999999999 }
    ensures { result ≡ item_of (is_compared compared (member_of_view member.now).kind) i member.now.class
        (slice_index names.now.of.now i) names.now.count (slice_index variants.now.of.now i) variants.now.count }
{
    if compared.has(member) {
        return Item {
            node: member.class,
            key: names.of[i as usize],
            variant: variants.of[i as usize],
        };
    }
    Item {
        node: member.class,
        key: names.count + i,
        variant: variants.count + i,
    }
}

// The members as items.
fn items_of(
    alloc: Global,
    compared: Compared,
    members: &[MemberOf<'_>],
    names: &Numbers<'_>,
    variants: &Numbers<'_>,
) -> Result<Vec<Item>, NoMemory>
    requires few { length members.now ≤ 999999999 }
    requires named { length names.now.of.now ≡ length members.now }
    requires numbered { length variants.now.of.now ≡ length members.now }
    requires few_names { names.now.count ≤ 999999999 }
    requires few_variants { variants.now.count ≤ 999999999 }
    ensures { IfOk result (λ v. AreItemsOf (is_compared compared) (map member_of_view members.now)
        names.now.of.now names.now.count variants.now.of.now variants.now.count v.items) }
{
    let mut items = Vec::new(alloc);
    for (i, member) in members.iter().enumerate() {
        items.push(item(compared, i as u32, member, names, variants))?;
    }
    Ok(items)
}

// The first compared member that differs in its number from one of its name in an ancestor.
pub(crate) fn first_differing(
    alloc: Global,
    compared: Compared,
    forest: Forest<'_>,
    members: &[MemberOf<'_>],
    names: &Numbers<'_>,
    variants: &Numbers<'_>,
) -> Result<Option<u32>, NoMemory>
    requires few_nodes { length forest.parents.now ≤ 4294967294 }
    requires few { length members.now ≤ 999999999 }
    requires few_names { names.now.count ≤ 999999999 }
    requires few_variants { variants.now.count ≤ 999999999 }
    requires nodes { AreNodes forest.parents.now }
    requires depths { IsDepths forest.parents.now forest.depths.now }
    requires classes { HaveClassesBelow (length forest.parents.now) (map member_of_view members.now) }
    requires named { AreNumbers SameName (map member_of_view members.now) names.now.of.now names.now.count }
    requires numbered { AreVariants (map member_of_view members.now) variants.now.of.now variants.now.count }
    ensures inside { IfOk result (λ first. IfSome first (λ i. i < length members.now)) }
    ensures found { IfOk result (λ first. (units : List JavaUnit) → map member_of_view members.now ≡ declared_members units
        → forest.entry.parents.now ≡ parents_of_classes units
        → IsFoundFirst (DiffersAt units (is_compared compared) variants.now.of.now) first) }
{
    let items = items_of(alloc, compared, members, names, variants)?;
    let count = members.len() as u32;
    Ok(first_disagreeing(
        alloc,
        forest,
        &items,
        names.count + count,
        variants.count + count,
    )?)
}

// The numbers below a count.
fn indices(alloc: Global, count: u32) -> Result<Vec<u32>, NoMemory>
    ensures length { IfOk result (λ v. length v.items ≡ count) }
    ensures each { IfOk result (λ v. (i : ℕ) → i < count → slice_index v.items i ≡ i) }
{
    let mut indices = Vec::new(alloc);
    for i in 0..count {
        indices.push(i)?;
    }
    Ok(indices)
}

// The first variable of the name of one of an ancestor: with a number of its own for each member.
pub(crate) fn first_hiding(
    alloc: Global,
    forest: Forest<'_>,
    members: &[MemberOf<'_>],
    names: &Numbers<'_>,
) -> Result<Option<u32>, NoMemory>
    requires few_nodes { length forest.parents.now ≤ 4294967294 }
    requires few { length members.now ≤ 999999999 }
    requires few_names { names.now.count ≤ 999999999 }
    requires nodes { AreNodes forest.parents.now }
    requires depths { IsDepths forest.parents.now forest.depths.now }
    requires classes { HaveClassesBelow (length forest.parents.now) (map member_of_view members.now) }
    requires named { AreNumbers SameName (map member_of_view members.now) names.now.of.now names.now.count }
    ensures inside { IfOk result (λ first. IfSome first (λ i. i < length members.now)) }
    ensures found { IfOk result (λ first. (units : List JavaUnit) → map member_of_view members.now ≡ declared_members units
        → forest.entry.parents.now ≡ parents_of_classes units → ClassesStand units
        → IsFoundFirst (HidingAt units) first) }
{
    let count = members.len() as u32;
    let indices = indices(alloc, count)?;
    let own = Numbers {
        of: &indices,
        count,
    };
    Ok(first_differing(alloc, Compared::Variables, forest, members, names, &own)?)
}
