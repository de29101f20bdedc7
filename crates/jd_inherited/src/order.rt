//! An order of the items in which the walks between them are short.

ghost use Rattle.std.specs.Prelude.{◌≡◌, ℕ, ◌+◌, ◌<◌, ◌≤◌, length, vec_len, IfOk};
ghost use Rattle.std.specs.List.{All};
ghost use Rattle.jd_ancestry.specs.Ancestors.{AreNodes};
ghost use Rattle.jd_inherited.specs.Orders.{AreAllBelow, IsBelow, IsOrder};
ghost use Rattle.jd_inherited.specs.Places.{HaveNodesBelow};

use crate::items::Item;
use jd_base::NoMemory;
use std::alloc::Global;

// The nodes that stand directly below each node, as lists: the first of each node, behind them the
// first of those that stand below none, and the one after each node.
#[derive(Drop)]
struct Below {
    firsts: Vec<Option<u32>>,
    nexts: Vec<Option<u32>>,
}

// The number of the list of the nodes directly below a node, or, past the others, of those below none.
fn list_of(parent: Option<u32>, count: usize) -> usize
    requires { IsBelow count parent }
    ensures { result ≤ count }
{
    match parent {
        Some(parent) => parent as usize,
        None => count,
    }
}

// The lists of the nodes directly below each.
fn lists_below(alloc: Global, parents: &[Option<u32>]) -> Result<Below, NoMemory>
    requires few { length parents.now ≤ 4294967294 }
    requires nodes { AreNodes parents.now }
    ensures firsts { IfOk result (λ b. AreAllBelow (length parents.now) b.firsts.items) }
    ensures nexts { IfOk result (λ b. AreAllBelow (length parents.now) b.nexts.items) }
    ensures first_count { IfOk result (λ b. vec_len b.firsts ≡ length parents.now + 1) }
    ensures next_count { IfOk result (λ b. vec_len b.nexts ≡ length parents.now) }
{
    let mut firsts: Vec<Option<u32>> = vec![in alloc; None; parents.len() + 1]?;
    let mut nexts = Vec::new(alloc);
    for (node, parent) in parents.iter().enumerate() {
        let list = list_of(*parent, parents.len());
        let first = firsts[list];
        nexts.push(first)?;
        firsts[list] = Some(node as u32);
    }
    Ok(Below { firsts, nexts })
}

// Lets a node wait, if there is one.
fn wait_for(waiting: &mut Vec<u32>, node: Option<u32>) -> Result<(), NoMemory>
    ensures { (count : ℕ) → IsBelow count node → All (λ n. n < count) waiting.old.items
        → IfOk result (λ u. All (λ n. n < count) waiting.new.items) }
{
    if let Some(node) = node {
        waiting.push(node)?;
    }
    Ok(())
}

// A number for each node, such that a node and those below it have numbers in a row.
fn numbers(alloc: Global, parents: &[Option<u32>]) -> Result<Vec<u32>, NoMemory>
    requires few { length parents.now ≤ 4294967294 }
    requires nodes { AreNodes parents.now }
    ensures { IfOk result (λ v. vec_len v ≡ length parents.now) }
{
    let below = lists_below(alloc, parents)?;
    let mut numbers = vec![in alloc; 0u32; parents.len()]?;
    let mut waiting = Vec::new(alloc);
    wait_for(&mut waiting, below.firsts[parents.len()])?;
    for number in 0..parents.len() {
        let Some(node) = waiting.pop() else {
            break;
        };
        numbers[node as usize] = number as u32;
        wait_for(&mut waiting, below.nexts[node as usize])?;
        wait_for(&mut waiting, below.firsts[node as usize])?;
    }
    Ok(numbers)
}

// The indices of the items, each behind the number of its node, in the order of these numbers: walks in
// this order go past each item twice at most.
pub(crate) fn in_order(
    alloc: Global,
    parents: &[Option<u32>],
    items: &[Item],
) -> Result<Vec<(u32, u32)>, NoMemory>
    requires few_nodes { length parents.now ≤ 4294967294 }
    requires few_items { length items.now ≤ 4294967294 }
    requires nodes { AreNodes parents.now }
    requires items { HaveNodesBelow (length parents.now) items.now }
    ensures { IfOk result (λ v. IsOrder (length items.now) v.items) }
{
    let numbers = numbers(alloc, parents)?;
    let mut order = Vec::new(alloc);
    for (i, item) in items.iter().enumerate() {
        order.push((numbers[item.node as usize], i as u32))?;
    }
    order.sort()?;
    Ok(order)
}
