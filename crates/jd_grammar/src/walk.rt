//! A preorder read from its end. Nodes that stand for nothing or for their first part alone, as most of an expression's do, are passed
//! in runs.

ghost use Rattle.std.specs.Prelude.{◌≡◌, ◌≤◌, ◌<◌, ◌∷◌, ◌++◌, List, [], IfOk, IfSome, OnOk, length, replicate};
ghost use Rattle.jd_grammar.specs.Counted.{IsLeft, IsWalked, KeepsTop, KeptStep, QuietStep, shown};
ghost use Rattle.jd_grammar.specs.Nodes.{Evaluates, leaves};

use crate::fold::Nodes;
use crate::piles::{Blank, Piles, set_under};
use jd_base::NoMemory;
use std::alloc::Global;

/// How many entries of a preorder and how many tokens are left of it.
#[derive(Clone, Copy)]
pub(crate) struct Place {
    pub(crate) left: usize,
    pub(crate) at: usize,
}

/// The same, and how many values of nothing there are.
#[derive(Clone, Copy)]
pub(crate) struct Run {
    pub(crate) left: usize,
    pub(crate) at: usize,
    pub(crate) nothing: u32,
}

// How many values of nothing there are behind a node that stands for nothing as its parts do.
#[tactic(auto, using(crate::proofs::Walking::quiet_step))]
fn quiet_behind<T, V: Blank + Drop, N: Nodes<T, V>>(
    nodes: &N,
    production: u16,
    nothing: u32,
) -> Option<u32>
    ensures { IfSome result (λ m. QuietStep (N.count nodes.now) (N.stands nodes.now) V.nothing production nothing m) }
{
    let Some(parts) = nodes.quiet_parts(production) else {
        return None;
    };
    if parts as u32 > nothing {
        return None;
    }
    let rest = nothing - parts as u32;
    if rest == u32::MAX {
        return None;
    }
    Some(rest + 1)
}

// How many values of nothing there are below the first part of a node that stands for that.
#[tactic(auto, using(crate::proofs::Walking::kept_step))]
fn kept_behind<T, V: Blank + Drop, N: Nodes<T, V>>(
    nodes: &N,
    production: u16,
    first: &V,
    nothing: u32,
) -> Option<u32>
    ensures { IfSome result (λ m. KeptStep (N.count nodes.now) (N.stands nodes.now) V.nothing production first.now nothing m) }
{
    let Some(parts) = nodes.kept_parts(production, first) else {
        return None;
    };
    if parts as u32 > nothing {
        return None;
    }
    Some(nothing - parts as u32)
}

// Passes tokens, and nodes that stand for nothing as their parts do.
fn quiet_run<T, V: Blank + Drop, N: Nodes<T, V>>(nodes: &N, order: &[u16], from: Run) -> Run
    requires { IsLeft order.now from.left from.at }
    ensures fewer { result.left ≤ from.left }
    ensures walked { (ts : List T) (rest : List V) → IsWalked (N.count nodes.now) (N.stands nodes.now) order.now ts from.left from.at (replicate from.nothing V.nothing ++ rest) → IsWalked (N.count nodes.now) (N.stands nodes.now) order.now ts result.left result.at (replicate result.nothing V.nothing ++ rest) }
{
    let mut left = from.left;
    let mut at = from.at;
    let mut nothing = from.nothing;
    while left > 0 {
        let next = left - 1;
        let entry = order[next];
        if entry == 0 {
            left = next;
            at -= 1;
        } else {
            let Some(more) = quiet_behind(nodes, entry - 1, nothing) else {
                return Run { left, at, nothing };
            };
            left = next;
            nothing = more;
        }
    }
    Run { left, at, nothing }
}

// Passes nodes that stand for their first part, which lies on so many values of nothing.
fn kept_run<T, V: Blank + Drop, N: Nodes<T, V>>(
    nodes: &N,
    order: &[u16],
    first: &V,
    from: Run,
) -> Run
    requires { from.left ≤ length order.now }
    ensures fewer { result.left ≤ from.left }
    ensures walked { (ts : List T) (rest : List V) → IsWalked (N.count nodes.now) (N.stands nodes.now) order.now ts from.left from.at (first.now ∷ (replicate from.nothing V.nothing ++ rest)) → IsWalked (N.count nodes.now) (N.stands nodes.now) order.now ts result.left result.at (first.now ∷ (replicate result.nothing V.nothing ++ rest)) }
{
    let at = from.at;
    let mut left = from.left;
    let mut nothing = from.nothing;
    while left > 0 {
        let next = left - 1;
        let entry = order[next];
        if entry == 0 {
            return Run { left, at, nothing };
        }
        let Some(less) = kept_behind(nodes, entry - 1, first, nothing) else {
            return Run { left, at, nothing };
        };
        left = next;
        nothing = less;
    }
    Run { left, at, nothing }
}

// How far nodes stand for the value on top.
fn kept_on_top<T, V: Blank + Drop, N: Nodes<T, V>>(
    nodes: &N,
    order: &[u16],
    place: Place,
    piles: &Piles<V>,
) -> Option<Run>
    requires { place.left ≤ length order.now }
    ensures { IfSome result (λ run. KeepsTop (N.count nodes.now) (N.stands nodes.now) V.nothing order.now place.left place.at piles.now run) }
{
    if piles.waiting > 0 {
        return None;
    }
    let Some((top, _)) = piles.piles.as_slice().split_last() else {
        return None;
    };
    let Place { left, at } = place;
    let nothing = top.under;
    Some(kept_run(nodes, order, &top.value, Run { left, at, nothing }))
}

fn pass_kept<T, V: Blank + Drop, N: Nodes<T, V>>(
    nodes: &N,
    order: &[u16],
    place: Place,
    piles: &mut Piles<V>,
) -> Place
    requires { place.left ≤ length order.now }
    ensures fewer { result.left ≤ place.left }
    ensures walked { (ts : List T) → IsWalked (N.count nodes.now) (N.stands nodes.now) order.now ts place.left place.at (shown V.nothing piles.old) → IsWalked (N.count nodes.now) (N.stands nodes.now) order.now ts result.left result.at (shown V.nothing piles.new) }
{
    match kept_on_top(nodes, order, place, &*piles) {
        Some(run) => {
            set_under(piles, run.nothing);
            Place {
                left: run.left,
                at: run.at,
            }
        }
        None => place,
    }
}

fn pass_quiet<T, V: Blank + Drop, N: Nodes<T, V>>(
    nodes: &N,
    order: &[u16],
    place: Place,
    piles: &mut Piles<V>,
) -> Place
    requires { IsLeft order.now place.left place.at }
    ensures fewer { result.left ≤ place.left }
    ensures walked { (ts : List T) → IsWalked (N.count nodes.now) (N.stands nodes.now) order.now ts place.left place.at (shown V.nothing piles.old) → IsWalked (N.count nodes.now) (N.stands nodes.now) order.now ts result.left result.at (shown V.nothing piles.new) }
{
    let Place { left, at } = place;
    let nothing = piles.waiting;
    let run = quiet_run(nodes, order, Run { left, at, nothing });
    piles.waiting = run.nothing;
    Place {
        left: run.left,
        at: run.at,
    }
}

// Passes one entry.
fn pass_one<T, V: Blank + Drop, N: Nodes<T, V>>(
    alloc: Global,
    nodes: &N,
    order: &[u16],
    tokens: &[T],
    place: Place,
    piles: &mut Piles<V>,
) -> Result<Place, NoMemory>
    requires some { 0 < place.left }
    requires walked { IsWalked (N.count nodes.now) (N.stands nodes.now) order.now tokens.now place.left place.at (shown V.nothing piles.old) }
    ensures { IfOk result (λ p. (p.left < place.left) × IsWalked (N.count nodes.now) (N.stands nodes.now) order.now tokens.now p.left p.at (shown V.nothing piles.new)) }
{
    let left = place.left - 1;
    let entry = order[left];
    if entry == 0 {
        let at = place.at - 1;
        return Ok(Place { left, at });
    }
    let at = place.at;
    nodes.reduce(alloc, entry - 1, &tokens[at..], piles)?;
    Ok(Place { left, at })
}

// Passes some entries.
fn pass_some<T, V: Blank + Drop, N: Nodes<T, V>>(
    alloc: Global,
    nodes: &N,
    order: &[u16],
    tokens: &[T],
    place: Place,
    piles: &mut Piles<V>,
) -> Result<Place, NoMemory>
    requires some { 0 < place.left }
    requires walked { IsWalked (N.count nodes.now) (N.stands nodes.now) order.now tokens.now place.left place.at (shown V.nothing piles.old) }
    ensures { IfOk result (λ p. (p.left < place.left) × IsWalked (N.count nodes.now) (N.stands nodes.now) order.now tokens.now p.left p.at (shown V.nothing piles.new)) }
{
    let quiet = pass_quiet(nodes, order, place, piles);
    let kept = pass_kept(nodes, order, quiet, piles);
    if kept.left == 0 {
        return Ok(kept);
    }
    pass_one(alloc, nodes, order, tokens, kept, piles)
}

/// Puts the values of the trees with this preorder onto a stack, from the end.
pub(crate) fn evaluate<T, V: Blank + Drop, N: Nodes<T, V>>(
    alloc: Global,
    nodes: &N,
    order: &[u16],
    tokens: &[T],
    piles: &mut Piles<V>,
) -> Result<(), NoMemory>
    requires leaves { leaves order.now ≡ length tokens.now }
    requires empty { shown V.nothing piles.old ≡ [] }
    ensures { OnOk result (Evaluates (N.count nodes.now) (N.stands nodes.now) order.now tokens.now (shown V.nothing piles.new)) }
{
    let mut place = Place {
        left: order.len(),
        at: tokens.len(),
    };
    while place.left > 0 {
        place = pass_some(alloc, nodes, order, tokens, place, piles)?;
    }
    Ok(())
}
