//! The edges of the calls of a program.

ghost use Rattle.std.specs.Prelude.{◌≡◌, ◌<◌, ◌≤◌, ℕ, map, length, IfOk, OnOk};
ghost use Rattle.std.specs.Bool.{Decides};
ghost use Rattle.std.specs.List.{All};
ghost use Rattle.jd_jcalls.specs.Called.{called_view};
ghost use Rattle.jd_jclasses.specs.CallGraph.{calls_in};
ghost use Rattle.jd_jgraph.specs.Callees.{AreBelow, at_most_one, called_by, implied, lookup, reached, reached_by};
ghost use Rattle.jd_jgraph.specs.Edges.{with_edges, IsCalledFrom};
ghost use Rattle.jd_jlists.specs.Views.{member_of_view};
ghost use Rattle.jd_jseen.specs.Own.{routines_before};
ghost use Rattle.jd_reach.specs.Graphs.{edge, node_count};

use crate::callees::Callees;
use crate::named::is_routine;
use jd_base::NoMemory;
use jd_jcalls::{Called, calls_of};
use jd_jlists::{MemberKind, MemberOf};
use jd_reach::Graph;
use std::alloc::Global;

// Adds an edge from a node to each of these.
fn add_each(graph: &mut Graph, from: u32, to: &[u32])
    requires from { from < node_count graph.old }
    requires to { All (λ t. t < node_count graph.old) to.now }
    ensures count { node_count graph.new ≡ node_count graph.old }
    ensures edges { (a b : ℕ) → edge graph.new a b ≡ with_edges (edge graph.old) from to.now a b }
{
    for node in to {
        graph.add(from, *node);
    }
}

// Adds an edge from a node to another, if there is one.
fn add_one(graph: &mut Graph, from: u32, to: Option<u32>)
    requires from { from < node_count graph.old }
    requires to { All (λ t. t < node_count graph.old) (at_most_one to) }
    ensures count { node_count graph.new ≡ node_count graph.old }
    ensures edges { (a b : ℕ) → edge graph.new a b ≡ with_edges (edge graph.old) from (at_most_one to) a b }
{
    if let Some(node) = to {
        graph.add(from, node);
    }
}

// Adds the edges of a call in a class from the family of the caller.
fn add_call(graph: &mut Graph, callees: &Callees<'_>, class: u32, from: u32, call: &Called<'_>)
    requires from { from < node_count graph.old }
    requires below { AreBelow (lookup callees.now) (node_count graph.old) }
    ensures count { node_count graph.new ≡ node_count graph.old }
    ensures edges { (a b : ℕ) → edge graph.new a b
        ≡ with_edges (edge graph.old) from (reached (lookup callees.now) class (called_view call.now)) a b }
{
    match call {
        Called::Method(name) => add_each(graph, from, callees.methods_named(name)),
        Called::New(name) => add_one(graph, from, callees.constructor_named(name)),
        Called::Super => add_one(graph, from, callees.constructor_above(class)),
    }
}

// Adds the edges of these calls.
#[tactic(auto, using(crate::proofs::Joined::one_more_call))]
fn add_calls(graph: &mut Graph, callees: &Callees<'_>, class: u32, from: u32, calls: &[Called<'_>])
    requires from { from < node_count graph.old }
    requires below { AreBelow (lookup callees.now) (node_count graph.old) }
    ensures count { node_count graph.new ≡ node_count graph.old }
    ensures edges { (a b : ℕ) → edge graph.new a b
        ≡ with_edges (edge graph.old) from (reached_by (lookup callees.now) class (map called_view calls.now)) a b }
{
    for call in calls {
        add_call(graph, callees, class, from, call);
    }
}

// Adds the edge of the call that a constructor makes of one above it (JLS 8.8.7).
fn add_implied(graph: &mut Graph, callees: &Callees<'_>, member: &MemberOf<'_>, from: u32)
    requires from { from < node_count graph.old }
    requires below { AreBelow (lookup callees.now) (node_count graph.old) }
    ensures count { node_count graph.new ≡ node_count graph.old }
    ensures edges { (a b : ℕ) → edge graph.new a b
        ≡ with_edges (edge graph.old) from (implied (lookup callees.now) (member_of_view member.now)) a b }
{
    if member.is_constructor() {
        add_call(graph, callees, member.class, from, &Called::Super);
    }
}

// The calls in a member.
fn calls_in<'a>(alloc: Global, member: &MemberOf<'a>) -> Result<Vec<Called<'a>>, NoMemory>
    ensures { IfOk result (λ v. map called_view v.items ≡ calls_in (member_of_view member.now).kind) }
{
    match member.kind {
        MemberKind::Field(_) | MemberKind::Constant(_) => Ok(Vec::new(alloc)),
        MemberKind::Routine(routine) => calls_of(alloc, &routine.body),
    }
}

// Adds the edges of the calls of a member from its family.
fn add_member(
    alloc: Global,
    graph: &mut Graph,
    callees: &Callees<'_>,
    member: &MemberOf<'_>,
    from: u32,
) -> Result<(), NoMemory>
    requires from { from < node_count graph.old }
    requires below { AreBelow (lookup callees.now) (node_count graph.old) }
    ensures count { node_count graph.new ≡ node_count graph.old }
    ensures edges { OnOk result ((a b : ℕ) → edge graph.new a b
        ≡ with_edges (edge graph.old) from (called_by (lookup callees.now) (member_of_view member.now)) a b) }
{
    let calls = calls_in(alloc, member)?;
    add_calls(graph, callees, member.class, from, &calls);
    add_implied(graph, callees, member, from);
    Ok(())
}

// The graph of so many families that has the edges of the calls of all members.
pub(crate) fn graph_of_calls(
    alloc: Global,
    callees: &Callees<'_>,
    members: &[MemberOf<'_>],
    count: u32,
) -> Result<Graph, NoMemory>
    requires count { count ≤ 65536 }
    requires below { AreBelow (lookup callees.now) count }
    requires routines { length (lookup callees.now).families ≡ routines_before (map member_of_view members.now) (length members.now) }
    ensures count { IfOk result (λ g. node_count g ≡ count) }
    ensures edges { IfOk result (λ g. (a b : ℕ)
        → Decides (edge g a b) (IsCalledFrom (lookup callees.now) (map member_of_view members.now) (length members.now) a b)) }
{
    let families = callees.families;
    let mut graph = Graph::new(alloc, count)?;
    let mut routine = 0;
    for member in members {
        if !is_routine(member) {
            continue;
        }
        add_member(alloc, &mut graph, callees, member, families[routine])?;
        routine += 1;
    }
    Ok(graph)
}
