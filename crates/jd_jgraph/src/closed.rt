//! The call graph, closed.

ghost use Rattle.std.specs.Prelude.{◌≡◌, ◌<◌, ◌≤◌, ℕ, Bool, List, map, length, slice_index, IfOk, OnOk};
ghost use Rattle.std.specs.Bool.{Decides};
ghost use Rattle.std.specs.List.{All};
ghost use Rattle.jd_jclasses.specs.CallGraph.{AreFamilyCalls};
ghost use Rattle.jd_jgraph.specs.Tables.{AreNamedTables, routine_count};
ghost use Rattle.jd_jheads.specs.Heads.{names_of};
ghost use Rattle.jd_jlists.specs.Views.{member_of_view};
ghost use Rattle.jd_jnumbers.specs.Numbered.{AreNames, texts_of};
ghost use Rattle.jd_jseen.specs.Seen.{AreSeen, cells_of, name_count};
ghost use Rattle.jd_reach.specs.Graphs.{edge, node_count};
ghost use Rattle.jd_reach.specs.Paths.{ReachesBy};
ghost use Rattle.jd_syntax.specs.JavaTrees.{JavaUnit};

use crate::adding::graph_of_calls;
use crate::callees::Callees;
use crate::named::families_by_name;
use jd_ancestry::depths_are_an_order;
use jd_base::NoMemory;
use jd_jheads::Heads;
use jd_jlists::MemberOf;
use jd_jnumbers::Numbers;
use jd_jseen::{Seen, numbers_of_classes, numbers_of_routines};
use jd_reach::Graph;
use std::alloc::Global;

/// The family of each method and constructor, in the order of the files.
#[derive(Clone, Copy)]
pub struct Numbering<'a> {
    /// The number of each one's family.
    pub of: &'a [u32],
    /// How many families there are.
    pub count: u32,
}

/// The call graph of the families of a program's methods and constructors, closed: there is an edge
/// from a family to each that it reaches by calls, over as many as may be, and to itself. A call of a
/// method counts for each method of its name, one of a constructor for the constructor that runs (JLS
/// 12.5, 15.9), and a constructor that calls none above it by `super(..)` does so all the same (JLS
/// 8.8.7).
///
/// # Errors
///
/// `NoMemory` if memory runs out.
pub fn family_graph(
    alloc: Global,
    heads: &Heads,
    members: &[MemberOf<'_>],
    names: &Numbers,
    seen: &Seen,
    families: Numbering<'_>,
) -> Result<Graph, NoMemory>
    requires few { families.count ≤ 65536 }
    requires numbers { length names.now.numbers.items ≡ length members.now }
    requires names { AreNames (map member_of_view members.now) (texts_of names.now) names.now.numbers.items }
    requires each { length families.of.now ≡ routine_count (map member_of_view members.now) }
    requires below { All (λ f. f < families.count) families.of.now }
    ensures count { IfOk result (λ g. node_count g ≡ families.entry.count) }
    ensures calls { (units : List JavaUnit)
        → AreNamedTables units (names_of heads.now) heads.now.parents.items (map member_of_view members.now) names.now.numbers.items (name_count seen.now)
        → AreSeen units names.now.numbers.items (name_count seen.now) (cells_of seen.now)
        → OnOk result ((calls : ℕ → ℕ → Bool) × AreFamilyCalls units (λ m. slice_index families.entry.of.now m) calls) }
    ensures reaches { (units : List JavaUnit)
        → AreNamedTables units (names_of heads.now) heads.now.parents.items (map member_of_view members.now) names.now.numbers.items (name_count seen.now)
        → AreSeen units names.now.numbers.items (name_count seen.now) (cells_of seen.now)
        → (calls : ℕ → ℕ → Bool) → AreFamilyCalls units (λ m. slice_index families.entry.of.now m) calls
        → IfOk result (λ g. (a b : ℕ) → a < families.entry.count → b < families.entry.count → Decides (edge g a b) (ReachesBy calls a b)) }
{
    depths_are_an_order();
    numbers_of_classes();
    numbers_of_routines();
    let by_name = families_by_name(alloc, members, &names.numbers, names.count(), families.of)?;
    let callees = Callees {
        heads,
        names,
        seen,
        families: families.of,
        by_name: &by_name,
    };
    let mut graph = graph_of_calls(alloc, &callees, members, families.count)?;
    graph.close(alloc)?;
    Ok(graph)
}
