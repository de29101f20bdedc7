//! The search for the strong components of a graph along one path (H. N. Gabow, "Path-based depth-first
//! search for strong and biconnected components", 2000).

ghost use Rattle.std.specs.Prelude.{◌≡◌, ℕ, ◌+◌, ◌*◌, ◌<◌, ◌≤◌, Bool, true, false, length, slice_index, vec_len, IfOk, IfSome, IsSome, OnOk};
ghost use Rattle.std.specs.Bool.{Decides};
ghost use Rattle.jd_reach.specs.Paths.{ReachesBy};
ghost use Rattle.jd_reach.specs.Rows.{row_bit, within};
ghost use Rattle.jd_reach.specs.Searches.{EndsIn, IsRising};
ghost use Rattle.jd_reach.specs.States.{HasVisited, IsNew, IsState, Opens, Settles, steps_left};

use crate::group::close_from;
use crate::rows::{is_set, next_edge};
use crate::stack::{drop_last, ends_in, last_of, pop_above};
use jd_base::NoMemory;
use std::alloc::Global;

// The nodes that are visited and not finished stand in the order in which they were visited. They lie in
// groups of nodes that reach one another, each group a run of positions.
#[derive(Drop)]
pub(crate) struct Search {
    // The closed rows of the nodes that are finished; the bit of a finished node in its own row is set.
    pub(crate) closed: Vec<u64>,
    // The open nodes.
    pub(crate) opened: Vec<usize>,
    // The positions where groups start.
    pub(crate) starts: Vec<usize>,
    // The positions of the nodes whose edges are not all looked at.
    pub(crate) frames: Vec<usize>,
    // The position of each node that is open.
    pub(crate) place: Vec<usize>,
    // The first edge of each node that is not looked at.
    pub(crate) next: Vec<usize>,
}

impl Search {
    // No node is visited; the rows have so many words together.
    fn new(alloc: Global, nodes: usize, size: usize) -> Result<Search, NoMemory>
        ensures { IfOk result (IsNew nodes size) }
    {
        Ok(Search {
            closed: vec![in alloc; 0u64; size]?,
            opened: Vec::new(alloc),
            starts: Vec::new(alloc),
            frames: Vec::new(alloc),
            place: vec![in alloc; 0usize; nodes]?,
            next: vec![in alloc; 0usize; nodes]?,
        })
    }

    // Opens a node in a group of its own.
    fn visit(&mut self, node: usize) -> Result<(), NoMemory>
        requires { node < length self.old.place.items }
        ensures { OnOk result (Opens self.old self.new node) }
    {
        let position = self.opened.len();
        self.opened.push(node)?;
        self.starts.push(position)?;
        self.frames.push(position)?;
        self.place[node] = position;
        Ok(())
    }

    // The position of a node, if it is open.
    fn position_of(&self, node: usize) -> Option<usize>
        requires { node < length self.now.place.items }
        ensures at { IfSome result (λ j. (j < length self.now.opened.items) × (slice_index self.now.opened.items j ≡ node)) }
        ensures found { (j : ℕ) → j < length self.now.opened.items → slice_index self.now.opened.items j ≡ node
            → slice_index self.now.place.items node ≡ j → IsSome result }
    {
        let position = self.place[node];
        if position < self.opened.len() && self.opened[position] == node {
            return Some(position);
        }
        None
    }

    // Looks at an edge from the last frame: the groups from that of an open node on are one, and a node
    // that is not visited yet is opened.
    fn settle(&mut self, width: usize, to: usize) -> Result<(), NoMemory>
        requires row { to * width + width ≤ length self.old.closed.items }
        requires bit { to < 64 * width }
        requires place { to < length self.old.place.items }
        requires rising { IsRising self.old.starts.items }
        ensures { (nodes position : ℕ) (edges : ℕ → ℕ → Bool) → IsState nodes width edges self.old
            → EndsIn self.old.frames.items position → to < nodes → edges (slice_index self.old.opened.items position) to ≡ true
            → OnOk result (Settles nodes width edges self.old self.new position to) }
    {
        if let Some(position) = self.position_of(to) {
            pop_above(&mut self.starts, position);
            return Ok(());
        }
        if is_set(&self.closed, width, to, to) {
            return Ok(());
        }
        self.visit(to)?;
        Ok(())
    }

    // Finishes the last group, which starts at the last frame.
    fn finish(&mut self, words: &[u64], width: usize, nodes: usize, position: usize)
        requires rows { nodes * width ≤ length words.now }
        requires bits { nodes ≤ 64 * width }
        requires few { nodes ≤ 65536 }
        requires state { IsState nodes width (within nodes (row_bit width words.now)) self.old }
        requires frame { EndsIn self.old.frames.items position }
        requires start { EndsIn self.old.starts.items position }
        requires looked { (b : ℕ) → within nodes (row_bit width words.now) (slice_index self.old.opened.items position) b ≡ true
            → b < slice_index self.old.next.items (slice_index self.old.opened.items position) }
        ensures state { IsState nodes width (within nodes (row_bit width words.now)) self.new }
        ensures frames { length self.new.frames.items + 1 ≡ length self.old.frames.items }
        ensures next { self.new.next.items ≡ self.old.next.items }
        ensures visited { (v : ℕ) → v < nodes → HasVisited width self.old v → HasVisited width self.new v }
    {
        close_from(
            &mut self.closed,
            words,
            width,
            nodes,
            &self.opened,
            position,
        );
        self.opened.truncate(position);
        drop_last(&mut self.starts);
        drop_last(&mut self.frames);
    }

    // Leaves the last frame, all of whose edges are looked at.
    fn leave(&mut self, words: &[u64], width: usize, nodes: usize, position: usize)
        requires rows { nodes * width ≤ length words.now }
        requires bits { nodes ≤ 64 * width }
        requires few { nodes ≤ 65536 }
        requires state { IsState nodes width (within nodes (row_bit width words.now)) self.old }
        requires frame { EndsIn self.old.frames.items position }
        requires looked { (b : ℕ) → within nodes (row_bit width words.now) (slice_index self.old.opened.items position) b ≡ true
            → b < slice_index self.old.next.items (slice_index self.old.opened.items position) }
        ensures state { IsState nodes width (within nodes (row_bit width words.now)) self.new }
        ensures frames { length self.new.frames.items + 1 ≡ length self.old.frames.items }
        ensures next { self.new.next.items ≡ self.old.next.items }
        ensures visited { (v : ℕ) → v < nodes → HasVisited width self.old v → HasVisited width self.new v }
    {
        if ends_in(&self.starts, position) {
            self.finish(words, width, nodes, position);
            return;
        }
        drop_last(&mut self.frames);
    }

    // Looks at the next edge of the last frame, or leaves it.
    fn step(
        &mut self,
        words: &[u64],
        width: usize,
        nodes: usize,
        position: usize,
    ) -> Result<(), NoMemory>
        requires rows { nodes * width ≤ length words.now }
        requires bits { nodes ≤ 64 * width }
        requires few { nodes ≤ 65536 }
        requires state { IsState nodes width (within nodes (row_bit width words.now)) self.old }
        requires frame { EndsIn self.old.frames.items position }
        ensures state { OnOk result (IsState nodes width (within nodes (row_bit width words.now)) self.new) }
        ensures fewer { OnOk result (steps_left nodes self.new < steps_left nodes self.old) }
        ensures visited { OnOk result ((v : ℕ) → v < nodes → HasVisited width self.old v → HasVisited width self.new v) }
    {
        let node = self.opened[position];
        if let Some(to) = next_edge(words, width, nodes, node, self.next[node]) {
            self.settle(width, to)?;
            self.next[node] = to + 1;
            return Ok(());
        }
        self.leave(words, width, nodes, position);
        Ok(())
    }

    // Finishes a node, and all that it reaches.
    fn run(
        &mut self,
        words: &[u64],
        width: usize,
        nodes: usize,
        root: usize,
    ) -> Result<(), NoMemory>
        requires rows { nodes * width ≤ length words.now }
        requires bits { nodes ≤ 64 * width }
        requires few { nodes ≤ 65536 }
        requires state { IsState nodes width (within nodes (row_bit width words.now)) self.old }
        requires none { length self.old.opened.items ≡ 0 }
        requires root { root < nodes }
        requires unseen { row_bit width self.old.closed.items root root ≡ false }
        ensures state { OnOk result (IsState nodes width (within nodes (row_bit width words.now)) self.new) }
        ensures none { OnOk result (length self.new.opened.items ≡ 0) }
        ensures finished { OnOk result (row_bit width self.new.closed.items root root ≡ true) }
        ensures kept { OnOk result ((v : ℕ) → v < nodes → row_bit width self.old.closed.items v v ≡ true
            → row_bit width self.new.closed.items v v ≡ true) }
    {
        self.visit(root)?;
        while let Some(position) = last_of(&self.frames) {
            self.step(words, width, nodes, position)?;
        }
        Ok(())
    }
}

// The closed rows of a graph: a bit is set where a way leads.
pub(crate) fn closed_rows(
    alloc: Global,
    words: &[u64],
    width: usize,
    nodes: usize,
) -> Result<Vec<u64>, NoMemory>
    requires rows { length words.now ≡ nodes * width }
    requires bits { nodes ≤ 64 * width }
    requires few { nodes ≤ 65536 }
    ensures size { IfOk result (λ rows. vec_len rows ≡ nodes * width) }
    ensures closed { IfOk result (λ rows. (a b : ℕ) → a < nodes → b < nodes
        → Decides (row_bit width rows.items a b) (ReachesBy (within nodes (row_bit width words.now)) a b)) }
{
    let mut search = Search::new(alloc, nodes, words.len())?;
    for root in 0..nodes {
        if !is_set(&search.closed, width, root, root) {
            search.run(words, width, nodes, root)?;
        }
    }
    let Search { closed, .. } = search;
    Ok(closed)
}
