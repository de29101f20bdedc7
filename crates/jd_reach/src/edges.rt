ghost use Rattle.std.specs.Prelude.{◌≡◌, ℕ, ◌<◌, ◌≤◌, ◌&&◌, ◌||◌, ◌==◌, false, IfOk, OnOk};
ghost use Rattle.std.specs.Bool.{Decides};
ghost use Rattle.jd_reach.specs.Graphs.{edge, node_count};
ghost use Rattle.jd_reach.specs.Paths.{ReachesBy};

use crate::graph::Graph;
use crate::rows::{is_set, set};
use crate::search::closed_rows;
use jd_base::NoMemory;
use std::alloc::Global;

impl Graph {
    /// The graph of so many nodes, at most 65,536, that has no edge.
    ///
    /// # Errors
    ///
    /// `NoMemory` if memory runs out.
    pub fn new(alloc: Global, nodes: u32) -> Result<Graph, NoMemory>
        requires { nodes ≤ 65536 }
        ensures count { IfOk result (λ g. node_count g ≡ nodes) }
        ensures empty { IfOk result (λ g. (a b : ℕ) → edge g a b ≡ false) }
    {
        let nodes = nodes as usize;
        let width = nodes.div_ceil(64);
        let words = vec![in alloc; 0u64; nodes * width]?;
        Ok(Graph {
            nodes,
            width,
            words,
        })
    }

    /// Adds an edge; all others stay.
    #[tactic(auto, unfolding(crate::specs::Graphs::edge))]
    pub fn add(&mut self, from: u32, to: u32)
        requires from { from < node_count self.old }
        requires to { to < node_count self.old }
        ensures count { node_count self.new ≡ node_count self.old }
        ensures added { (a b : ℕ) → edge self.new a b ≡ (edge self.old a b || ((a == from) && (b == to))) }
    {
        set(&mut self.words, self.width, from as usize, to as usize);
    }

    /// Whether there is an edge.
    #[tactic(auto, unfolding(crate::specs::Graphs::edge))]
    pub fn has(&self, from: u32, to: u32) -> bool
        requires from { from < node_count self.now }
        requires to { to < node_count self.now }
        ensures { result ≡ edge self.now from to }
    {
        is_set(&self.words, self.width, from as usize, to as usize)
    }

    /// Adds an edge from each node to each node that it reaches, itself among them: the graph becomes
    /// its reflexive transitive closure.
    ///
    /// # Errors
    ///
    /// `NoMemory` if memory runs out.
    #[tactic(auto, unfolding(crate::specs::Graphs::edge))]
    pub fn close(&mut self, alloc: Global) -> Result<(), NoMemory>
        ensures count { node_count self.new ≡ node_count self.old }
        ensures closed { OnOk result ((a b : ℕ) → a < node_count self.old → b < node_count self.old
            → Decides (edge self.new a b) (ReachesBy (edge self.old) a b)) }
    {
        self.words = closed_rows(alloc, &self.words, self.width, self.nodes)?;
        Ok(())
    }
}
