//! The proofs that are read so far, with their names hashed.

ghost use Rattle.std.specs.Prelude.{◌≡◌, ◌∷◌, ◌++◌, [], map, OnOk};
ghost use Rattle.std.specs.List.{list_any};
ghost use Rattle.std.specs.Str.{bytes_eq};
ghost use Rattle.jd_sequent.specs.Trees.{tree_of};
ghost use Rattle.jd_sequent.specs.Steps.{node_view};
ghost use Rattle.jd_scripts.specs.Scripts.{names_of};
ghost use Rattle.jd_scripts.specs.ProofViews.{proof_of};
ghost use Rattle.jd_script.specs.ProofViews.{proofs_view, AreHashed};

use indexmap::IndexSet;
use jd_base::{NoMemory, copy_bytes};
use jd_scripts::Proof;
use jd_sequent::ScriptTree;
use std::alloc::Global;

/// The proofs so far, and their names.
#[derive(Drop)]
pub(crate) struct Proofs {
    pub done: Vec<Proof>,
    pub names: IndexSet<Vec<u8>>,
}

impl Proofs {
    /// No proofs.
    pub(crate) fn new(alloc: Global) -> Proofs
        ensures none { proofs_view result ≡ [] }
        ensures hashed { AreHashed result }
    {
        Proofs {
            done: Vec::new(alloc),
            names: IndexSet::new(alloc),
        }
    }

    /// Whether one of them has that name.
    pub(crate) fn has(&self, name: &[u8]) -> bool
        requires { AreHashed self.now }
        ensures { result ≡ list_any (bytes_eq name.now) (names_of (proofs_view self.now)) }
    {
        self.names.contains(name)
    }

    /// One proof more.
    pub(crate) fn add(
        &mut self,
        alloc: Global,
        name: Vec<u8>,
        tree: ScriptTree,
    ) -> Result<(), NoMemory>
        requires { AreHashed self.old }
        ensures more { OnOk result (proofs_view self.new ≡ proofs_view self.old ++ proof_of name.items (tree_of (map node_view tree.nodes.items)) ∷ []) }
        ensures hashed { OnOk result (AreHashed self.new) }
    {
        let copy = copy_bytes(alloc, &name)?;
        self.names.insert(copy)?;
        self.done.push(Proof { name, tree })?;
        Ok(())
    }
}
