//! The proof that is being read: its nodes, and which steps are open.

ghost use Rattle.std.specs.Prelude.{◌≡◌, [], OnOk, map, reverse};
ghost use Rattle.jd_sequent.specs.Steps.{node_view};
ghost use Rattle.jd_scripts.specs.Machine as machine;
ghost use Rattle.jd_scripts.specs.Machine.{grown};

use crate::draft::Draft;
use jd_base::NoMemory;
use jd_sequent::ScriptNode;
use std::alloc::Global;

/// A proof so far: its name, its nodes, the places among them of the open steps, how many steps were opened, and the step
/// that is being read.
#[derive(Drop)]
pub(crate) struct OpenProof {
    pub name: Vec<u8>,
    pub nodes: Vec<ScriptNode>,
    pub open_steps: Vec<usize>,
    pub steps: usize,
    pub draft: Draft,
}

impl OpenProof {
    /// A proof of which nothing but the name is read.
    pub(crate) fn new(alloc: Global, name: Vec<u8>) -> OpenProof
        ensures name { result.name ≡ name }
        ensures nodes { result.nodes.items ≡ [] }
        ensures open_steps { result.open_steps.items ≡ [] }
        ensures steps { result.steps ≡ 0 }
    {
        OpenProof {
            name,
            nodes: Vec::new(alloc),
            open_steps: Vec::new(alloc),
            steps: 0,
            draft: Draft::new(alloc),
        }
    }
}

// Counts one child more at a node.
fn add_child(nodes: &mut Vec<ScriptNode>, at: usize) -> Result<(), NoMemory>
    ensures { OnOk result (map node_view nodes.new.items ≡ machine.one_child_more at (map node_view nodes.old.items)) }
{
    if nodes.len() <= at {
        return Ok(());
    }
    let node = &mut nodes[at];
    match node.children.checked_add(1) {
        None => Err(NoMemory),
        Some(children) => {
            node.children = children;
            Ok(())
        }
    }
}

// Counts one child more at the innermost open step.
fn count_child(nodes: &mut Vec<ScriptNode>, open_steps: &[usize]) -> Result<(), NoMemory>
    ensures { OnOk result (map node_view nodes.new.items ≡ machine.counted (map node_view nodes.old.items) (reverse open_steps.now)) }
{
    match open_steps.last() {
        None => Ok(()),
        Some(at) => add_child(nodes, *at),
    }
}

/// Adds a node, a child of the innermost open step.
pub(crate) fn grow(
    nodes: &mut Vec<ScriptNode>,
    open_steps: &[usize],
    node: ScriptNode,
) -> Result<(), NoMemory>
    ensures { OnOk result (map node_view nodes.new.items ≡ grown (map node_view nodes.old.items) (reverse open_steps.now) (node_view node)) }
{
    count_child(nodes, open_steps)?;
    nodes.push(node)?;
    Ok(())
}
