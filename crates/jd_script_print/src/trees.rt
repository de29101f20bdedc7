//! The text of trees, from their nodes in preorder.

ghost use Rattle.std.specs.Prelude.{◌≡◌, [], OnOk, map, reverse};
ghost use Rattle.jd_sequent.specs.Steps.{node_view};
ghost use Rattle.jd_script_print.specs.Writing as writing;

use crate::steps::write_step;
use jd_base::NoMemory;
use jd_sequent::ScriptNode;
use jd_written::Written;
use std::alloc::Global;

// A tree has ended: so has each open step of which it was the last tree. The innermost open step stands last, with the number of
// its trees that are still to be written.
fn end_tree(out: &mut Written, left: &mut Vec<u32>) -> Result<(), NoMemory>
    ensures { OnOk result ((out.new, reverse left.new.items) ≡ writing.end_tree out.old (reverse left.old.items)) }
{
    while let Some(more) = left.pop() {
        if 1 < more {
            left.push(more - 1)?;
            return Ok(());
        }
        out.close()?;
    }
    Ok(())
}

// So many trees of a step are to be written.
fn open_step(out: &mut Written, left: &mut Vec<u32>, children: u32) -> Result<(), NoMemory>
    ensures { OnOk result ((out.new, reverse left.new.items) ≡ writing.open_step out.old (reverse left.old.items) children) }
{
    if children == 0 {
        out.close()?;
        return end_tree(out, left);
    }
    left.push(children)?;
    Ok(())
}

fn write_node(
    alloc: Global,
    out: &mut Written,
    left: &mut Vec<u32>,
    node: &ScriptNode,
) -> Result<(), NoMemory>
    ensures { OnOk result ((out.new, reverse left.new.items)
        ≡ writing.put_node out.old (reverse left.old.items) (node_view node.now).step (node_view node.now).children) }
{
    let Some(step) = &node.step else {
        out.word(b"-")?;
        return end_tree(out, left);
    };
    write_step(alloc, out, step)?;
    open_step(out, left, node.children)
}

// The nodes of a tree in preorder.
#[tactic(auto, using(jd_syntax::proofs::Lists::rest), unfolding(crate::specs::Writing::put_nodes))]
pub(crate) fn write_nodes(
    alloc: Global,
    out: &mut Written,
    nodes: &[ScriptNode],
) -> Result<(), NoMemory>
    ensures { OnOk result (out.new ≡ (writing.put_nodes (out.old, []) (map node_view nodes.now)).0) }
{
    let mut left = Vec::new(alloc);
    for node in nodes {
        write_node(alloc, out, &mut left, node)?;
    }
    Ok(())
}
