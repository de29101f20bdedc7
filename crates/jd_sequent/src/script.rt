ghost use Rattle.std.specs.Prelude.{◌≡◌, IsTrue, map, MatchOption, false};
ghost use Rattle.jd_sequent.specs.Trees.{are_trees, leaf_is_bare};
ghost use Rattle.jd_sequent.specs.Steps.{node_view};

use jd_model::Place;
use jd_syntax::Sx;

/// One application of a rule.
#[derive(Drop)]
pub struct Step {
    /// The rule's name.
    pub rule: Vec<u8>,
    /// The place that the rule acts on; `None` for `-`.
    pub place: Option<Place>,
    /// The places of the assumed formulas, in the order of the rule's row; `None` for `-`.
    pub assumes: Vec<Option<Place>>,
    /// The instantiations: names and expressions, in any order.
    pub insts: Vec<(Vec<u8>, Sx)>,
}

/// A node of a script in preorder: a step with its number of children, or an open leaf.
#[derive(Drop)]
pub struct ScriptNode {
    /// The step, in a box so that an open leaf is small; `None` for an open leaf.
    pub step: Option<Box<Step>>,
    /// How many children follow.
    pub children: u32,
}

/// A script: nodes in preorder that are exactly one tree, in which an open leaf has no children.
#[derive(Drop)]
pub struct ScriptTree {
    /// The nodes in preorder.
    pub nodes: Vec<ScriptNode>,
    pub ghost is_one_tree: { IsTrue (are_trees 1 (map node_view nodes.items)) },
}

// Whether a node without a step has no children.
fn is_bare(node: &ScriptNode) -> bool
    ensures { result ≡ leaf_is_bare (node_view node.now).step (node_view node.now).children }
{
    match node.step {
        None => node.children == 0,
        Some(_) => true,
    }
}

/// The tree whose nodes in preorder these are; `None` where they are not exactly one tree.
#[tactic(auto, using(crate::proofs::Scripts::turns), unfolding(crate::specs::Trees::are_trees))]
pub fn one_tree(nodes: Vec<ScriptNode>) -> Option<ScriptTree>
    ensures { MatchOption result (are_trees 1 (map node_view nodes.items) ≡ false) (λ t. t.nodes ≡ nodes) }
{
    let mut pending = 1u128;
    for node in &nodes {
        if pending == 0 {
            return None;
        }
        if !is_bare(node) {
            return None;
        }
        let children = node.children;
        pending = pending - 1 + u128::from(children);
    }
    if pending != 0 {
        return None;
    }
    Some(ScriptTree { nodes })
}
