ghost use Rattle.std.specs.Prelude.{◌<◌, length};
ghost use Rattle.std.specs.Bool.{Decides};
ghost use Rattle.jd_ancestry.specs.Ancestors.{Above, AreNodes};
ghost use Rattle.jd_ancestry.specs.Depths.{IsDepths};
ghost use Rattle.jd_ancestry.specs.Laws.{AboveIsTransitive, DepthsExcludeCycles, DepthsGrowDownwards};

/// Whether the node `a` stands above the node `b`, in time that grows as the depth of `b`.
pub fn is_above(parents: &[Option<u32>], depths: &[u32], a: u32, b: u32) -> bool
    requires nodes { AreNodes parents.now }
    requires depths { IsDepths parents.now depths.now }
    requires a { a < length parents.now }
    requires b { b < length parents.now }
    ensures { Decides result (Above parents.now a b) }
{
    let mut node = b;
    while depths[a as usize] < depths[node as usize] {
        let Some(parent) = parents[node as usize] else {
            return false;
        };
        if parent == a {
            return true;
        }
        node = parent;
    }
    false
}

/// Laws, without code: what stands above a node stands above all that the node stands above; a node
/// above another has the smaller depth; and where nodes have depths, none stands above itself.
pub fn depths_are_an_order()
    ensures transitive { AboveIsTransitive }
    ensures grow { DepthsGrowDownwards }
    ensures no_cycle { DepthsExcludeCycles }
{}
