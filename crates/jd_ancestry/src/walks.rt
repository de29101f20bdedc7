//! Walks from a node up, each along nodes that no earlier one passed.

ghost use Rattle.std.specs.Prelude.{◌≡◌, ◌<◌, ◌≤◌, length, IfSome};
ghost use Rattle.jd_ancestry.specs.Ancestors.{AreNodes};
ghost use Rattle.jd_ancestry.specs.Walks.{EndsAtStamp, IsWalk, ancestor};

// What a walk met.
#[derive(Clone, Copy)]
pub(crate) struct Walk {
    // How many nodes it gave a stamp to.
    pub(crate) count: u32,
    // The node with a stamp at which it ended, or none where it ended at a node that stands below none.
    pub(crate) end: Option<u32>,
}

// Gives a stamp to a node and to those above it, up to one that has a stamp already.
pub(crate) fn walk_up(parents: &[Option<u32>], stamps: &mut [u32], start: u32, stamp: u32) -> Walk
    requires nodes { AreNodes parents.now }
    requires few { length parents.now ≤ 4294967294 }
    requires same { length stamps.old ≡ length parents.now }
    requires start { start < length parents.now }
    requires stamp { 0 < stamp }
    ensures walk { IsWalk parents.now stamps.old stamps.new start stamp result.count }
    ensures end { result.end ≡ ancestor parents.now result.count start }
    ensures inside { IfSome result.end (λ e. e < length parents.now) }
    ensures stopped { EndsAtStamp parents.now stamps.new start result.count }
{
    let mut node = start;
    let mut count = 0;
    while stamps[node as usize] == 0 {
        stamps[node as usize] = stamp;
        count += 1;
        match parents[node as usize] {
            Some(parent) => node = parent,
            None => return Walk { count, end: None },
        }
    }
    Walk {
        count,
        end: Some(node),
    }
}
