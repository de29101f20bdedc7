//! The rows of a group of nodes that reach one another, closed.

ghost use Rattle.std.specs.Prelude.{◌≡◌, ℕ, ◌+◌, ◌*◌, ◌<◌, ◌≤◌, ◌⊎◌, Bool, true, List, length, drop, Contains};
ghost use Rattle.jd_reach.specs.Paths.{ReachesBy};
ghost use Rattle.jd_reach.specs.Rows.{row_bit, within};
ghost use Rattle.jd_reach.specs.Searches.{AreClosed, AreKept, IsFilled, IsGroup};

use crate::rows::{Edges, join, next_missing, set};

// Sets the bits of the members in a row.
fn add_members(closed: &mut [u64], width: usize, nodes: usize, row: usize, members: &[usize])
    requires rows { nodes * width ≤ length closed.old }
    requires bits { nodes ≤ 64 * width }
    requires row { row < nodes }
    requires below { (m : ℕ) → Contains members.now m → m < nodes }
    ensures kept { AreKept nodes (row_bit width closed.old) (row_bit width closed.new) }
    ensures only { (a b : ℕ) → b < nodes → row_bit width closed.new a b ≡ true
        → (row_bit width closed.old a b ≡ true) ⊎ ((a ≡ row) × Contains members.now b) }
    ensures added { (m : ℕ) → Contains members.now m → row_bit width closed.new row m ≡ true }
{
    for member in members {
        set(closed, width, row, *member);
    }
}

// Joins to the row of a group the rows of the nodes that a member has an edge to, where they have more.
fn add_reached(
    closed: &mut [u64],
    words: &[u64],
    width: usize,
    nodes: usize,
    row: usize,
    member: usize,
)
    requires rows { nodes * width ≤ length closed.old }
    requires words { nodes * width ≤ length words.now }
    requires bits { nodes ≤ 64 * width }
    requires few { nodes ≤ 65536 }
    requires row { row < nodes }
    requires member { member < nodes }
    ensures kept { AreKept nodes (row_bit width closed.old) (row_bit width closed.new) }
    ensures filled { (members : List ℕ) → Contains members member
        → IsFilled nodes (within nodes (row_bit width words.now)) (row_bit width closed.old) members row
        → IsFilled nodes (within nodes (row_bit width words.now)) (row_bit width closed.new) members row }
    ensures covered { (members : List ℕ) → Contains members member
        → IsFilled nodes (within nodes (row_bit width words.now)) (row_bit width closed.old) members row
        → (v : ℕ) → within nodes (row_bit width words.now) member v ≡ true → row_bit width closed.new row v ≡ true }
{
    let edges = Edges {
        words,
        width,
        nodes,
    };
    let mut from = 0;
    while let Some(to) = next_missing(edges, closed, member, row, from) {
        join(closed, width, row, to);
        from = to + 1;
    }
}

// The same of all members: then the row is closed.
fn add_all_reached(
    closed: &mut [u64],
    words: &[u64],
    width: usize,
    nodes: usize,
    row: usize,
    members: &[usize],
)
    requires rows { nodes * width ≤ length closed.old }
    requires words { nodes * width ≤ length words.now }
    requires bits { nodes ≤ 64 * width }
    requires few { nodes ≤ 65536 }
    requires row { row < nodes }
    requires filled { IsFilled nodes (within nodes (row_bit width words.now)) (row_bit width closed.old) members.now row }
    ensures kept { AreKept nodes (row_bit width closed.old) (row_bit width closed.new) }
    ensures closed { AreClosed nodes (within nodes (row_bit width words.now)) (row_bit width closed.new) }
{
    for member in members {
        add_reached(closed, words, width, nodes, row, *member);
    }
}

// Joins the row of a group to those of its members.
fn copy_row(closed: &mut [u64], width: usize, nodes: usize, row: usize, members: &[usize])
    requires rows { nodes * width ≤ length closed.old }
    requires bits { nodes ≤ 64 * width }
    requires row { row < nodes }
    requires below { (m : ℕ) → Contains members.now m → m < nodes }
    ensures kept { AreKept nodes (row_bit width closed.old) (row_bit width closed.new) }
    ensures copied { (m b : ℕ) → Contains members.now m → b < nodes → row_bit width closed.old row b ≡ true
        → row_bit width closed.new m b ≡ true }
    ensures closed { (edges : ℕ → ℕ → Bool) → AreClosed nodes edges (row_bit width closed.old)
        → row_bit width closed.old row row ≡ true
        → ((m : ℕ) → Contains members.now m → ReachesBy edges m row × ReachesBy edges row m)
        → AreClosed nodes edges (row_bit width closed.new) }
{
    for member in members {
        join(closed, width, *member, row);
    }
}

// Closes the rows of the members of a group, whose edges lead to members and to nodes with closed rows.
fn close_group(closed: &mut [u64], words: &[u64], width: usize, nodes: usize, members: &[usize])
    requires rows { nodes * width ≤ length closed.old }
    requires words { nodes * width ≤ length words.now }
    requires bits { nodes ≤ 64 * width }
    requires few { nodes ≤ 65536 }
    requires some { 0 < length members.now }
    requires group { IsGroup nodes (within nodes (row_bit width words.now)) (row_bit width closed.old) members.now }
    requires closed { AreClosed nodes (within nodes (row_bit width words.now)) (row_bit width closed.old) }
    ensures kept { AreKept nodes (row_bit width closed.old) (row_bit width closed.new) }
    ensures closed { AreClosed nodes (within nodes (row_bit width words.now)) (row_bit width closed.new) }
    ensures members { (m : ℕ) → Contains members.now m → row_bit width closed.new m m ≡ true }
{
    let row = members[0];
    add_members(closed, width, nodes, row, members);
    add_all_reached(closed, words, width, nodes, row, members);
    copy_row(closed, width, nodes, row, members);
}

// The same of the group of the open nodes from a position on.
pub(crate) fn close_from(
    closed: &mut Vec<u64>,
    words: &[u64],
    width: usize,
    nodes: usize,
    opened: &[usize],
    position: usize,
)
    requires rows { nodes * width ≤ length closed.old.items }
    requires words { nodes * width ≤ length words.now }
    requires bits { nodes ≤ 64 * width }
    requires few { nodes ≤ 65536 }
    requires some { position < length opened.now }
    requires group { IsGroup nodes (within nodes (row_bit width words.now)) (row_bit width closed.old.items)
        (drop position opened.now) }
    requires closed { AreClosed nodes (within nodes (row_bit width words.now)) (row_bit width closed.old.items) }
    ensures size { length closed.new.items ≡ length closed.old.items }
    ensures kept { AreKept nodes (row_bit width closed.old.items) (row_bit width closed.new.items) }
    ensures closed { AreClosed nodes (within nodes (row_bit width words.now)) (row_bit width closed.new.items) }
    ensures members { (m : ℕ) → Contains (drop position opened.now) m → row_bit width closed.new.items m m ≡ true }
{
    close_group(closed, words, width, nodes, &opened[position..]);
}
