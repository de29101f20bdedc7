//! Rows of bits in a slice of words, one row after another, each of `width` words.

ghost use Rattle.std.specs.Prelude.{◌≡◌, ℕ, ◌+◌, ◌*◌, ◌<◌, ◌≤◌, ◌&&◌, ◌||◌, ◌==◌, true, false, length, IfSome, IsSomeAnd};
ghost use Rattle.std.specs.Int.{bit_at};
ghost use Rattle.jd_reach.specs.Rows.{row_bit, within};

// Whether a bit of a row is set.
pub(crate) fn is_set(words: &[u64], width: usize, row: usize, bit: usize) -> bool
    requires row { row * width + width ≤ length words.now }
    requires bit { bit < 64 * width }
    ensures { result ≡ row_bit width words.now row bit }
{
    (words[row * width + bit / 64] >> (bit % 64)) & 1 == 1
}

// Sets a bit of a row.
pub(crate) fn set(words: &mut [u64], width: usize, row: usize, bit: usize)
    requires row { row * width + width ≤ length words.old }
    requires bit { bit < 64 * width }
    ensures { (a b : ℕ) → b < 64 * width
        → row_bit width words.new a b ≡ (row_bit width words.old a b || ((a == row) && (b == bit))) }
{
    words[row * width + bit / 64] |= 1 << (bit % 64);
}

// Adds what the row `from` has to the row `into`.
pub(crate) fn join(words: &mut [u64], width: usize, into: usize, from: usize)
    requires into { into * width + width ≤ length words.old }
    requires from { from * width + width ≤ length words.old }
    ensures { (a b : ℕ) → b < 64 * width
        → row_bit width words.new a b ≡ (row_bit width words.old a b || ((a == into) && row_bit width words.old from b)) }
{
    for word in 0..width {
        words[into * width + word] |= words[from * width + word];
    }
}

// The place of the lowest bit of a word, from a place on, that is set.
fn lowest_from(word: u64, from: usize) -> Option<usize>
    requires { from < 64 }
    ensures found { IfSome result (λ k. (from ≤ k) × (k < 64) × (bit_at word k ≡ 1)) }
    ensures lowest { (b : ℕ) → from ≤ b → bit_at word b ≡ 1 → IsSomeAnd result (λ k. k ≤ b) }
{
    let rest = word >> from;
    if rest == 0 {
        return None;
    }
    Some(from + rest.trailing_zeros() as usize)
}

// The first node, from one on, that a node has an edge to.
pub(crate) fn next_edge(
    words: &[u64],
    width: usize,
    nodes: usize,
    row: usize,
    from: usize,
) -> Option<usize>
    requires rows { nodes * width ≤ length words.now }
    requires bits { nodes ≤ 64 * width }
    requires few { nodes ≤ 65536 }
    requires row { row < nodes }
    ensures found { IfSome result (λ v. (from ≤ v) × (v < nodes) × (within nodes (row_bit width words.now) row v ≡ true)) }
    ensures first { (b : ℕ) → from ≤ b → within nodes (row_bit width words.now) row b ≡ true → IsSomeAnd result (λ v. v ≤ b) }
{
    let mut bit = from;
    while bit < nodes {
        if let Some(place) = lowest_from(words[row * width + bit / 64], bit % 64) {
            let found = bit - bit % 64 + place;
            if found < nodes {
                return Some(found);
            }
            return None;
        }
        bit = bit - bit % 64 + 64;
    }
    None
}

// The edges of a graph: rows of `width` words, one for each node.
#[derive(Clone, Copy)]
pub(crate) struct Edges<'a> {
    pub(crate) words: &'a [u64],
    pub(crate) width: usize,
    pub(crate) nodes: usize,
}

// The first node, from one on, that a node has an edge to and that a closed row lacks.
pub(crate) fn next_missing(
    edges: Edges<'_>,
    closed: &[u64],
    member: usize,
    row: usize,
    from: usize,
) -> Option<usize>
    requires words { edges.nodes * edges.width ≤ length edges.words.now }
    requires rows { edges.nodes * edges.width ≤ length closed.now }
    requires bits { edges.nodes ≤ 64 * edges.width }
    requires few { edges.nodes ≤ 65536 }
    requires member { member < edges.nodes }
    requires row { row < edges.nodes }
    ensures found { IfSome result (λ v. (from ≤ v) × (v < edges.entry.nodes)
        × (within edges.entry.nodes (row_bit edges.entry.width edges.entry.words.now) member v ≡ true) × (row_bit edges.entry.width closed.now row v ≡ false)) }
    ensures first { (b : ℕ) → from ≤ b → within edges.entry.nodes (row_bit edges.entry.width edges.entry.words.now) member b ≡ true
        → row_bit edges.entry.width closed.now row b ≡ false → IsSomeAnd result (λ v. v ≤ b) }
{
    let mut bit = from;
    while bit < edges.nodes {
        let word = edges.words[member * edges.width + bit / 64];
        let known = closed[row * edges.width + bit / 64];
        if let Some(place) = lowest_from(word & !known, bit % 64) {
            let found = bit - bit % 64 + place;
            if found < edges.nodes {
                return Some(found);
            }
            return None;
        }
        bit = bit - bit % 64 + 64;
    }
    None
}
