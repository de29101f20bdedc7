ghost use Rattle.std.specs.Prelude.{◌≡◌, ◌*◌, ◌≤◌, vec_len};

/// A directed graph over the nodes below a number.
#[derive(Drop)]
pub struct Graph {
    pub(crate) nodes: usize,
    // How many words a row has.
    pub(crate) width: usize,
    // A row for each node: bit `b % 64` of its word `b / 64` is set if it has an edge to `b`.
    pub(crate) words: Vec<u64>,
    ghost few: { nodes ≤ 65536 },
    ghost covered: { nodes ≤ 64 * width },
    ghost whole: { vec_len words ≡ nodes * width },
}
