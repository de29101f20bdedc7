//! Nodes with how deep each stands.

/// Nodes of which each stands directly below one other or below none.
#[derive(Clone, Copy)]
pub struct Forest<'a> {
    /// The node that each stands directly below.
    pub parents: &'a [Option<u32>],
    /// How many nodes stand above each.
    pub depths: &'a [u32],
}
