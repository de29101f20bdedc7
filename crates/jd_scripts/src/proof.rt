use jd_sequent::ScriptTree;

/// A proof of a file of scripts.
#[derive(Drop)]
pub struct Proof {
    /// Its name.
    pub name: Vec<u8>,
    /// Its tree.
    pub tree: ScriptTree,
}
