/// A member: the node of its class, its key (the number of its name) and its variant (the number of
/// what members of one key are to agree in).
#[derive(Clone, Copy)]
pub struct Item {
    pub node: u32,
    pub key: u32,
    pub variant: u32,
}
