use jd_base::{ClassId, Sort};

/// A program variable: two of them are the same where name and sort agree.
#[derive(Drop)]
pub struct VarId {
    /// The printed name.
    pub name: Vec<u8>,
    /// The sort of its values.
    pub sort: Sort,
}

/// The declaration of a parameter or local variable.
#[derive(Drop)]
pub struct VarDecl {
    /// The printed name.
    pub name: Vec<u8>,
    /// The sort of its values.
    pub sort: Sort,
    /// The declared class; `None` for `int`, `boolean` and `int[]`.
    pub class: Option<ClassId>,
}
