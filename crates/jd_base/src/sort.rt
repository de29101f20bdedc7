/// The sort of a term: the kind of values that it has (The KeY Book, 2.2.1).
#[derive(Clone, Copy, PartialEq, Eq, Hash, Debug)]
pub enum Sort {
    /// Unbounded integers.
    Int,
    /// Truth values.
    Bool,
    /// References to objects and arrays, and null.
    Ref,
    /// Heaps.
    Heap,
    /// Fields of objects and elements of arrays.
    Field,
}

/// The declaration of a constant.
#[derive(Debug, Drop)]
pub struct ConstDecl {
    /// The printed name: `#`, the letter of the sort, and more.
    pub name: Vec<u8>,
    /// The sort of the constant's values.
    pub sort: Sort,
}
