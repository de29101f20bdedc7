/// The type of a value (JLS 4.1).
#[derive(Clone, Copy, PartialEq, Eq)]
pub enum ValueType {
    /// `int`
    Int,
    /// `boolean`
    Boolean,
    /// That of `null`.
    Null,
    /// `int[]`
    IntArray,
    /// A class, by its number.
    Class(u32),
    /// A class that no file declares. It is refused where it is written, and fits everywhere, so that it is refused there alone.
    Missing,
}

/// A variable that a class has: a field, with its number and its type, or a constant with its value (JLS 8.3).
#[derive(Clone, Copy, PartialEq, Eq)]
pub enum Variable {
    /// A field.
    Field(u32, ValueType),
    /// `static final int`
    Constant(i128),
}

/// What the name of a method stands for where it is called.
#[derive(Clone, Copy, PartialEq, Eq)]
pub enum Callee {
    /// The method or constructor of this number.
    Routine(u32),
    /// Nothing.
    Nothing,
    /// Anything, of a class that no file declares.
    Anything,
}
