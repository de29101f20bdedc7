use crate::value::ValueType;

/// The class in whose body something stands, by its number, and whether it is in a static method.
#[derive(Clone, Copy, PartialEq, Eq)]
pub struct Place {
    /// The class.
    pub class: u32,
    /// Whether there is no `this`.
    pub is_static: bool,
}

/// What a name stands for where a variable may stand (JLS 6.5.6.1).
#[derive(Clone, Copy, PartialEq, Eq)]
pub enum Meaning {
    /// A parameter or local.
    Local(ValueType),
    /// A field of `this`.
    Field(u32, ValueType),
    /// A constant.
    Constant(i128),
    /// No variable.
    Nothing,
}

/// What a method gives (JLS 14.17).
#[derive(Clone, Copy, PartialEq, Eq)]
pub enum Returns {
    /// Nothing, as a constructor does.
    Nothing,
    /// A value.
    Value(ValueType),
}
