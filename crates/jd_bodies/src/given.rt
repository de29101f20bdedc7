use crate::value::ValueType;

/// What an expression gives.
#[derive(Clone, Copy, PartialEq, Eq)]
pub struct Given {
    /// The type of its value; none where it is a call of a method without result.
    pub value: Option<ValueType>,
    /// Where it names something that cannot be assigned, a constant, the length of an array, or `this`: the offset of that name.
    pub fixed: Option<u32>,
}

/// How arguments fit parameters.
#[derive(Clone, Copy, PartialEq, Eq)]
pub enum Arguments {
    /// Each fits its own.
    Fit,
    /// They are as many, and the first that does not fit stands at this offset.
    Mismatch(u32),
    /// They are more or fewer.
    OtherCount,
}
