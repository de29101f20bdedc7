/// What a call names.
#[derive(Clone, Copy)]
pub enum Called<'a> {
    /// A method of this name, with or without an object before it: `m(..)`, `e.m(..)` (JLS 15.12).
    Method(&'a [u8]),
    /// A constructor of the class of this name: `new C(..)` (JLS 15.9).
    New(&'a [u8]),
    /// A constructor of the class above: `super(..)` (JLS 8.8.7.1).
    Super,
}
