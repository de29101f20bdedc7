use jd_syntax::{Identifier, JavaType, MethodDecl};

/// What a member is.
#[derive(Clone, Copy)]
pub enum MemberKind<'a> {
    /// A field of this type (JLS 8.3).
    Field(&'a JavaType),
    /// A constant with its value (JLS 8.3.2).
    Constant(i128),
    /// A method or a constructor (JLS 8.4, 8.8).
    Routine(&'a MethodDecl),
}

/// A member as it is declared: fields one by one.
#[derive(Clone, Copy)]
pub struct MemberOf<'a> {
    /// The number of its class; the first class of the files has the number 10.
    pub class: u32,
    /// The number of its file, from 0.
    pub file: u32,
    /// The place of its declaration among its class's members, from 0.
    pub member: u32,
    /// Its name.
    pub name: &'a Identifier,
    /// What it is.
    pub kind: MemberKind<'a>,
}
