use jd_base::{ClassId, FieldId, MethodId};
use jd_syntax::{ClassDecl, JavaType};

/// A class (JLS 8.1).
#[derive(Drop)]
pub struct ClassInfo {
    /// Its name.
    pub name: Vec<u8>,
    /// The class that it extends (JLS 8.1.4); none for `Object` alone.
    pub parent: Option<ClassId>,
    /// The number of its file; 0 for a class that is always there.
    pub file: u32,
    /// Its declaration; none for a class that is always there.
    pub decl: Option<ClassDecl>,
    /// Its own fields in the order of their declaration (JLS 8.3).
    pub fields: Vec<FieldId>,
    /// The names and values of its own constants in the order of their declaration (JLS 8.3.2).
    pub constants: Vec<(Vec<u8>, i128)>,
    /// Its constructor, where it declares one (JLS 8.8).
    pub constructor: Option<MethodId>,
    /// Its own methods in the order of their declaration (JLS 8.4).
    pub methods: Vec<MethodId>,
}

/// A field (JLS 8.3).
#[derive(Drop)]
pub struct FieldInfo {
    /// Its name.
    pub name: Vec<u8>,
    /// The class that declares it.
    pub class: ClassId,
    /// Its type.
    pub ty: JavaType,
}

/// A method or a constructor (JLS 8.4, 8.8).
#[derive(Drop)]
pub struct MethodInfo {
    /// Its name; a constructor's is its class's.
    pub name: Vec<u8>,
    /// The class that declares it.
    pub class: ClassId,
    /// The place of its declaration among its class's members, from 0.
    pub member: u32,
    /// Whether it is static (JLS 8.4.3.2).
    pub is_static: bool,
    /// Whether it is a constructor.
    pub constructor: bool,
    /// The types of its parameters (JLS 8.4.1).
    pub params: Vec<JavaType>,
    /// The type of its result (JLS 8.4.5); none for `void` and for a constructor.
    pub result: Option<JavaType>,
}

/// What a class declares itself, by its numbers.
#[derive(Drop)]
pub struct OwnMembers {
    /// Its fields in the order of their declaration (JLS 8.3).
    pub fields: Vec<FieldId>,
    /// The names and values of its constants in the order of their declaration (JLS 8.3.2).
    pub constants: Vec<(Vec<u8>, i128)>,
    /// Its first constructor, where it declares one (JLS 8.8).
    pub constructor: Option<MethodId>,
    /// Its methods in the order of their declaration (JLS 8.4).
    pub methods: Vec<MethodId>,
}
