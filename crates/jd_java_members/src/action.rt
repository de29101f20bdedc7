/// What a node of a file, a class or a member stands for, by the values of its parts.
#[derive(Clone, Copy)]
pub enum Action {
    /// What its third part stands for.
    Third,
    /// Classes before others.
    Classes,
    /// No classes.
    NoClasses,
    /// `class C extends D { .. }`
    Class,
    /// Modifiers before others.
    Modifiers,
    /// No modifiers that a tree has.
    NoModifiers,
    /// `static`
    Static,
    /// JML at modifiers.
    Specs,
    /// Members before others.
    Members,
    /// No members.
    NoMembers,
    /// JML before a member or the closing brace.
    SpecsBefore,
    /// A member.
    Member,
    /// What begins with `void`.
    VoidDeclaration,
    /// What begins with `boolean`.
    BooleanDeclaration,
    /// What begins with `int`.
    IntDeclaration,
    /// What begins with a name: a class as a type, or a constructor's.
    NamedDeclaration,
    /// A name, and what stands behind it.
    Declarator,
    /// `[]`, a name, and what stands behind it.
    ArrayDeclarator,
    /// The parameters and the body of a method or a constructor.
    Routine,
    /// A constant's value.
    Constant,
    /// The same behind `-`.
    NegatedConstant,
    /// A literal.
    Number,
    /// The names of further fields.
    FieldNames,
    /// A name, and others.
    Names,
    /// No names.
    NoNames,
    /// Parameters before others.
    Parameters,
    /// No parameters.
    NoParameters,
    /// A parameter.
    Parameter,
}
