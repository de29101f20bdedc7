use crate::contexts::FocusTest;
use jd_base::{ClassId, FieldId, Sort};
use jd_syntax::{CodeExpr, CodeStmt, Kind, VarId};
use jd_term::{Formula, Loc, Modality, Term};

/// What one schema variable stands for: a part of the tree that was matched.
#[derive(Clone, Copy)]
pub enum PartRef<'t> {
    /// A formula.
    Formula(&'t Formula),
    /// A term.
    Term(&'t Term),
    /// A literal.
    Literal(i128),
    /// Locations.
    Locations(&'t Loc),
    /// A class, or `int[]`.
    Kind(Kind),
    /// A sort.
    Sort(Sort),
    /// A program variable.
    Name(&'t VarId),
    /// The variable that takes a frame's result, where there is one.
    Result(&'t Option<VarId>),
    /// A field.
    Field(FieldId),
    /// A class.
    Class(ClassId),
    /// A label.
    Label(u32),
    /// Statements in a row.
    Code(&'t [CodeStmt]),
    /// A `return` of a simple expression, or of no value.
    Return(&'t CodeStmt),
    /// A simple expression.
    Simple(&'t CodeExpr),
    /// A modality.
    Modality(Modality),
    /// What is around the first focus of code at which a statement is looked for.
    Context(&'t [CodeStmt], FocusTest),
}
