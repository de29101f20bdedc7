//! Parts of their own, made of lent ones and lent again.

ghost use Rattle.std.specs.Prelude.{◌≡◌, IfOk, map, option_map};
ghost use Rattle.jd_code_makers.specs.Makers.{GivesStmts};
ghost use Rattle.jd_schema.specs.Parts.{part};
ghost use Rattle.jd_schema_matching.specs.PartViews.{part_view};
ghost use Rattle.jd_syntax.specs.CodeViews.{stmt_view};
ghost use Rattle.jd_syntax.specs.Names.{var_view};

use jd_base::{ClassId, FieldId, NoMemory, Sort};
use jd_code_makers::{no_stmts, with_stmt};
use jd_schema_matching::{FocusTest, PartRef};
use jd_syntax::{CodeExpr, CodeStmt, Kind, VarId};
use jd_term::{Formula, Loc, Modality, Term};
use std::alloc::Global;

/// What one schema variable stands for.
#[derive(Drop)]
pub enum Part {
    /// A formula.
    Formula(Formula),
    /// A term.
    Term(Term),
    /// A literal.
    Literal(i128),
    /// Locations.
    Locations(Loc),
    /// A class, or `int[]`.
    Kind(Kind),
    /// A sort.
    Sort(Sort),
    /// A program variable or a constant.
    Name(VarId),
    /// The variable that takes a frame's result, where there is one.
    Result(Option<VarId>),
    /// A field.
    Field(FieldId),
    /// A class.
    Class(ClassId),
    /// A label.
    Label(u32),
    /// Statements in a row.
    Code(Vec<CodeStmt>),
    /// A `return` of a simple expression, or of no value.
    Return(CodeStmt),
    /// A simple expression.
    Simple(CodeExpr),
    /// A modality.
    Modality(Modality),
    /// What is around the first focus of code at which a statement is looked for.
    Context(Vec<CodeStmt>, FocusTest),
}

// Copies of the statements.
fn statements(alloc: Global, stmts: &[CodeStmt]) -> Result<Vec<CodeStmt>, NoMemory>
    ensures { GivesStmts result (map stmt_view stmts.now) }
{
    let mut made = no_stmts(alloc);
    for s in stmts {
        made = with_stmt(made, s.copy(alloc));
    }
    made
}

fn result(alloc: Global, r: &Option<VarId>) -> Result<Option<VarId>, NoMemory>
    ensures { IfOk result (λ v. option_map var_view v ≡ option_map var_view r.now) }
{
    match r {
        None => Ok(None),
        Some(x) => Ok(Some(x.copy(alloc)?)),
    }
}

impl Part {
    /// A copy of the part. The error is `NoMemory` alone.
    pub fn of(alloc: Global, x: PartRef<'_>) -> Result<Part, NoMemory>
        ensures { IfOk result (λ p. part p ≡ part_view x.entry) }
    {
        match x {
            PartRef::Formula(f) => Ok(Part::Formula(f.copy(alloc)?)),
            PartRef::Term(t) => Ok(Part::Term(t.copy(alloc)?)),
            PartRef::Literal(n) => Ok(Part::Literal(n)),
            PartRef::Locations(l) => Ok(Part::Locations(l.copy(alloc)?)),
            PartRef::Kind(k) => Ok(Part::Kind(k)),
            PartRef::Sort(s) => Ok(Part::Sort(s)),
            PartRef::Name(x) => Ok(Part::Name(x.copy(alloc)?)),
            PartRef::Result(r) => Ok(Part::Result(result(alloc, r)?)),
            PartRef::Field(f) => Ok(Part::Field(f)),
            PartRef::Class(c) => Ok(Part::Class(c)),
            PartRef::Label(l) => Ok(Part::Label(l)),
            PartRef::Code(c) => Ok(Part::Code(statements(alloc, c)?)),
            PartRef::Return(s) => Ok(Part::Return(s.copy(alloc)?)),
            PartRef::Simple(e) => Ok(Part::Simple(e.copy(alloc)?)),
            PartRef::Modality(m) => Ok(Part::Modality(m)),
            PartRef::Context(c, test) => Ok(Part::Context(statements(alloc, c)?, test)),
        }
    }

    /// The part, lent.
    pub fn lent(&self) -> PartRef<'_>
        ensures { part_view result ≡ part self.now }
    {
        match self {
            Part::Formula(f) => PartRef::Formula(f),
            Part::Term(t) => PartRef::Term(t),
            Part::Literal(n) => PartRef::Literal(*n),
            Part::Locations(l) => PartRef::Locations(l),
            Part::Kind(k) => PartRef::Kind(*k),
            Part::Sort(s) => PartRef::Sort(*s),
            Part::Name(x) => PartRef::Name(x),
            Part::Result(r) => PartRef::Result(r),
            Part::Field(f) => PartRef::Field(*f),
            Part::Class(c) => PartRef::Class(*c),
            Part::Label(l) => PartRef::Label(*l),
            Part::Code(c) => PartRef::Code(c),
            Part::Return(s) => PartRef::Return(s),
            Part::Simple(e) => PartRef::Simple(e),
            Part::Modality(m) => PartRef::Modality(*m),
            Part::Context(c, test) => PartRef::Context(c, *test),
        }
    }
}
