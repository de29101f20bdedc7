//! Assignments: what is done before the value, and what behind it.

ghost use Rattle.std.specs.Prelude.{◌≡◌, [], List, Some, map};
ghost use Rattle.jd_bodies.specs.Codes.{Made, steps_code};
ghost use Rattle.jd_bodies.specs.Variables.{Progress, local_name};
ghost use Rattle.jd_code_makers.specs.Held.{Holds};
ghost use Rattle.jd_code_makers.specs.Makers.{GivesExpr, GivesName, GivesStmt, GivesStmts};
ghost use Rattle.jd_expression_code.specs.Assigning as plain;
ghost use Rattle.jd_expression_code.specs.Assigning.{GivesAssigned, GivesBegun, GivesReading, PlainAssigned, PlainReading, assigned_view, begun_view};
ghost use Rattle.jd_syntax.specs.CodeViews.{stmt_view};
ghost use Rattle.jd_syntax.specs.Codes as code;
ghost use Rattle.jd_syntax.specs.Codes.{Expr, Stmt};
ghost use Rattle.jd_syntax.specs.Names.{Name, var_view};

use jd_base::{NoMemory, both};
use jd_bodies::ValueType;
use jd_code_makers as makers;
use jd_code_makers::{
    binary, copied, do_then, integer, no_stmts, null, one_stmt, read_element, read_field, set,
    two_stmts, variable, with_stmt, write_element, write_field,
};
use jd_lists::discard;
use jd_syntax::{BinaryOp, CodeExpr, CodeStmt, VarId};
use std::alloc::Global;

/// What is assigned, as far as it is known before the value.
#[derive(Drop)]
pub enum Assigned {
    /// A local.
    Local(VarId),
    /// The field of this number and type, of the object in the variable.
    Field(VarId, u32, ValueType),
    /// The element of the array in the first variable at the index in the second.
    Element(VarId, VarId),
}

/// What is done before the value, and what is assigned then.
#[derive(Drop)]
pub struct Begun {
    /// The statements before the value.
    pub stmts: Vec<CodeStmt>,
    /// What is assigned.
    pub assigned: Assigned,
}

/// The same, with the old value in a variable.
#[derive(Drop)]
pub struct Reading {
    /// What is done before the value.
    pub begun: Begun,
    /// The variable that has the old value.
    pub old: VarId,
}

// What is done before and what is assigned, if both have been made.
fn begun_by(
    stmts: Result<Vec<CodeStmt>, NoMemory>,
    assigned: Result<Assigned, NoMemory>,
) -> Result<Option<Begun>, NoMemory>
    ensures { (ss : List Stmt) (a : PlainAssigned) → GivesStmts stmts ss → GivesAssigned assigned a → GivesBegun result (Some (record { stmts = ss; assigned = a })) }
{
    let (stmts, assigned) = both(stmts, assigned)?;
    Ok(Some(Begun { stmts, assigned }))
}

// The field of the object in the variable.
fn field_of(v: Result<VarId, NoMemory>, field: u32, value: ValueType) -> Result<Assigned, NoMemory>
    ensures { (x : Name) → GivesName v x → GivesAssigned result (plain.FieldOf x field value) }
{
    Ok(Assigned::Field(v?, field, value))
}

// The element of the array in the one variable at the index in the other.
fn element_of(v: Result<VarId, NoMemory>, w: Result<VarId, NoMemory>) -> Result<Assigned, NoMemory>
    ensures { (x y : Name) → GivesName v x → GivesName w y → GivesAssigned result (plain.ElementOf x y) }
{
    let (v, w) = both(v, w)?;
    Ok(Assigned::Element(v, w))
}

/// A local of this name is assigned.
pub(crate) fn local_begun(
    v: Result<VarId, NoMemory>,
    alloc: Global,
) -> Result<Option<Begun>, NoMemory>
    ensures { (x : Name) → GivesName v x → GivesBegun result (Some (record { stmts = []; assigned = plain.LocalOf x })) }
{
    let v = v?;
    Ok(Some(Begun {
        stmts: Vec::new(alloc),
        assigned: Assigned::Local(v),
    }))
}

/// A field of an object of the first type is assigned.
pub(crate) fn field_begun(
    alloc: Global,
    p: &mut makers::Progress,
    object: Result<CodeExpr, NoMemory>,
    t: ValueType,
    field: u32,
    value: ValueType,
) -> Result<Option<Begun>, NoMemory>
    ensures progress { (m : Made) → Holds p.old m.0 → Holds p.new (plain.field_begun t field value m).0 }
    ensures begun { (m : Made) → Holds p.old m.0 → GivesExpr object m.1 → GivesBegun result (plain.field_begun t field value m).1 }
{
    let kept = p.temporary(alloc, t);
    let stmts = one_stmt(alloc, set(copied(alloc, &kept), object));
    begun_by(stmts, field_of(kept, field, value))
}

/// An element of the array in the variable is assigned.
pub(crate) fn element_begun(
    alloc: Global,
    p: &mut makers::Progress,
    array: Result<CodeExpr, NoMemory>,
    v: Result<VarId, NoMemory>,
    index: Result<CodeExpr, NoMemory>,
) -> Result<Option<Begun>, NoMemory>
    ensures progress { (a : Expr) (o : Name) (m : Made) → Holds p.old m.0 → Holds p.new (plain.element_begun a o m).0 }
    ensures begun { (a : Expr) (o : Name) (m : Made) → Holds p.old m.0 → GivesExpr array a → GivesName v o → GivesExpr index m.1 → GivesBegun result (plain.element_begun a o m).1 }
{
    let kept = p.temporary(alloc, ValueType::Int);
    let first = set(copied(alloc, &v), array);
    let second = set(copied(alloc, &kept), index);
    begun_by(two_stmts(alloc, first, second), element_of(v, kept))
}

// What is read where this is assigned.
fn old_value(alloc: Global, assigned: &Assigned) -> Result<CodeExpr, NoMemory>
    ensures { GivesExpr result (plain.old_code (assigned_view assigned.now)) }
{
    match assigned {
        Assigned::Local(x) => variable(x.copy(alloc)),
        Assigned::Field(o, f, _) => read_field(alloc, variable(o.copy(alloc)), *f),
        Assigned::Element(o, j) => {
            read_element(alloc, variable(o.copy(alloc)), variable(j.copy(alloc)))
        }
    }
}

// The variable that has the old value: a local itself, or a new temporary.
fn old_variable(
    alloc: Global,
    p: &mut makers::Progress,
    assigned: &Assigned,
) -> Result<VarId, NoMemory>
    ensures progress { (q : Progress) → Holds p.old q → Holds p.new (plain.old_variable (assigned_view assigned.now) q).0 }
    ensures name { (q : Progress) → Holds p.old q → GivesName result (plain.old_variable (assigned_view assigned.now) q).1 }
{
    match assigned {
        Assigned::Local(x) => x.copy(alloc),
        Assigned::Field(_, _, t) => p.temporary(alloc, *t),
        Assigned::Element(_, _) => p.temporary(alloc, ValueType::Int),
    }
}

// The statements with one more that keeps the old value, but for a local.
fn with_old(
    alloc: Global,
    stmts: Vec<CodeStmt>,
    assigned: &Assigned,
    old: &Result<VarId, NoMemory>,
) -> Result<Vec<CodeStmt>, NoMemory>
    ensures { (k : Name) → GivesName old.now k → GivesStmts result (plain.with_old (assigned_view assigned.now) k (map stmt_view stmts.items)) }
{
    match assigned {
        Assigned::Local(_) => Ok(stmts),
        Assigned::Field(_, _, _) | Assigned::Element(_, _) => with_stmt(
            Ok(stmts),
            set(copied(alloc, old), old_value(alloc, assigned)),
        ),
    }
}

/// Reads the old value.
pub fn read(alloc: Global, p: &mut makers::Progress, b: Begun) -> Result<Reading, NoMemory>
    ensures progress { (q : Progress) → Holds p.old q → Holds p.new (plain.reading (begun_view b) q).0 }
    ensures reading { (q : Progress) → Holds p.old q → GivesReading result (plain.reading (begun_view b) q).1 }
{
    let Begun { stmts, assigned } = b;
    let old = old_variable(alloc, p, &assigned);
    let stmts = with_old(alloc, stmts, &assigned, &old);
    let (stmts, (assigned, old)) = both(stmts, both(Ok(assigned), old))?;
    Ok(Reading {
        begun: Begun { stmts, assigned },
        old,
    })
}

/// What is assigned takes a value.
pub fn written(
    alloc: Global,
    assigned: &Assigned,
    value: Result<CodeExpr, NoMemory>,
) -> Result<CodeStmt, NoMemory>
    ensures { (x : Expr) → GivesExpr value x → GivesStmt result (plain.write (assigned_view assigned.now) x) }
{
    match assigned {
        Assigned::Local(x) => set(x.copy(alloc), value),
        Assigned::Field(o, f, _) => write_field(variable(o.copy(alloc)), *f, value),
        Assigned::Element(o, j) => {
            write_element(variable(o.copy(alloc)), variable(j.copy(alloc)), value)
        }
    }
}

// The value is kept in the variable, which is written.
fn write_kept(
    alloc: Global,
    b: Begun,
    kept: Result<VarId, NoMemory>,
    value: Result<CodeExpr, NoMemory>,
) -> Result<CodeExpr, NoMemory>
    ensures { (k : Name) (x : Expr) → GivesName kept k → GivesExpr value x → GivesExpr result (plain.write_kept (begun_view b) k x) }
{
    let Begun { stmts, assigned } = b;
    let first = set(copied(alloc, &kept), value);
    let last = written(alloc, &assigned, variable(copied(alloc, &kept)));
    let stmts = with_stmt(with_stmt(Ok(stmts), first), last);
    do_then(alloc, stmts, variable(kept))
}

/// The value is kept in a temporary, which is written.
pub(crate) fn kept_written(
    alloc: Global,
    p: &mut makers::Progress,
    t: ValueType,
    b: Begun,
    value: Result<CodeExpr, NoMemory>,
) -> Result<CodeExpr, NoMemory>
    ensures progress { (m : Made) → Holds p.old m.0 → Holds p.new (steps_code (plain.kept_written t (begun_view b) m)).0 }
    ensures value { (m : Made) → Holds p.old m.0 → GivesExpr value m.1 → GivesExpr result (steps_code (plain.kept_written t (begun_view b) m)).1 }
{
    let kept = p.temporary(alloc, t);
    write_kept(alloc, b, kept, value)
}

// The new value is computed of the old one and this, kept in the variable, and written.
fn write_changed(
    alloc: Global,
    operation: BinaryOp,
    r: Result<Reading, NoMemory>,
    kept: Result<VarId, NoMemory>,
    value: Result<CodeExpr, NoMemory>,
) -> Result<CodeExpr, NoMemory>
    ensures { (y : PlainReading) (k : Name) (x : Expr) → GivesReading r y → GivesName kept k → GivesExpr value x → GivesExpr result (plain.write_kept y.begun k (code.Binary operation (code.Variable y.old) x)) }
{
    let ((r, kept), value) = both(both(r, kept), value)?;
    let Reading { begun, old } = r;
    let new = binary(alloc, operation, variable(Ok(old)), Ok(value));
    write_kept(alloc, begun, Ok(kept), new)
}

/// The new value is computed of the old one and this, kept and written.
pub(crate) fn changed(
    alloc: Global,
    p: &mut makers::Progress,
    operation: BinaryOp,
    r: Result<Reading, NoMemory>,
    value: Result<CodeExpr, NoMemory>,
) -> Result<CodeExpr, NoMemory>
    ensures progress { (x : PlainReading) (m : Made) → Holds p.old m.0 → Holds p.new (steps_code (plain.changed operation x m)).0 }
    ensures value { (x : PlainReading) (m : Made) → Holds p.old m.0 → GivesReading r x → GivesExpr value m.1 → GivesExpr result (steps_code (plain.changed operation x m)).1 }
{
    let kept = p.temporary(alloc, ValueType::Int);
    write_changed(alloc, operation, r, kept, value)
}

// The value of `x++` and the like for a local: its old value is kept.
fn local_counted(
    alloc: Global,
    p: &mut makers::Progress,
    operation: BinaryOp,
    x: VarId,
) -> Result<CodeExpr, NoMemory>
    ensures progress { (q : Progress) → Holds p.old q → Holds p.new (steps_code (plain.local_counted operation (var_view x) q)).0 }
    ensures value { (q : Progress) → Holds p.old q → GivesExpr result (steps_code (plain.local_counted operation (var_view x) q)).1 }
{
    let kept = p.temporary(alloc, ValueType::Int);
    let new = binary(alloc, operation, variable(x.copy(alloc)), integer(1));
    let first = set(copied(alloc, &kept), variable(x.copy(alloc)));
    let last = set(Ok(x), new);
    do_then(alloc, two_stmts(alloc, first, last), variable(kept))
}

// The same of a field or an element, whose old value has been read.
fn read_counted(
    alloc: Global,
    operation: BinaryOp,
    r: Result<Reading, NoMemory>,
) -> Result<CodeExpr, NoMemory>
    ensures { (q : Progress) (x : PlainReading) → GivesReading r x → GivesExpr result (steps_code (plain.read_counted operation (q, x))).1 }
{
    let Reading { begun, old } = r?;
    let Begun { stmts, assigned } = begun;
    let new = binary(alloc, operation, variable(old.copy(alloc)), integer(1));
    let last = written(alloc, &assigned, new);
    do_then(alloc, with_stmt(Ok(stmts), last), variable(Ok(old)))
}

/// The value of `x++` and the like, which is the old one.
pub(crate) fn counted(
    alloc: Global,
    p: &mut makers::Progress,
    operation: BinaryOp,
    b: Begun,
) -> Result<CodeExpr, NoMemory>
    ensures progress { (q : Progress) → Holds p.old q → Holds p.new (steps_code (plain.counted operation (begun_view b) q)).0 }
    ensures value { (q : Progress) → Holds p.old q → GivesExpr result (steps_code (plain.counted operation (begun_view b) q)).1 }
{
    let Begun { stmts, assigned } = b;
    match assigned {
        Assigned::Local(x) => {
            discard(stmts);
            local_counted(alloc, p, operation, x)
        }
        Assigned::Field(o, f, t) => {
            let assigned = Assigned::Field(o, f, t);
            let r = read(alloc, p, Begun { stmts, assigned });
            read_counted(alloc, operation, r)
        }
        Assigned::Element(o, j) => {
            let assigned = Assigned::Element(o, j);
            let r = read(alloc, p, Begun { stmts, assigned });
            read_counted(alloc, operation, r)
        }
    }
}

/// Nothing is assigned.
pub(crate) fn no_steps(alloc: Global) -> Result<CodeExpr, NoMemory>
    ensures { (q : Progress) → GivesExpr result (steps_code (plain.no_steps q)).1 }
{
    do_then(alloc, no_stmts(alloc), null())
}

/// Memory ran out.
pub(crate) fn failed(p: &mut makers::Progress) -> Result<CodeExpr, NoMemory>
    ensures progress { (q : Progress) → Holds p.new q }
    ensures value { (x : Expr) → GivesExpr result x }
{
    p.fail();
    Err(NoMemory)
}
