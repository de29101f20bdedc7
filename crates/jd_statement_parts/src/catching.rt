//! Handlers, but for their statements (JLS 14.20).

ghost use Rattle.std.specs.Prelude.{◌≡◌, ◌++◌, ◌∷◌, [], List, map};
ghost use Rattle.jd_bodies.specs.Bodies as plain;
ghost use Rattle.jd_bodies.specs.Codes.{variable};
ghost use Rattle.jd_code_makers.specs.Makers.{GivesExpr, GivesName, GivesStmts};
ghost use Rattle.jd_statement_parts.specs.Catching as catching;
ghost use Rattle.jd_statement_parts.specs.Catching.{GivesPart, GivesParts, PlainPart, part_view};
ghost use Rattle.jd_syntax.specs.CodeViews.{stmt_view};
ghost use Rattle.jd_syntax.specs.Codes as code;
ghost use Rattle.jd_syntax.specs.Names.{Name, var_view};

use jd_base::{ClassId, NoMemory, both};
use jd_code_makers::{
    appended_stmts, caught, choice, copied, instance_of, one_stmt, set, thrown_unchecked, variable,
};
use jd_lists::with;
use jd_naming::Declares;
use jd_syntax::{CodeExpr, CodeStmt, Kind, VarId};
use std::alloc::Global;

/// What is made of a handler.
#[derive(Drop)]
pub struct Part {
    /// The class of what it catches.
    pub class: u32,
    /// The name that the thrown object has in it.
    pub name: VarId,
    /// Its statements.
    pub stmts: Vec<CodeStmt>,
}

/// The class of the name; 0 where there is none.
pub fn one_class<D: Declares>(d: &D, name: &[u8]) -> u32
    ensures { result ≡ plain.class_number ((D.declarations d.now).class_named name.now) }
{
    match d.class_named(name) {
        None => 0,
        Some(c) => c,
    }
}

/// A handler, of what is made of its parts.
///
/// # Errors
///
/// `NoMemory`.
pub fn handler_part(
    class: u32,
    name: Result<VarId, NoMemory>,
    stmts: Result<Vec<CodeStmt>, NoMemory>,
) -> Result<Part, NoMemory>
    ensures { (x : Name) (ss : List code.Stmt) → GivesName name x → GivesStmts stmts ss → GivesPart result (record { class = class; name = x; stmts = ss }) }
{
    let (name, stmts) = both(name, stmts)?;
    Ok(Part { class, name, stmts })
}

/// No handler.
pub fn no_parts(alloc: Global) -> Result<Vec<Part>, NoMemory>
    ensures { GivesParts result [] }
{
    Ok(Vec::new(alloc))
}

/// One more handler.
///
/// # Errors
///
/// `NoMemory`.
pub fn with_part(
    parts: Result<Vec<Part>, NoMemory>,
    part: Result<Part, NoMemory>,
) -> Result<Vec<Part>, NoMemory>
    ensures { (xs : List PlainPart) (x : PlainPart) → GivesParts parts xs → GivesPart part x → GivesParts result (xs ++ x ∷ []) }
{
    let (parts, part) = both(parts, part)?;
    with(parts, part)
}

// The thrown object as a value.
fn thrown_object(alloc: Global, k: &Result<VarId, NoMemory>) -> Result<CodeExpr, NoMemory>
    ensures { (x : Name) → GivesName k.now x → GivesExpr result (variable x) }
{
    variable(copied(alloc, k))
}

// The statements, behind one that gives the thrown object its name.
fn handler_stmts(
    alloc: Global,
    k: &Result<VarId, NoMemory>,
    name: VarId,
    stmts: Vec<CodeStmt>,
) -> Result<Vec<CodeStmt>, NoMemory>
    ensures { (x : Name) → GivesName k.now x → GivesStmts result (code.Set (var_view name) (variable x) ∷ map stmt_view stmts.items) }
{
    appended_stmts(
        one_stmt(alloc, set(Ok(name), thrown_object(alloc, k))),
        Ok(stmts),
    )
}

// The handler, where the thrown object is one of its class; else the others.
fn caught_by(
    alloc: Global,
    k: &Result<VarId, NoMemory>,
    part: Part,
    others: Result<Vec<CodeStmt>, NoMemory>,
) -> Result<Vec<CodeStmt>, NoMemory>
    ensures { (x : Name) (ss : List code.Stmt) → GivesName k.now x → GivesStmts others ss → GivesStmts result (catching.caught_by x (part_view part) ss) }
{
    let Part { class, name, stmts } = part;
    let handler = handler_stmts(alloc, k, name, stmts);
    let is_one = instance_of(alloc, Kind::Class(ClassId(class)), thrown_object(alloc, k));
    one_stmt(alloc, choice(is_one, handler, others))
}

// The first handler whose class is the thrown object's; else it is thrown again.
#[tactic(auto, using(crate::proofs::Chaining::chain_last, crate::proofs::Chaining::chain_whole))]
fn chained(
    alloc: Global,
    k: &Result<VarId, NoMemory>,
    parts: Vec<Part>,
) -> Result<Vec<CodeStmt>, NoMemory>
    ensures { (x : Name) → GivesName k.now x → GivesStmts result (catching.chain x (map part_view parts.items)) }
{
    let mut parts = parts;
    let mut chain = one_stmt(alloc, thrown_unchecked(thrown_object(alloc, k)));
    while let Some(part) = parts.pop() {
        chain = caught_by(alloc, k, part, chain);
    }
    chain
}

// The same, if all handlers have been made.
fn chain_of(
    alloc: Global,
    k: &Result<VarId, NoMemory>,
    parts: Result<Vec<Part>, NoMemory>,
) -> Result<Vec<CodeStmt>, NoMemory>
    ensures { (x : Name) (ps : List PlainPart) → GivesName k.now x → GivesParts parts ps → GivesStmts result (catching.chain x ps) }
{
    match parts {
        Err(NoMemory) => Err(NoMemory),
        Ok(parts) => chained(alloc, k, parts),
    }
}

/// A `try`, of its block, the variable of what is thrown, and its handlers.
///
/// # Errors
///
/// `NoMemory`.
pub fn caught_by_parts(
    alloc: Global,
    stmts: Result<Vec<CodeStmt>, NoMemory>,
    k: Result<VarId, NoMemory>,
    parts: Result<Vec<Part>, NoMemory>,
) -> Result<Vec<CodeStmt>, NoMemory>
    ensures { (ss : List code.Stmt) (x : Name) (ps : List PlainPart) → GivesStmts stmts ss → GivesName k x → GivesParts parts ps → GivesStmts result (catching.caught_stmts ss x ps) }
{
    let handlers = chain_of(alloc, &k, parts);
    one_stmt(alloc, caught(stmts, k, handlers))
}
