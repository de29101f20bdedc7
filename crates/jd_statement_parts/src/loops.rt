//! Loops, but for their bodies (JLS 14.12, 14.14).

ghost use Rattle.std.specs.Prelude.{ℕ, List, option_map};
ghost use Rattle.std.specs.Option.{option_copied};
ghost use Rattle.jd_bodies.specs.Bodies as plain;
ghost use Rattle.jd_bodies.specs.Codes.{code_of};
ghost use Rattle.jd_bodies.specs.Scopes.{Local};
ghost use Rattle.jd_bodies.specs.Variables.{Progress, with_loop};
ghost use Rattle.jd_code_makers.specs.Held.{Holds, Works};
ghost use Rattle.jd_code_makers.specs.Makers.{GivesExpr, GivesNames, GivesNumber, GivesStmts};
ghost use Rattle.jd_locals.specs.Listing.{local_view};
ghost use Rattle.jd_statement_parts.specs.Standing.{Stands};
ghost use Rattle.jd_statement_parts.specs.Turning as turning;
ghost use Rattle.jd_statement_parts.specs.Turning.{GivesNumbers, numbers_view};
ghost use Rattle.jd_syntax.specs.Codes as code;
ghost use Rattle.jd_syntax.specs.JavaTrees.{java_view};
ghost use Rattle.jd_syntax.specs.Names.{Name};

use crate::labels::{block_if, label_if};
use crate::parts::condition_code;
use jd_base::{NoMemory, both};
use jd_code_makers as makers;
use jd_code_makers::{appended_stmts, no_variables, one_stmt, repeated, with_variable};
use jd_expression_code::Body;
use jd_locals::{ListsLocals, LocalInScope};
use jd_naming::Declares;
use jd_syntax::{CodeExpr, CodeStmt, Expr, VarId};
use std::alloc::Global;

/// The numbers of a loop.
#[derive(Clone, Copy)]
pub struct Numbers {
    /// Of the block that a `break` leaves.
    pub left: u32,
    /// Its own.
    pub number: u32,
    /// Of the block that a `continue` leaves.
    pub repeated: u32,
}

/// What is made of a loop before its body.
#[derive(Drop)]
pub struct Head {
    /// Its numbers.
    pub numbers: Result<Numbers, NoMemory>,
    /// Its condition.
    pub condition: Result<CodeExpr, NoMemory>,
}

// The numbers, if there are all.
fn all_numbers(
    left: Result<u32, NoMemory>,
    number: Result<u32, NoMemory>,
    repeated: Result<u32, NoMemory>,
) -> Result<Numbers, NoMemory>
    ensures { (l n r : ℕ) → GivesNumber left l → GivesNumber number n → GivesNumber repeated r → GivesNumbers result (record { left = l; number = n; repeated = r }) }
{
    Ok(Numbers {
        left: left?,
        number: number?,
        repeated: repeated?,
    })
}

// One more name, if there is one.
fn named(
    alloc: Global,
    p: &makers::Progress,
    names: Result<Vec<VarId>, NoMemory>,
    local: Option<LocalInScope<'_>>,
) -> Result<Vec<VarId>, NoMemory>
    ensures { (q : Progress) (ns : List Name) → Holds p.now q → GivesNames names ns → GivesNames result (turning.named q ns (option_map local_view local.entry)) }
{
    match local {
        None => names,
        Some(l) => with_variable(names, p.local(alloc, l.name, l.value)),
    }
}

// The parameters and locals in scope, the oldest first.
#[tactic(auto, using(crate::proofs::Naming::next_name, crate::proofs::Naming::all_named, crate::proofs::Standing::there))]
fn scope_names<S: ListsLocals>(
    alloc: Global,
    scope: &S,
    p: &makers::Progress,
) -> Result<Vec<VarId>, NoMemory>
    ensures { (q : Progress) (ls : List Local) → Stands p.now (S.scope scope.now).locals q ls → GivesNames result (plain.scope_names q ls) }
{
    if p.ran_out() {
        return Err(NoMemory);
    }
    let mut names = no_variables(alloc);
    for index in 0..scope.mark().locals {
        names = named(alloc, p, names, scope.local_at(index));
    }
    names
}

// A loop begins.
fn entered<S: ListsLocals>(
    alloc: Global,
    scope: &S,
    p: &mut makers::Progress,
) -> Result<u32, NoMemory>
    ensures stands { (q : Progress) (ls : List Local) → Stands p.old (S.scope scope.now).locals q ls → Stands p.new (S.scope scope.now).locals (with_loop (plain.scope_names q ls) q) ls }
    ensures number { (q : Progress) (ls : List Local) → Stands p.old (S.scope scope.now).locals q ls → GivesNumber result (with_loop (plain.scope_names q ls) q).loops }
    ensures works { Works p.new → Works p.old }
{
    let names = scope_names(alloc, scope, p);
    p.enter_loop(names)
}

/// What stands before the body of a loop: the block that is left, where `leaves`; the loop's own number; its condition; and the block that
/// is left for the next turn, where `repeats`.
pub fn loop_head<D: Declares, S: ListsLocals>(
    m: &Body<'_, D>,
    scope: &S,
    p: &mut makers::Progress,
    leaves: bool,
    repeats: bool,
    c: Option<&Expr>,
) -> Head
    ensures stands { (q : Progress) (ls : List Local) → Stands p.old (S.scope scope.now).locals q ls → Stands p.new (S.scope scope.now).locals (turning.head_of leaves repeats ls (plain.condition_code (code_of (D.declarations m.now.declared.now) m.now.place ls) (option_map java_view (option_copied c.entry))) q).progress ls }
    ensures numbers { (q : Progress) (ls : List Local) → Stands p.old (S.scope scope.now).locals q ls → GivesNumbers result.numbers (turning.head_of leaves repeats ls (plain.condition_code (code_of (D.declarations m.now.declared.now) m.now.place ls) (option_map java_view (option_copied c.entry))) q).numbers }
    ensures condition { (q : Progress) (ls : List Local) → Stands p.old (S.scope scope.now).locals q ls → GivesExpr result.condition (turning.head_of leaves repeats ls (plain.condition_code (code_of (D.declarations m.now.declared.now) m.now.place ls) (option_map java_view (option_copied c.entry))) q).condition }
    ensures works { Works p.new → Works p.old }
{
    let left = label_if(p, leaves);
    let number = entered(m.alloc, scope, p);
    let condition = condition_code(m, scope, p, c);
    let repeated = label_if(p, repeats);
    Head {
        numbers: all_numbers(left, number, repeated),
        condition,
    }
}

/// The loop, in the blocks that are left.
///
/// # Errors
///
/// `NoMemory`.
pub fn looped(
    alloc: Global,
    blocks: (bool, bool),
    n: Numbers,
    condition: Result<CodeExpr, NoMemory>,
    body: Result<Vec<CodeStmt>, NoMemory>,
    update: Result<Vec<CodeStmt>, NoMemory>,
) -> Result<Vec<CodeStmt>, NoMemory>
    ensures { (c : code.Expr) (bs us : List code.Stmt) → GivesExpr condition c → GivesStmts body bs → GivesStmts update us → GivesStmts result (turning.looped_stmts blocks.0 blocks.1 (numbers_view n) c bs us) }
{
    let inner = appended_stmts(block_if(alloc, blocks.1, n.repeated, body), update);
    let whole = one_stmt(alloc, repeated(Ok(n.number), condition, inner));
    block_if(alloc, blocks.0, n.left, whole)
}
