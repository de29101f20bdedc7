//! Expressions in statements, and names that come into scope.

ghost use Rattle.std.specs.Prelude.{◌≡◌, ◌∷◌, List, map, option_map};
ghost use Rattle.std.specs.Option.{option_copied};
ghost use Rattle.jd_bodies.specs.Bodies as plain;
ghost use Rattle.jd_bodies.specs.Codes.{code_of, codes_of};
ghost use Rattle.jd_bodies.specs.Scopes.{Local};
ghost use Rattle.jd_bodies.specs.Variables.{Progress, with_local};
ghost use Rattle.jd_code_makers.specs.Held.{Works};
ghost use Rattle.jd_code_makers.specs.Makers.{GivesExpr, GivesExprs, GivesStmts};
ghost use Rattle.jd_statement_parts.specs.Standing.{Stands, local_of};
ghost use Rattle.jd_syntax.specs.Codes as code;
ghost use Rattle.jd_syntax.specs.JavaTrees.{declarator_view, java_exprs, java_view};

use jd_base::NoMemory;
use jd_bodies::ValueType;
use jd_code_makers as makers;
use jd_code_makers::{
    boolean, constructor_call, evaluate, no_stmts, one_stmt, returned, returned_nothing, this,
};
use jd_effect_code::{effect, initial};
use jd_expression_code::{Body, code_of, codes_of};
use jd_lists::discard;
use jd_naming::{Declares, InScope};
use jd_syntax::{CodeExpr, CodeStmt, Declarator, Expr};
use std::alloc::Global;

/// Memory ran out.
pub fn failed(p: &mut makers::Progress) -> Result<Vec<CodeStmt>, NoMemory>
    ensures stands { (scope : List Local) (q : Progress) (ls : List Local) → Stands p.new scope q ls }
    ensures stmts { (ss : List code.Stmt) → GivesStmts result ss }
    ensures works { Works p.new → Works p.old }
{
    p.fail();
    Err(NoMemory)
}

/// Memory ran out, and this is let go.
pub fn given_up(
    p: &mut makers::Progress,
    e: Result<CodeExpr, NoMemory>,
) -> Result<Vec<CodeStmt>, NoMemory>
    ensures stands { (scope : List Local) (q : Progress) (ls : List Local) → Stands p.new scope q ls }
    ensures stmts { (ss : List code.Stmt) → GivesStmts result ss }
    ensures works { Works p.new → Works p.old }
{
    discard(e);
    failed(p)
}

/// An expression.
///
/// # Errors
///
/// `NoMemory`.
pub fn expr_code<D: Declares, S: InScope>(
    m: &Body<'_, D>,
    scope: &S,
    p: &mut makers::Progress,
    e: &Expr,
) -> Result<CodeExpr, NoMemory>
    ensures stands { (q : Progress) (ls : List Local) → Stands p.old (S.scope scope.now).locals q ls → Stands p.new (S.scope scope.now).locals (code_of (D.declarations m.now.declared.now) m.now.place ls (java_view e.now) q).0 ls }
    ensures value { (q : Progress) (ls : List Local) → Stands p.old (S.scope scope.now).locals q ls → GivesExpr result (code_of (D.declarations m.now.declared.now) m.now.place ls (java_view e.now) q).1 }
    ensures works { Works p.new → Works p.old }
{
    if p.ran_out() {
        return Err(NoMemory);
    }
    code_of(m, scope, p, e)
}

/// Expressions, one behind the other.
///
/// # Errors
///
/// `NoMemory`.
fn exprs_code<D: Declares, S: InScope>(
    m: &Body<'_, D>,
    scope: &S,
    p: &mut makers::Progress,
    es: &[Expr],
) -> Result<Vec<CodeExpr>, NoMemory>
    ensures stands { (q : Progress) (ls : List Local) → Stands p.old (S.scope scope.now).locals q ls → Stands p.new (S.scope scope.now).locals (codes_of (D.declarations m.now.declared.now) m.now.place ls (java_exprs (map java_view es.now)) q).0 ls }
    ensures values { (q : Progress) (ls : List Local) → Stands p.old (S.scope scope.now).locals q ls → GivesExprs result (codes_of (D.declarations m.now.declared.now) m.now.place ls (java_exprs (map java_view es.now)) q).1 }
    ensures works { Works p.new → Works p.old }
{
    if p.ran_out() {
        return Err(NoMemory);
    }
    codes_of(m, scope, p, es)
}

/// An expression that stands as a statement (JLS 14.8).
///
/// # Errors
///
/// `NoMemory`.
pub fn effect_code<D: Declares, S: InScope>(
    m: &Body<'_, D>,
    scope: &S,
    p: &mut makers::Progress,
    e: &Expr,
) -> Result<Vec<CodeStmt>, NoMemory>
    ensures stands { (q : Progress) (ls : List Local) → Stands p.old (S.scope scope.now).locals q ls → Stands p.new (S.scope scope.now).locals (plain.effect_lines (D.declarations m.now.declared.now) m.now.place ls (java_view e.now) q).0 ls }
    ensures stmts { (q : Progress) (ls : List Local) → Stands p.old (S.scope scope.now).locals q ls → GivesStmts result (plain.effect_lines (D.declarations m.now.declared.now) m.now.place ls (java_view e.now) q).1 }
    ensures works { Works p.new → Works p.old }
{
    if p.ran_out() {
        return Err(NoMemory);
    }
    effect(m, scope, p, e)
}

/// The first value of a local in scope (JLS 14.4).
///
/// # Errors
///
/// `NoMemory`.
pub(crate) fn initial_code<D: Declares, S: InScope>(
    m: &Body<'_, D>,
    scope: &S,
    p: &mut makers::Progress,
    x: &Declarator,
    t: ValueType,
) -> Result<Vec<CodeStmt>, NoMemory>
    ensures stands { (q : Progress) (ls : List Local) → Stands p.old (S.scope scope.now).locals q ls → Stands p.new (S.scope scope.now).locals (plain.initial_lines (D.declarations m.now.declared.now) m.now.place ls (declarator_view x.now).name t (declarator_view x.now).value q).0 ls }
    ensures stmts { (q : Progress) (ls : List Local) → Stands p.old (S.scope scope.now).locals q ls → GivesStmts result (plain.initial_lines (D.declarations m.now.declared.now) m.now.place ls (declarator_view x.now).name t (declarator_view x.now).value q).1 }
    ensures works { Works p.new → Works p.old }
{
    if p.ran_out() {
        return Err(NoMemory);
    }
    initial(m, scope, p, x, t)
}

/// A condition; `true` where none is written.
///
/// # Errors
///
/// `NoMemory`.
pub(crate) fn condition_code<D: Declares, S: InScope>(
    m: &Body<'_, D>,
    scope: &S,
    p: &mut makers::Progress,
    c: Option<&Expr>,
) -> Result<CodeExpr, NoMemory>
    ensures stands { (q : Progress) (ls : List Local) → Stands p.old (S.scope scope.now).locals q ls → Stands p.new (S.scope scope.now).locals (plain.condition_code (code_of (D.declarations m.now.declared.now) m.now.place ls) (option_map java_view (option_copied c.entry)) q).0 ls }
    ensures value { (q : Progress) (ls : List Local) → Stands p.old (S.scope scope.now).locals q ls → GivesExpr result (plain.condition_code (code_of (D.declarations m.now.declared.now) m.now.place ls) (option_map java_view (option_copied c.entry)) q).1 }
    ensures works { Works p.new → Works p.old }
{
    match c {
        None => boolean(true),
        Some(c) => expr_code(m, scope, p, c),
    }
}

/// A `return` (JLS 14.17).
///
/// # Errors
///
/// `NoMemory`.
pub fn returned_code<D: Declares, S: InScope>(
    m: &Body<'_, D>,
    scope: &S,
    p: &mut makers::Progress,
    e: &Option<Expr>,
) -> Result<Vec<CodeStmt>, NoMemory>
    ensures stands { (q : Progress) (ls : List Local) → Stands p.old (S.scope scope.now).locals q ls → Stands p.new (S.scope scope.now).locals (plain.return_lines (code_of (D.declarations m.now.declared.now) m.now.place ls) (option_map java_view e.now) q).0 ls }
    ensures stmts { (q : Progress) (ls : List Local) → Stands p.old (S.scope scope.now).locals q ls → GivesStmts result (plain.return_lines (code_of (D.declarations m.now.declared.now) m.now.place ls) (option_map java_view e.now) q).1 }
    ensures works { Works p.new → Works p.old }
{
    match e {
        None => one_stmt(m.alloc, returned_nothing()),
        Some(e) => one_stmt(m.alloc, returned(expr_code(m, scope, p, e))),
    }
}

/// A call of the constructor on `this`, if there is one.
///
/// # Errors
///
/// `NoMemory`.
pub fn called_above(
    alloc: Global,
    constructor: Option<u32>,
    operands: Result<Vec<CodeExpr>, NoMemory>,
) -> Result<Vec<CodeStmt>, NoMemory>
    ensures { (q : Progress) (xs : List code.Expr) → GivesExprs operands xs → GivesStmts result (plain.above_lines constructor (q, xs)).1 }
{
    match constructor {
        None => {
            discard(operands);
            no_stmts(alloc)
        }
        Some(k) => one_stmt(
            alloc,
            evaluate(constructor_call(alloc, k, this(alloc), operands)),
        ),
    }
}

/// The constructor that runs above a class's (JLS 8.8.7).
pub fn constructor_above<D: Declares>(d: &D, class: u32) -> Option<u32>
    ensures { result ≡ plain.above (D.declarations d.now) ((D.declarations d.now).parent class) }
{
    match d.parent(class) {
        None => None,
        Some(c) => d.constructor(c),
    }
}

/// `super(..)`: the constructor that runs above (JLS 8.8.7).
///
/// # Errors
///
/// `NoMemory`.
pub fn above<D: Declares, S: InScope>(
    m: &Body<'_, D>,
    scope: &S,
    p: &mut makers::Progress,
    es: &[Expr],
) -> Result<Vec<CodeStmt>, NoMemory>
    ensures stands { (q : Progress) (ls : List Local) → Stands p.old (S.scope scope.now).locals q ls → Stands p.new (S.scope scope.now).locals (plain.above_lines (plain.above (D.declarations m.now.declared.now) ((D.declarations m.now.declared.now).parent m.now.place.class)) (codes_of (D.declarations m.now.declared.now) m.now.place ls (java_exprs (map java_view es.now)) q)).0 ls }
    ensures stmts { (q : Progress) (ls : List Local) → Stands p.old (S.scope scope.now).locals q ls → GivesStmts result (plain.above_lines (plain.above (D.declarations m.now.declared.now) ((D.declarations m.now.declared.now).parent m.now.place.class)) (codes_of (D.declarations m.now.declared.now) m.now.place ls (java_exprs (map java_view es.now)) q)).1 }
    ensures works { Works p.new → Works p.old }
{
    let operands = exprs_code(m, scope, p, es);
    let constructor = constructor_above(m.declared, m.place.class);
    called_above(m.alloc, constructor, operands)
}

/// One more parameter or local is in scope. No two in scope have one name where no token is refused; else nothing is known from there on.
#[tactic(auto, using(crate::proofs::Standing::nothing_known, crate::proofs::Standing::one_more))]
pub fn enter<D: Declares, S: InScope>(
    m: &Body<'_, D>,
    scope: &mut S,
    p: &mut makers::Progress,
    x: &[u8],
    t: ValueType,
)
    ensures stands { (q : Progress) (ls : List Local) → Stands p.old (S.scope scope.old).locals q ls → Stands p.new (S.scope scope.new).locals (with_local x.now t q) (local_of x.now t ∷ ls) }
    ensures works { Works p.new → Works p.old }
{
    if scope.type_of(x).is_some() {
        p.fail();
        return;
    }
    match scope.enter(m.alloc, x, t) {
        Ok(()) => p.enter(m.alloc, x, t),
        Err(NoMemory) => p.fail(),
    }
}
