//! Lists of what is made.

ghost use Rattle.std.specs.Prelude.{◌≡◌, ◌++◌, ◌∷◌, [], IfOk, List, map};
ghost use Rattle.jd_code_makers.specs.Makers.{GivesCode, GivesExpr, GivesExprs, GivesName, GivesNames, GivesStmt, GivesStmts, IsAdded, IsJoined};
ghost use Rattle.jd_syntax.specs.CodeViews.{code_view, stmt_view};
ghost use Rattle.jd_syntax.specs.Codes.{Expr, Stmt, stmts_of};
ghost use Rattle.jd_syntax.specs.Names.{Name};

use jd_base::{NoMemory, both};
use jd_lists::{appended, with};
use jd_syntax::{Code, CodeExpr, CodeStmt, VarId};
use std::alloc::Global;

// The list with one more item, if both have been made.
fn added<T: Drop>(
    items: Result<Vec<T>, NoMemory>,
    item: Result<T, NoMemory>,
) -> Result<Vec<T>, NoMemory>
    ensures { IfOk result (λ v. IsAdded items item v) }
{
    let (items, item) = both(items, item)?;
    with(items, item)
}

// The items of both.
fn joined<T: Drop>(
    items: Result<Vec<T>, NoMemory>,
    others: Result<Vec<T>, NoMemory>,
) -> Result<Vec<T>, NoMemory>
    ensures { IfOk result (λ v. IsJoined items others v) }
{
    let (items, others) = both(items, others)?;
    appended(items, others)
}

/// No expression.
pub fn no_exprs(alloc: Global) -> Result<Vec<CodeExpr>, NoMemory>
    ensures { GivesExprs result [] }
{
    Ok(Vec::new(alloc))
}

/// One more expression.
pub fn with_expr(
    items: Result<Vec<CodeExpr>, NoMemory>,
    item: Result<CodeExpr, NoMemory>,
) -> Result<Vec<CodeExpr>, NoMemory>
    ensures { (xs : List Expr) (x : Expr) → GivesExprs items xs → GivesExpr item x → GivesExprs result (xs ++ x ∷ []) }
{
    added(items, item)
}

/// No statement.
pub fn no_stmts(alloc: Global) -> Result<Vec<CodeStmt>, NoMemory>
    ensures { GivesStmts result [] }
{
    Ok(Vec::new(alloc))
}

/// One more statement.
pub fn with_stmt(
    items: Result<Vec<CodeStmt>, NoMemory>,
    item: Result<CodeStmt, NoMemory>,
) -> Result<Vec<CodeStmt>, NoMemory>
    ensures { (xs : List Stmt) (x : Stmt) → GivesStmts items xs → GivesStmt item x → GivesStmts result (xs ++ x ∷ []) }
{
    added(items, item)
}

/// One statement.
pub fn one_stmt(alloc: Global, item: Result<CodeStmt, NoMemory>) -> Result<Vec<CodeStmt>, NoMemory>
    ensures { (x : Stmt) → GivesStmt item x → GivesStmts result (x ∷ []) }
{
    with_stmt(no_stmts(alloc), item)
}

/// Two statements.
pub fn two_stmts(
    alloc: Global,
    first: Result<CodeStmt, NoMemory>,
    second: Result<CodeStmt, NoMemory>,
) -> Result<Vec<CodeStmt>, NoMemory>
    ensures { (x y : Stmt) → GivesStmt first x → GivesStmt second y → GivesStmts result (x ∷ y ∷ []) }
{
    with_stmt(one_stmt(alloc, first), second)
}

/// The statements of both.
pub fn appended_stmts(
    items: Result<Vec<CodeStmt>, NoMemory>,
    others: Result<Vec<CodeStmt>, NoMemory>,
) -> Result<Vec<CodeStmt>, NoMemory>
    ensures { (xs ys : List Stmt) → GivesStmts items xs → GivesStmts others ys → GivesStmts result (xs ++ ys) }
{
    joined(items, others)
}

// The code of statements.
#[tactic(auto, using(jd_syntax::proofs::CodeLemmas::code_of))]
fn code_made(stmts: Vec<CodeStmt>) -> Code
    ensures { code_view result ≡ stmts_of (map stmt_view stmts.items) }
{
    Code { stmts }
}

/// The code of statements, if they have been made.
pub fn code_in(stmts: Result<Vec<CodeStmt>, NoMemory>) -> Result<Code, NoMemory>
    ensures { (xs : List Stmt) → GivesStmts stmts xs → GivesCode result (stmts_of xs) }
{
    Ok(code_made(stmts?))
}

/// No variable.
pub fn no_variables(alloc: Global) -> Result<Vec<VarId>, NoMemory>
    ensures { GivesNames result [] }
{
    Ok(Vec::new(alloc))
}

/// One more variable.
pub fn with_variable(
    items: Result<Vec<VarId>, NoMemory>,
    item: Result<VarId, NoMemory>,
) -> Result<Vec<VarId>, NoMemory>
    ensures { (xs : List Name) (x : Name) → GivesNames items xs → GivesName item x → GivesNames result (xs ++ x ∷ []) }
{
    added(items, item)
}
