//! The variables that code assigns.

ghost use Rattle.jd_syntax.specs.AssignedNames.{names_of, ranked_sort};
ghost use Rattle.jd_syntax.specs.AssignedVariables.{assigned_in_code, assigned_in_expr, assigned_in_exprs, assigned_in_stmt, with_optional, with_variable};
ghost use Rattle.jd_syntax.specs.CodeViews.{code_view, expr_view, stmt_view};
ghost use Rattle.jd_syntax.specs.Codes.{exprs_of, stmts_of};
ghost use Rattle.jd_syntax.specs.Names.{var_view};
ghost use Rattle.std.specs.Prelude.{◌≡◌, IfOk, [], OnOk, map, option_map};

use crate::code::{Code, CodeExpr, CodeStmt};
use crate::variable::VarId;
use jd_base::{NoMemory, Sort, copy_bytes};
use std::alloc::Global;
use std::collections::BTreeSet;

// The sorts in the order of variables of one printed name.
#[derive(Clone, Copy, PartialEq, Eq, PartialOrd, Ord)]
pub(crate) enum SortRank {
    Int,
    Bool,
    Ref,
    Heap,
    Field,
}

// Printed names with the ranks of their sorts.
type Found<'a> = BTreeSet<(&'a [u8], SortRank), Global>;

fn rank_of(sort: Sort) -> SortRank
    ensures { ranked_sort result ≡ sort }
{
    match sort {
        Sort::Int => SortRank::Int,
        Sort::Bool => SortRank::Bool,
        Sort::Ref => SortRank::Ref,
        Sort::Heap => SortRank::Heap,
        Sort::Field => SortRank::Field,
    }
}

fn ranked(rank: SortRank) -> Sort
    ensures { result ≡ ranked_sort rank }
{
    match rank {
        SortRank::Int => Sort::Int,
        SortRank::Bool => Sort::Bool,
        SortRank::Ref => Sort::Ref,
        SortRank::Heap => Sort::Heap,
        SortRank::Field => Sort::Field,
    }
}

fn add<'a>(found: &mut Found<'a>, v: &'a VarId) -> Result<(), NoMemory>
    ensures { OnOk result (names_of found.new ≡ with_variable (var_view v.now) (names_of found.old)) }
{
    found.insert((v.name.as_slice(), rank_of(v.sort)))?;
    Ok(())
}

fn add_result<'a>(found: &mut Found<'a>, v: &'a Option<VarId>) -> Result<(), NoMemory>
    ensures { OnOk result (names_of found.new ≡ with_optional (option_map var_view v.now) (names_of found.old)) }
{
    match v {
        None => Ok(()),
        Some(v) => add(found, v),
    }
}

// The walks go from the last part to the first, as the definition does.

#[cycle(assigned_code)]
fn in_code<'a>(found: &mut Found<'a>, code: &'a Code) -> Result<(), NoMemory>
    ensures { OnOk result (names_of found.new ≡ assigned_in_code (code_view code.now) (names_of found.old)) }
{
    in_stmts(found, &code.stmts)
}

#[cycle(assigned_code)]
#[tactic(auto, using(crate::proofs::Lists::rest))]
fn in_stmts<'a>(found: &mut Found<'a>, stmts: &'a [CodeStmt]) -> Result<(), NoMemory>
    ensures { OnOk result (names_of found.new ≡ assigned_in_code (stmts_of (map stmt_view stmts.now)) (names_of found.old)) }
{
    for place in (0..stmts.len()).rev() {
        in_stmt(found, &stmts[place])?;
    }
    Ok(())
}

#[cycle(assigned_code)]
#[tactic(auto, using(crate::proofs::Lists::rest))]
fn in_exprs<'a>(found: &mut Found<'a>, exprs: &'a [CodeExpr]) -> Result<(), NoMemory>
    ensures { OnOk result (names_of found.new ≡ assigned_in_exprs (exprs_of (map expr_view exprs.now)) (names_of found.old)) }
{
    for place in (0..exprs.len()).rev() {
        in_expr(found, &exprs[place])?;
    }
    Ok(())
}

#[cycle(assigned_code)]
fn in_stmt<'a>(found: &mut Found<'a>, s: &'a CodeStmt) -> Result<(), NoMemory>
    ensures { OnOk result (names_of found.new ≡ assigned_in_stmt (stmt_view s.now) (names_of found.old)) }
{
    match s {
        CodeStmt::Break(_) | CodeStmt::ReturnVoid | CodeStmt::Raise(_) | CodeStmt::Stop => Ok(()),
        CodeStmt::Evaluate(a)
        | CodeStmt::Throw(a)
        | CodeStmt::ThrowUnchecked(a)
        | CodeStmt::Return(a) => in_expr(found, a),
        CodeStmt::Set(v, a) | CodeStmt::AllocArray(v, a) | CodeStmt::NewArray(v, a) => {
            in_expr(found, a)?;
            add(found, v)
        }
        CodeStmt::AllocObject(v, _) => add(found, v),
        CodeStmt::WriteField(a, _, b) => {
            in_expr(found, b)?;
            in_expr(found, a)
        }
        CodeStmt::WriteElement(a, b, c) => {
            in_expr(found, c)?;
            in_expr(found, b)?;
            in_expr(found, a)
        }
        CodeStmt::If(a, c, d) => {
            in_code(found, d)?;
            in_code(found, c)?;
            in_expr(found, a)
        }
        CodeStmt::While(_, a, c) => {
            in_code(found, c)?;
            in_expr(found, a)
        }
        CodeStmt::Block(_, c) => in_code(found, c),
        CodeStmt::Catch(c, v, d) => {
            in_code(found, d)?;
            add(found, v)?;
            in_code(found, c)
        }
        CodeStmt::Finally(c, d) => {
            in_code(found, d)?;
            in_code(found, c)
        }
        CodeStmt::Frame(v, c) => {
            in_code(found, c)?;
            add_result(found, v)
        }
    }
}

#[cycle(assigned_code)]
fn in_expr<'a>(found: &mut Found<'a>, e: &'a CodeExpr) -> Result<(), NoMemory>
    ensures { OnOk result (names_of found.new ≡ assigned_in_expr (expr_view e.now) (names_of found.old)) }
{
    match e {
        CodeExpr::IntLiteral(_)
        | CodeExpr::BoolLiteral(_)
        | CodeExpr::NullLiteral
        | CodeExpr::Variable(_) => Ok(()),
        CodeExpr::Unary(_, a)
        | CodeExpr::ReadField(a, _)
        | CodeExpr::LengthOf(a)
        | CodeExpr::Cast(_, a)
        | CodeExpr::InstanceOf(_, a) => in_expr(found, a),
        CodeExpr::Binary(_, a, b)
        | CodeExpr::AndAlso(a, b)
        | CodeExpr::OrElse(a, b)
        | CodeExpr::ReadElement(a, b) => {
            in_expr(found, b)?;
            in_expr(found, a)
        }
        CodeExpr::Conditional(a, b, c) => {
            in_expr(found, c)?;
            in_expr(found, b)?;
            in_expr(found, a)
        }
        CodeExpr::VirtualCall(_, _, a, es) | CodeExpr::ConstructorCall(_, a, es) => {
            in_exprs(found, es)?;
            in_expr(found, a)
        }
        CodeExpr::StaticCall(_, es) => in_exprs(found, es),
        CodeExpr::DoThen(c, a) => {
            in_expr(found, a)?;
            in_code(found, c)
        }
    }
}

fn variable(alloc: Global, name: &[u8], rank: SortRank) -> Result<VarId, NoMemory>
    ensures { IfOk result (λ v. var_view v ≡ record { text = name.now; sort = ranked_sort rank }) }
{
    let name = copy_bytes(alloc, name)?;
    Ok(VarId {
        name,
        sort: ranked(rank),
    })
}

fn variables(alloc: Global, found: &Found<'_>) -> Result<Vec<VarId>, NoMemory>
    ensures { IfOk result (λ vs. map var_view vs.items ≡ names_of found.now) }
{
    let mut vars = Vec::with_capacity(alloc, found.len())?;
    for (name, rank) in found.iter() {
        vars.push(variable(alloc, name, *rank)?)?;
    }
    Ok(vars)
}

/// The variables that the code assigns, each once, in the order of their printed names and then of their sorts.
pub fn assigned_vars(alloc: Global, code: &Code) -> Result<Vec<VarId>, NoMemory>
    ensures { IfOk result (λ vs. map var_view vs.items ≡ assigned_in_code (code_view code.now) []) }
{
    let mut found = BTreeSet::new(alloc);
    in_code(&mut found, code)?;
    variables(alloc, &found)
}
