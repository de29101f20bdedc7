//! Whether the parts of code have the sorts that their places ask for.

ghost use Rattle.std.specs.Prelude.{◌≡◌, ◌&&◌, cond, map};
ghost use Rattle.jd_base.specs.declared.sort.Sort.TheVariants.{Int as IntSort};
ghost use Rattle.jd_syntax.specs.CodeViews.{code_view, expr_view, stmt_view};
ghost use Rattle.jd_syntax.specs.Codes.{exprs_of, stmts_of};
ghost use Rattle.jd_tgrammar.specs.Spelling.{routine};
ghost use Rattle.jd_tforms.specs.Sorted as plain;
ghost use Rattle.jd_tsorts.specs.Returned.{returns_view};

use crate::names::NameSorts;
use crate::returns::{Returns, may_return, may_return_nothing, may_take, returns_of};
use crate::sorts::{
    binary_sort, both_one_sort, is_of_integers, is_some_sort, is_value, unary_sort,
};
use crate::terms::same_sort;
use jd_base::{MethodId, Sort};
use jd_syntax::{BinaryOp, Code, CodeExpr, CodeStmt};

/// The sort of the expression's value; none where it has no value.
pub fn expr_sort<N: NameSorts>(names: &N, expr: &CodeExpr) -> Option<Sort>
    ensures { result ≡ plain.expr_sort (N.table names.now) (expr_view expr.now) }
{
    match expr {
        CodeExpr::IntLiteral(_) | CodeExpr::ReadElement(_, _) | CodeExpr::LengthOf(_) => {
            Some(Sort::Int)
        }
        CodeExpr::BoolLiteral(_)
        | CodeExpr::AndAlso(_, _)
        | CodeExpr::OrElse(_, _)
        | CodeExpr::InstanceOf(_, _) => Some(Sort::Bool),
        CodeExpr::NullLiteral | CodeExpr::Cast(_, _) => Some(Sort::Ref),
        CodeExpr::Variable(variable) => Some(variable.sort),
        CodeExpr::Unary(operation, _) => Some(unary_sort(*operation)),
        CodeExpr::Binary(operation, _, _) => Some(binary_sort(*operation)),
        CodeExpr::ReadField(_, field) => Some(names.field_sort(*field)),
        CodeExpr::VirtualCall(_, method, _, _)
        | CodeExpr::StaticCall(method, _)
        | CodeExpr::ConstructorCall(method, _, _) => names.result_sort(*method),
        CodeExpr::Conditional(_, a, _) => expr_sort(names, a),
        CodeExpr::DoThen(_, a) => expr_sort(names, a),
    }
}

// Whether the expression has a value of the sort.
fn has_sort<N: NameSorts>(names: &N, sort: Sort, expr: &CodeExpr) -> bool
    ensures { result ≡ plain.is (N.table names.now) sort (expr_view expr.now) }
{
    is_some_sort(sort, expr_sort(names, expr))
}

// Whether two values may stand in the operation.
fn may_join<N: NameSorts>(names: &N, operation: BinaryOp, a: &CodeExpr, b: &CodeExpr) -> bool
    ensures { result ≡ cond (plain.of_integers operation) (plain.is (N.table names.now) IntSort (expr_view a.now) && plain.is (N.table names.now) IntSort (expr_view b.now)) (plain.both_one_sort (plain.expr_sort (N.table names.now) (expr_view a.now)) (plain.expr_sort (N.table names.now) (expr_view b.now))) }
{
    if is_of_integers(operation) {
        has_sort(names, Sort::Int, a) && has_sort(names, Sort::Int, b)
    } else {
        both_one_sort(expr_sort(names, a), expr_sort(names, b))
    }
}

// Whether the expression may be evaluated: where it is no call it has a value.
fn may_evaluate<N: NameSorts>(names: &N, expr: &CodeExpr) -> bool
    ensures { result ≡ plain.may_evaluate (N.table names.now) (expr_view expr.now) }
{
    match expr {
        CodeExpr::VirtualCall(_, _, _, _)
        | CodeExpr::StaticCall(_, _)
        | CodeExpr::ConstructorCall(_, _, _) => true,
        CodeExpr::IntLiteral(_)
        | CodeExpr::BoolLiteral(_)
        | CodeExpr::NullLiteral
        | CodeExpr::Variable(_)
        | CodeExpr::Unary(_, _)
        | CodeExpr::Binary(_, _, _)
        | CodeExpr::AndAlso(_, _)
        | CodeExpr::OrElse(_, _)
        | CodeExpr::Conditional(_, _, _)
        | CodeExpr::ReadField(_, _)
        | CodeExpr::ReadElement(_, _)
        | CodeExpr::LengthOf(_)
        | CodeExpr::Cast(_, _)
        | CodeExpr::InstanceOf(_, _)
        | CodeExpr::DoThen(_, _) => expr_sort(names, expr).is_some(),
    }
}

/// Whether the parts of the expression have the sorts of their places, where a `return` in it has to give this.
#[cycle(is_sorted_code)]
pub fn is_sorted_expr<N: NameSorts>(names: &N, returns: Returns, expr: &CodeExpr) -> bool
    ensures { result ≡ plain.expr_sorted (N.table names.now) (returns_view returns) (expr_view expr.now) }
{
    match expr {
        CodeExpr::IntLiteral(_) | CodeExpr::BoolLiteral(_) | CodeExpr::NullLiteral => true,
        CodeExpr::Variable(variable) => is_value(variable.sort),
        CodeExpr::Unary(operation, a) => has_sort(names, unary_sort(*operation), a)
            && is_sorted_expr(names, returns, a),
        CodeExpr::Binary(operation, a, b) => may_join(names, *operation, a, b)
            && is_sorted_expr(names, returns, a)
            && is_sorted_expr(names, returns, b),
        CodeExpr::AndAlso(a, b) | CodeExpr::OrElse(a, b) => has_sort(names, Sort::Bool, a)
            && has_sort(names, Sort::Bool, b)
            && is_sorted_expr(names, returns, a)
            && is_sorted_expr(names, returns, b),
        CodeExpr::Conditional(a, b, c) => has_sort(names, Sort::Bool, a)
            && both_one_sort(expr_sort(names, b), expr_sort(names, c))
            && is_sorted_expr(names, returns, a)
            && is_sorted_expr(names, returns, b)
            && is_sorted_expr(names, returns, c),
        CodeExpr::ReadField(a, _)
        | CodeExpr::LengthOf(a)
        | CodeExpr::Cast(_, a)
        | CodeExpr::InstanceOf(_, a) => has_sort(names, Sort::Ref, a)
            && is_sorted_expr(names, returns, a),
        CodeExpr::ReadElement(a, b) => has_sort(names, Sort::Ref, a)
            && has_sort(names, Sort::Int, b)
            && is_sorted_expr(names, returns, a)
            && is_sorted_expr(names, returns, b),
        CodeExpr::VirtualCall(_, method, a, operands)
        | CodeExpr::ConstructorCall(method, a, operands) => has_sort(names, Sort::Ref, a)
            && is_sorted_expr(names, returns, a)
            && are_sorted_operands(names, returns, *method, operands),
        CodeExpr::StaticCall(method, operands) => {
            are_sorted_operands(names, returns, *method, operands)
        }
        CodeExpr::DoThen(code, a) => is_sorted_code(names, returns, code)
            && is_sorted_expr(names, returns, a),
    }
}

// Whether the operand may be given for a parameter of the sort.
#[cycle(is_sorted_code)]
fn is_operand<N: NameSorts>(names: &N, returns: Returns, sort: Sort, operand: &CodeExpr) -> bool
    ensures { result ≡ (plain.is (N.table names.now) sort (expr_view operand.now) && plain.expr_sorted (N.table names.now) (returns_view returns) (expr_view operand.now)) }
{
    has_sort(names, sort, operand) && is_sorted_expr(names, returns, operand)
}

// Whether there is one operand of its sort for each parameter.
#[cycle(is_sorted_code)]
fn are_sorted_operands<N: NameSorts>(
    names: &N,
    returns: Returns,
    method: MethodId,
    operands: &[CodeExpr],
) -> bool
    ensures { result ≡ plain.operands_sorted (N.table names.now) (returns_view returns) (routine (N.table names.now) method.0).parameters (exprs_of (map expr_view operands.now)) }
{
    for (number, operand) in operands.iter().enumerate() {
        let Some(sort) = names.parameter_sort(method, number) else {
            return false
        };
        if !is_operand(names, returns, sort, operand) {
            return false;
        }
    }
    names.parameter_sort(method, operands.len()).is_none()
}

/// The same of a statement.
#[cycle(is_sorted_code)]
pub fn is_sorted_stmt<N: NameSorts>(names: &N, returns: Returns, stmt: &CodeStmt) -> bool
    ensures { result ≡ plain.stmt_sorted (N.table names.now) (returns_view returns) (stmt_view stmt.now) }
{
    match stmt {
        CodeStmt::Set(variable, a) => is_value(variable.sort)
            && has_sort(names, variable.sort, a)
            && is_sorted_expr(names, returns, a),
        CodeStmt::WriteField(a, field, b) => has_sort(names, Sort::Ref, a)
            && has_sort(names, names.field_sort(*field), b)
            && is_sorted_expr(names, returns, a)
            && is_sorted_expr(names, returns, b),
        CodeStmt::WriteElement(a, b, c) => has_sort(names, Sort::Ref, a)
            && has_sort(names, Sort::Int, b)
            && has_sort(names, Sort::Int, c)
            && is_sorted_expr(names, returns, a)
            && is_sorted_expr(names, returns, b)
            && is_sorted_expr(names, returns, c),
        CodeStmt::Evaluate(a) => may_evaluate(names, a) && is_sorted_expr(names, returns, a),
        CodeStmt::If(a, then, other) => has_sort(names, Sort::Bool, a)
            && is_sorted_expr(names, returns, a)
            && is_sorted_code(names, returns, then)
            && is_sorted_code(names, returns, other),
        CodeStmt::While(_, a, body) => has_sort(names, Sort::Bool, a)
            && is_sorted_expr(names, returns, a)
            && is_sorted_code(names, returns, body),
        CodeStmt::Block(_, body) => is_sorted_code(names, returns, body),
        CodeStmt::Break(_) | CodeStmt::Raise(_) | CodeStmt::Stop => true,
        CodeStmt::Catch(body, variable, handler) => same_sort(variable.sort, Sort::Ref)
            && is_sorted_code(names, returns, body)
            && is_sorted_code(names, returns, handler),
        CodeStmt::Finally(body, last) => is_sorted_code(names, returns, body)
            && is_sorted_code(names, returns, last),
        CodeStmt::Throw(a) | CodeStmt::ThrowUnchecked(a) => has_sort(names, Sort::Ref, a)
            && is_sorted_expr(names, returns, a),
        CodeStmt::Return(a) => may_return(returns, expr_sort(names, a))
            && is_sorted_expr(names, returns, a),
        CodeStmt::ReturnVoid => may_return_nothing(returns),
        CodeStmt::Frame(variable, body) => may_take(variable)
            && is_sorted_code(names, returns_of(variable), body),
        CodeStmt::AllocObject(variable, _) => same_sort(variable.sort, Sort::Ref),
        CodeStmt::AllocArray(variable, a) | CodeStmt::NewArray(variable, a) => same_sort(
            variable.sort,
            Sort::Ref,
        ) && has_sort(names, Sort::Int, a)
            && is_sorted_expr(names, returns, a),
    }
}

// The same of statements one after the other.
#[cycle(is_sorted_code)]
#[tactic(auto, using(jd_syntax::proofs::Lists::rest))]
fn are_sorted_stmts<N: NameSorts>(names: &N, returns: Returns, stmts: &[CodeStmt]) -> bool
    ensures { result ≡ plain.code_sorted (N.table names.now) (returns_view returns) (stmts_of (map stmt_view stmts.now)) }
{
    for stmt in stmts {
        if !is_sorted_stmt(names, returns, stmt) {
            return false;
        }
    }
    true
}

/// The same of a list of statements.
#[cycle(is_sorted_code)]
pub fn is_sorted_code<N: NameSorts>(names: &N, returns: Returns, code: &Code) -> bool
    ensures { result ≡ plain.code_sorted (N.table names.now) (returns_view returns) (code_view code.now) }
{
    are_sorted_stmts(names, returns, &code.stmts)
}
