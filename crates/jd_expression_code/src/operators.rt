//! The code of operators.

ghost use Rattle.std.specs.Prelude.{◌≡◌};
ghost use Rattle.jd_bodies.specs.Codes as plain;
ghost use Rattle.jd_code_makers.specs.Makers.{GivesExpr};
ghost use Rattle.jd_syntax.specs.Codes as code;
ghost use Rattle.jd_syntax.specs.JavaTrees.{java_view};

use jd_base::{ClassId, NoMemory};
use jd_bodies::ValueType;
use jd_code_makers::{and_also, binary, cast, instance_of, integer, or_else, unary};
use jd_lists::discard;
use jd_syntax::{
    AssignmentOperator, BinaryOp, CodeExpr, CountOperator, Expr, ExprForm, InfixOperator, Kind,
    UnaryOp,
};
use std::alloc::Global;

/// An operator between two operands.
pub(crate) fn infix(
    alloc: Global,
    operator: InfixOperator,
    a: Result<CodeExpr, NoMemory>,
    b: Result<CodeExpr, NoMemory>,
) -> Result<CodeExpr, NoMemory>
    ensures { (x y : code.Expr) → GivesExpr a x → GivesExpr b y → GivesExpr result (plain.infix_code operator x y) }
{
    match operator {
        InfixOperator::OrElse => or_else(alloc, a, b),
        InfixOperator::AndAlso => and_also(alloc, a, b),
        InfixOperator::Equal => binary(alloc, BinaryOp::Equal, a, b),
        InfixOperator::NotEqual => binary(alloc, BinaryOp::NotEqual, a, b),
        InfixOperator::Less => binary(alloc, BinaryOp::Less, a, b),
        InfixOperator::LessOrEqual => binary(alloc, BinaryOp::LessOrEqual, a, b),
        InfixOperator::Greater => binary(alloc, BinaryOp::Greater, a, b),
        InfixOperator::GreaterOrEqual => binary(alloc, BinaryOp::GreaterOrEqual, a, b),
        InfixOperator::Add => binary(alloc, BinaryOp::Add, a, b),
        InfixOperator::Subtract => binary(alloc, BinaryOp::Subtract, a, b),
        InfixOperator::Multiply => binary(alloc, BinaryOp::Multiply, a, b),
        InfixOperator::Divide => binary(alloc, BinaryOp::Divide, a, b),
        InfixOperator::Remainder => binary(alloc, BinaryOp::Remainder, a, b),
    }
}

/// What an assignment computes of the old value and the right side; nothing where it is `=`.
pub fn assignment_operation(operator: AssignmentOperator) -> Option<BinaryOp>
    ensures { result ≡ plain.assignment_operation operator }
{
    match operator {
        AssignmentOperator::Set => None,
        AssignmentOperator::Add => Some(BinaryOp::Add),
        AssignmentOperator::Subtract => Some(BinaryOp::Subtract),
        AssignmentOperator::Multiply => Some(BinaryOp::Multiply),
        AssignmentOperator::Divide => Some(BinaryOp::Divide),
        AssignmentOperator::Remainder => Some(BinaryOp::Remainder),
    }
}

/// What `++` or `--` does with one.
pub fn count_operation(operator: CountOperator) -> BinaryOp
    ensures { result ≡ plain.count_operation operator }
{
    match operator {
        CountOperator::Increment => BinaryOp::Add,
        CountOperator::Decrement => BinaryOp::Subtract,
    }
}

/// A minus before an expression of this code: a literal takes it in.
pub(crate) fn minus(
    alloc: Global,
    e: &Expr,
    a: Result<CodeExpr, NoMemory>,
) -> Result<CodeExpr, NoMemory>
    ensures { (x : code.Expr) → GivesExpr a x → GivesExpr result (plain.minus_code (java_view e.now) x) }
{
    match &e.form {
        ExprForm::Integer(n) => {
            discard(a);
            integer(-i128::from(*n))
        }
        ExprForm::Boolean(_)
        | ExprForm::Null
        | ExprForm::This
        | ExprForm::Name(_)
        | ExprForm::Field(_, _)
        | ExprForm::Parenthesized(_)
        | ExprForm::Call(_, _)
        | ExprForm::MethodCall(_, _, _)
        | ExprForm::New(_, _)
        | ExprForm::NewArray(_)
        | ExprForm::Index(_, _)
        | ExprForm::Prefix(_, _)
        | ExprForm::Postfix(_, _)
        | ExprForm::Cast(_, _)
        | ExprForm::Infix(_, _, _)
        | ExprForm::InstanceOf(_, _)
        | ExprForm::Conditional(_, _, _)
        | ExprForm::Assign(_, _, _) => unary(alloc, UnaryOp::Negate, a),
    }
}

/// A cast.
pub(crate) fn cast_to(
    alloc: Global,
    t: ValueType,
    a: Result<CodeExpr, NoMemory>,
) -> Result<CodeExpr, NoMemory>
    ensures { (x : code.Expr) → GivesExpr a x → GivesExpr result (plain.cast_code t x) }
{
    match t {
        ValueType::Class(c) => cast(alloc, Kind::Class(ClassId(c)), a),
        ValueType::IntArray => cast(alloc, Kind::IntArray, a),
        ValueType::Int | ValueType::Boolean | ValueType::Null | ValueType::Missing => a,
    }
}

/// A test of the class.
pub(crate) fn is_instance(
    alloc: Global,
    t: ValueType,
    a: Result<CodeExpr, NoMemory>,
) -> Result<CodeExpr, NoMemory>
    ensures { (x : code.Expr) → GivesExpr a x → GivesExpr result (plain.instance_code t x) }
{
    match t {
        ValueType::Class(c) => instance_of(alloc, Kind::Class(ClassId(c)), a),
        ValueType::Int
        | ValueType::Boolean
        | ValueType::Null
        | ValueType::IntArray
        | ValueType::Missing => instance_of(alloc, Kind::IntArray, a),
    }
}
