//! Sorts and operations.

ghost use Rattle.std.specs.Prelude.{◌≡◌};
ghost use Rattle.jd_tforms.specs.Sorted as plain;

use crate::terms::same_sort;
use jd_base::Sort;
use jd_syntax::{BinaryOp, UnaryOp};

// Whether it is the sort of a value of Java.
pub(crate) fn is_value(sort: Sort) -> bool
    ensures { result ≡ plain.is_value sort }
{
    match sort {
        Sort::Int | Sort::Bool | Sort::Ref => true,
        Sort::Heap | Sort::Field => false,
    }
}

// Whether there is a value, and of this sort.
pub(crate) fn is_some_sort(sort: Sort, found: Option<Sort>) -> bool
    ensures { result ≡ plain.is_some_sort sort found }
{
    match found {
        None => false,
        Some(other) => same_sort(other, sort),
    }
}

// Whether there are two values, of one sort.
pub(crate) fn both_one_sort(a: Option<Sort>, b: Option<Sort>) -> bool
    ensures { result ≡ plain.both_one_sort a b }
{
    match a {
        None => false,
        Some(sort) => is_some_sort(sort, b),
    }
}

// Of what an operation on one value is made, and what it gives.
pub(crate) fn unary_sort(operation: UnaryOp) -> Sort
    ensures { result ≡ plain.unary_sort operation }
{
    match operation {
        UnaryOp::Negate => Sort::Int,
        UnaryOp::Invert => Sort::Bool,
    }
}

// Whether it is made of integers.
pub(crate) fn is_of_integers(operation: BinaryOp) -> bool
    ensures { result ≡ plain.of_integers operation }
{
    match operation {
        BinaryOp::Equal | BinaryOp::NotEqual => false,
        BinaryOp::Add
        | BinaryOp::Subtract
        | BinaryOp::Multiply
        | BinaryOp::Divide
        | BinaryOp::Remainder
        | BinaryOp::Less
        | BinaryOp::LessOrEqual
        | BinaryOp::Greater
        | BinaryOp::GreaterOrEqual => true,
    }
}

// What it gives.
pub(crate) fn binary_sort(operation: BinaryOp) -> Sort
    ensures { result ≡ plain.binary_sort operation }
{
    match operation {
        BinaryOp::Add
        | BinaryOp::Subtract
        | BinaryOp::Multiply
        | BinaryOp::Divide
        | BinaryOp::Remainder => Sort::Int,
        BinaryOp::Less
        | BinaryOp::LessOrEqual
        | BinaryOp::Greater
        | BinaryOp::GreaterOrEqual
        | BinaryOp::Equal
        | BinaryOp::NotEqual => Sort::Bool,
    }
}
