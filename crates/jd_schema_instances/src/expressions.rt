//! Instances of patterns of expressions.

ghost use Rattle.jd_code_makers.specs.Makers.{GivesExpr};
ghost use Rattle.jd_patterns.specs.Instances.{of_expr};
ghost use Rattle.jd_schema_instances.specs.Choosing.{instance_by, program_by};
ghost use Rattle.jd_schema_trees.specs.CodeViews.{expr_pattern};

use crate::bound::{PartKind, bound_to};
use crate::choice::Chosen;
use crate::heads::{instance_kind, instance_name};
use crate::parts::{as_field, as_simple};
use jd_base::NoMemory;
use jd_code_makers::{
    binary, cast, instance_of, length_of, read_element, read_field, unary, variable,
};
use jd_schema_trees::SExpr;
use jd_syntax::CodeExpr;
use std::alloc::Global;

/// The expression that the pattern means. The error is `NoMemory` alone.
pub fn instance_expr(alloc: Global, p: &SExpr, by: &Chosen<'_, '_>) -> Result<CodeExpr, NoMemory>
    ensures { GivesExpr result (of_expr (program_by by.now) (instance_by by.now) (expr_pattern p.now)) }
{
    match p {
        SExpr::Simple(n) | SExpr::SimpleOf(_, n) => as_simple(
            alloc,
            bound_to(by, PartKind::Simple, n),
        ),
        SExpr::Variable(x) => variable(instance_name(alloc, x, by)),
        SExpr::Unary(op, a) => unary(alloc, *op, instance_expr(alloc, a, by)),
        SExpr::Binary(op, a, b) => binary(
            alloc,
            *op,
            instance_expr(alloc, a, by),
            instance_expr(alloc, b, by),
        ),
        SExpr::ReadField(a, n) => read_field(
            alloc,
            instance_expr(alloc, a, by),
            as_field(bound_to(by, PartKind::Field, n)).0,
        ),
        SExpr::ReadElement(a, b) => read_element(
            alloc,
            instance_expr(alloc, a, by),
            instance_expr(alloc, b, by),
        ),
        SExpr::LengthOf(a) => length_of(alloc, instance_expr(alloc, a, by)),
        SExpr::Cast(k, a) => cast(alloc, instance_kind(k, by), instance_expr(alloc, a, by)),
        SExpr::InstanceOf(k, a) => instance_of(
            alloc,
            instance_kind(k, by),
            instance_expr(alloc, a, by),
        ),
    }
}
