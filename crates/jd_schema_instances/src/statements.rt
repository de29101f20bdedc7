//! Instances of patterns of code.

ghost use Rattle.jd_code_makers.specs.Makers.{GivesCode, GivesStmt};
ghost use Rattle.jd_patterns.specs.Instances.{of_code, of_stmt};
ghost use Rattle.jd_schema_instances.specs.Choosing.{instance_by, program_by};
ghost use Rattle.jd_schema_trees.specs.CodeViews.{code_pattern, stmt_pattern};

use crate::bound::{PartKind, bound_to};
use crate::choice::Chosen;
use crate::expressions::instance_expr;
use crate::heads::{instance_class, instance_name, instance_result};
use crate::makers::{
    alloc_array, block, break_to, caught, chained, choice, copied, finally, followed, framed,
    no_code,
};
use crate::parts::{as_code, as_field, as_label, as_return};
use jd_base::NoMemory;
use jd_code_makers::{
    alloc_object, evaluate, new_array, returned, set, thrown, thrown_unchecked, write_element,
    write_field,
};
use jd_schema_trees::{SCode, SStmt};
use jd_syntax::{Code, CodeStmt};
use std::alloc::Global;

// A copy of the statements that the variable stands for.
fn bound_code(alloc: Global, n: &[u8], by: &Chosen<'_, '_>) -> Result<Code, NoMemory>
    ensures { GivesCode result ((instance_by by.now).code n.now) }
{
    copied(alloc, as_code(bound_to(by, PartKind::Code, n)))
}

/// The statement that the pattern means. The error is `NoMemory` alone.
#[cycle(instance_code)]
pub fn instance_stmt(alloc: Global, p: &SStmt, by: &Chosen<'_, '_>) -> Result<CodeStmt, NoMemory>
    ensures { GivesStmt result (of_stmt (program_by by.now) (instance_by by.now) (stmt_pattern p.now)) }
{
    match p {
        SStmt::AnyReturn(n) => as_return(alloc, bound_to(by, PartKind::Return, n)),
        SStmt::Set(x, e) => set(instance_name(alloc, x, by), instance_expr(alloc, e, by)),
        SStmt::WriteField(e, n, f) => write_field(
            instance_expr(alloc, e, by),
            as_field(bound_to(by, PartKind::Field, n)).0,
            instance_expr(alloc, f, by),
        ),
        SStmt::WriteElement(e, f, g) => write_element(
            instance_expr(alloc, e, by),
            instance_expr(alloc, f, by),
            instance_expr(alloc, g, by),
        ),
        SStmt::Evaluate(e) => evaluate(instance_expr(alloc, e, by)),
        SStmt::If(e, c, d) => choice(
            instance_expr(alloc, e, by),
            instance_code(alloc, c, by),
            instance_code(alloc, d, by),
        ),
        SStmt::Block(n, c) => block(
            as_label(bound_to(by, PartKind::Label, n)),
            instance_code(alloc, c, by),
        ),
        SStmt::BlockPast(n, m, c) => block(
            as_label(bound_to(by, PartKind::Label, n)),
            followed(
                alloc,
                break_to(as_label(bound_to(by, PartKind::Label, m))),
                instance_code(alloc, c, by),
            ),
        ),
        SStmt::Break(n) => break_to(as_label(bound_to(by, PartKind::Label, n))),
        SStmt::Catch(c, x, d) => caught(
            instance_code(alloc, c, by),
            instance_name(alloc, x, by),
            instance_code(alloc, d, by),
        ),
        SStmt::Finally(c, d) => finally(instance_code(alloc, c, by), instance_code(alloc, d, by)),
        SStmt::Throw(e) => thrown(instance_expr(alloc, e, by)),
        SStmt::ThrowUnchecked(e) => thrown_unchecked(instance_expr(alloc, e, by)),
        SStmt::Return(e) => returned(instance_expr(alloc, e, by)),
        SStmt::ReturnVoid => Ok(CodeStmt::ReturnVoid),
        SStmt::Frame(r, c) => framed(instance_result(alloc, r, by), instance_code(alloc, c, by)),
        SStmt::Raise(c) => Ok(CodeStmt::Raise(instance_class(c, by))),
        SStmt::AllocObject(x, c) => alloc_object(
            instance_name(alloc, x, by),
            instance_class(c, by).0,
        ),
        SStmt::AllocArray(x, e) => alloc_array(
            instance_name(alloc, x, by),
            instance_expr(alloc, e, by),
        ),
        SStmt::NewArray(x, e) => new_array(
            instance_name(alloc, x, by),
            instance_expr(alloc, e, by),
        ),
        SStmt::Stop => Ok(CodeStmt::Stop),
    }
}

/// The code that the pattern means. The error is `NoMemory` alone.
#[cycle(instance_code)]
pub fn instance_code(alloc: Global, p: &SCode, by: &Chosen<'_, '_>) -> Result<Code, NoMemory>
    ensures { GivesCode result (of_code (program_by by.now) (instance_by by.now) (code_pattern p.now)) }
{
    match p {
        SCode::Done => no_code(alloc),
        SCode::Then(s, c) => followed(
            alloc,
            instance_stmt(alloc, s, by),
            instance_code(alloc, c, by),
        ),
        SCode::AnyThen(n, c) => match &**c {
            SCode::Done => bound_code(alloc, n, by),
            _ => chained(bound_code(alloc, n, by), instance_code(alloc, c, by)),
        },
    }
}
