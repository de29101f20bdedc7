//! The rows of bodies.

ghost use Rattle.std.specs.Prelude.{◌≡◌, ◌<◌, ◌+◌, ℕ, IfOk, List, cond, map, option_map};
ghost use Rattle.jd_bodies.specs.Bodies as plain;
ghost use Rattle.jd_bodies.specs.Declarations.{Declarations};
ghost use Rattle.jd_body_tables.specs.Rows.{IsRowAt, row_by, sort_written};
ghost use Rattle.jd_check.specs.Building as resolved;
ghost use Rattle.jd_classes.specs.Tables.{AreTables, method_count_of};
ghost use Rattle.jd_jinfos.specs.Views.{method_info_view};
ghost use Rattle.jd_jml_meaning.specs.Resolved.{JmlExpr};
ghost use Rattle.jd_listed_tables.specs.Listed as listed;
ghost use Rattle.jd_model.specs.ContractForms.{body_view};
ghost use Rattle.jd_model.specs.Programs.{Program};
ghost use Rattle.jd_syntax.specs.JavaTrees.{JavaUnit};
ghost use Rattle.jd_syntax.specs.JavaTypes.{type_view};
ghost use Rattle.jd_syntax.specs.Names.{decl_view};

use jd_base::{MethodId, NoMemory, Sort, both};
use jd_check::Body;
use jd_classes::{Classes, MethodInfo};
use jd_lists::put;
use jd_model::BodyForm;
use jd_syntax::{JavaType, VarDecl};
use std::alloc::Global;

// The sort of what a written type has; where it is a name's, it is a reference's.
fn sort_of(t: &JavaType) -> Sort
    ensures { result ≡ sort_written (type_view t.now) }
{
    match t {
        JavaType::Int => Sort::Int,
        JavaType::Boolean => Sort::Bool,
        JavaType::IntArray => Sort::Ref,
        JavaType::Named(_) => Sort::Ref,
    }
}

// The sort of the result, where there is one.
fn outcome(t: &Option<JavaType>) -> Option<Sort>
    ensures { result ≡ option_map sort_written (option_map type_view t.now) }
{
    match t {
        None => None,
        Some(t) => Some(sort_of(t)),
    }
}

// How many variables are the receiver, where there is one, and the parameters; memory holds not so many that a number would not do.
fn parameter_count(is_static: bool, parameters: usize) -> Result<u32, NoMemory>
    ensures { IfOk result (λ n. n ≡ cond is_static 0 1 + parameters) }
{
    let Ok(n) = u32::try_from(parameters) else {
        return Err(NoMemory);
    };
    if is_static {
        return Ok(n);
    }
    if n == u32::MAX {
        return Err(NoMemory);
    }
    Ok(1 + n)
}

// A copy of the variables.
fn copies(alloc: Global, variables: &[VarDecl]) -> Result<Vec<VarDecl>, NoMemory>
    ensures { IfOk result (λ v. map decl_view v.items ≡ map decl_view variables.now) }
{
    let mut made = Vec::new(alloc);
    for v in variables {
        put(&mut made, v.copy(alloc)?)?;
    }
    Ok(made)
}

// The row of a body, by what the tables tell of its method.
fn row(
    alloc: Global,
    method: MethodId,
    info: &MethodInfo,
    body: &Body,
) -> Result<BodyForm, NoMemory>
    ensures { IfOk result (λ r. body_view r ≡ row_by method.0 (method_info_view info.now) (resolved.body_view body.now)) }
{
    let (params, (vars, code)) = both(
        parameter_count(info.is_static, info.params.len()),
        both(copies(alloc, &body.vars), body.code.copy(alloc)),
    )?;
    Ok(BodyForm {
        method,
        params,
        vars,
        result: outcome(&info.result),
        code,
    })
}

// The method or constructor of the number; memory holds not so many that a number would not do.
fn id_of(number: usize) -> Result<MethodId, NoMemory>
    ensures { IfOk result (λ m. m.0 ≡ number) }
{
    match u32::try_from(number) {
        Ok(number) => Ok(MethodId(number)),
        Err(_) => Err(NoMemory),
    }
}

// The row of the body of a number.
fn row_at(
    alloc: Global,
    classes: &Classes,
    body: &Body,
    number: usize,
) -> Result<BodyForm, NoMemory>
    requires { number < method_count_of classes.now }
    ensures { (units : List JavaUnit) → AreTables units classes.now → IfOk result (λ r. IsRowAt units number (resolved.body_view body.now) (body_view r)) }
{
    let method = id_of(number)?;
    row(alloc, method, classes.method(method), body)
}

/// The rows of a program's bodies, by their numbers, in time that grows as the bodies do.
///
/// # Errors
///
/// `NoMemory` if memory runs out.
pub fn body_rows(
    alloc: Global,
    classes: &Classes,
    bodies: &[Body],
) -> Result<Vec<BodyForm>, NoMemory>
    requires { (units : List JavaUnit) × (d : Declarations) × AreTables units classes.now × (map resolved.body_view bodies.now ≡ plain.bodies d units) }
    ensures { (units : List JavaUnit) (d : Declarations) (p : Program) (invariants : ℕ → List JmlExpr) → AreTables units classes.now → map resolved.body_view bodies.now ≡ plain.bodies d units
        → IfOk result (λ v. map body_view v.items ≡ listed.body_rows units d p invariants) }
{
    let mut rows = Vec::new(alloc);
    for number in 0..bodies.len() {
        put(&mut rows, row_at(alloc, classes, &bodies[number], number)?)?;
    }
    Ok(rows)
}
