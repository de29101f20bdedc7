//! Copies of types.

ghost use Rattle.jd_jclasses.specs.Members.{result_type};
ghost use Rattle.jd_syntax.specs.JavaTrees.{parameter_view, result_view};
ghost use Rattle.jd_syntax.specs.JavaTypes.{type_view};
ghost use Rattle.std.specs.Prelude.{◌≡◌, IfOk, map, option_map};

use jd_base::{NoMemory, copy_bytes};
use jd_syntax::{JavaType, Parameter, ResultType};
use std::alloc::Global;

// A copy of the type.
pub(crate) fn copy_type(alloc: Global, ty: &JavaType) -> Result<JavaType, NoMemory>
    ensures { IfOk result (λ t. type_view t ≡ type_view ty.now) }
{
    match ty {
        JavaType::Int => Ok(JavaType::Int),
        JavaType::Boolean => Ok(JavaType::Boolean),
        JavaType::IntArray => Ok(JavaType::IntArray),
        JavaType::Named(name) => Ok(JavaType::Named(copy_bytes(alloc, name)?)),
    }
}

// The types of the parameters.
#[tactic(auto, using(jd_syntax::proofs::Lists::rest))]
pub(crate) fn copy_types(alloc: Global, parameters: &[Parameter]) -> Result<Vec<JavaType>, NoMemory>
    ensures { IfOk result (λ v. map type_view v.items ≡ map (λ p. p.ty.written) (map parameter_view parameters.now)) }
{
    let mut types = Vec::with_capacity(alloc, parameters.len())?;
    for parameter in parameters {
        types.push(copy_type(alloc, &parameter.ty.written)?)?;
    }
    Ok(types)
}

// The type of the result, none for `void` and for what a constructor gives.
pub(crate) fn copy_result(alloc: Global, given: &ResultType) -> Result<Option<JavaType>, NoMemory>
    ensures { IfOk result (λ t. option_map type_view t ≡ result_type (result_view given.now)) }
{
    match given {
        ResultType::Void | ResultType::Constructor => Ok(None),
        ResultType::Gives(ty) => Ok(Some(copy_type(alloc, &ty.written)?)),
    }
}
