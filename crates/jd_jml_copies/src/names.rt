//! Copies of names and types.

ghost use Rattle.std.specs.Prelude.{◌≡◌, IfOk, map, option_map};
ghost use Rattle.jd_syntax.specs.JavaTypes.{identifier_view, type_view, written_view};
ghost use Rattle.jd_syntax.specs.SpecTrees.{spec_type_view};
ghost use Rattle.jd_jml_copies.specs.Made.{GivesBound};

use jd_base::{NoMemory, both, copy_bytes};
use jd_syntax::{Identifier, JavaType, SpecType, WrittenType};
use std::alloc::Global;

/// A copy of the name.
pub(crate) fn copy_identifier(alloc: Global, x: &Identifier) -> Result<Identifier, NoMemory>
    ensures { IfOk result (λ y. identifier_view y ≡ identifier_view x.now) }
{
    let name = copy_bytes(alloc, &x.name)?;
    Ok(Identifier { at: x.at, name })
}

/// Copies of the names.
pub(crate) fn copy_identifiers(
    alloc: Global,
    xs: &[Identifier],
) -> Result<Vec<Identifier>, NoMemory>
    ensures { IfOk result (λ v. map identifier_view v.items ≡ map identifier_view xs.now) }
{
    let mut copies = Vec::with_capacity(alloc, xs.len())?;
    for x in xs {
        copies.push(copy_identifier(alloc, x)?)?;
    }
    Ok(copies)
}

/// A copy of the name, if there is one.
pub(crate) fn copy_optional(
    alloc: Global,
    x: &Option<Identifier>,
) -> Result<Option<Identifier>, NoMemory>
    ensures { IfOk result (λ y. option_map identifier_view y ≡ option_map identifier_view x.now) }
{
    match x {
        None => Ok(None),
        Some(x) => Ok(Some(copy_identifier(alloc, x)?)),
    }
}

fn copy_type(alloc: Global, t: &JavaType) -> Result<JavaType, NoMemory>
    ensures { IfOk result (λ u. type_view u ≡ type_view t.now) }
{
    match t {
        JavaType::Int => Ok(JavaType::Int),
        JavaType::Boolean => Ok(JavaType::Boolean),
        JavaType::IntArray => Ok(JavaType::IntArray),
        JavaType::Named(name) => Ok(JavaType::Named(copy_bytes(alloc, name)?)),
    }
}

/// A copy of the type.
pub(crate) fn copy_written(alloc: Global, w: &WrittenType) -> Result<WrittenType, NoMemory>
    ensures { IfOk result (λ u. written_view u ≡ written_view w.now) }
{
    let written = copy_type(alloc, &w.written)?;
    Ok(WrittenType { at: w.at, written })
}

fn copy_spec_type(alloc: Global, t: &SpecType) -> Result<SpecType, NoMemory>
    ensures { IfOk result (λ u. spec_type_view u ≡ spec_type_view t.now) }
{
    match t {
        SpecType::BigInt => Ok(SpecType::BigInt),
        SpecType::Java(w) => Ok(SpecType::Java(copy_written(alloc, w)?)),
    }
}

/// Copies of what a quantifier binds.
pub(crate) fn copy_bound(
    alloc: Global,
    t: &SpecType,
    x: &Identifier,
) -> Result<(SpecType, Identifier), NoMemory>
    ensures { GivesBound result (spec_type_view t.now) (identifier_view x.now) }
{
    both(copy_spec_type(alloc, t), copy_identifier(alloc, x))
}
