//! What is said of fields without words.

ghost use Rattle.jd_jml_copies.specs.Made.{GivesSpec};
ghost use Rattle.jd_jml_copies.specs.NotNull as plain;
ghost use Rattle.jd_syntax.specs.JavaTypes.{identifier_view};
ghost use Rattle.jd_syntax.specs.SpecTrees.{Null, This};

use crate::makers::{field, infix};
use crate::names::copy_identifier;
use jd_base::NoMemory;
use jd_syntax::{Identifier, InfixOperator, SpecExpr, SpecForm};
use std::alloc::Global;

fn this(at: u32) -> Result<SpecExpr, NoMemory>
    ensures { GivesSpec result (This at) }
{
    Ok(SpecExpr {
        at,
        form: SpecForm::This,
    })
}

fn null(at: u32) -> Result<SpecExpr, NoMemory>
    ensures { GivesSpec result (Null at) }
{
    Ok(SpecExpr {
        at,
        form: SpecForm::Null,
    })
}

/// `this.x != null`, at the place of the name.
///
/// # Errors
///
/// `NoMemory`.
pub fn not_null(alloc: Global, x: &Identifier) -> Result<SpecExpr, NoMemory>
    ensures { GivesSpec result (plain.not_null (identifier_view x.now)) }
{
    let at = x.at;
    infix(
        alloc,
        at,
        InfixOperator::NotEqual,
        field(alloc, at, this(at), copy_identifier(alloc, x)),
        null(at),
    )
}
