//! Variables by their names.

ghost use Rattle.std.specs.Prelude.{◌≡◌, IfOk, option_map};
ghost use Rattle.std.specs.List.{find};
ghost use Rattle.std.specs.Str.{bytes_eq};
ghost use Rattle.jd_syntax.specs.Names.{Name, var_view};
ghost use Rattle.jd_tparse.specs.Names.{variables};

use jd_base::{NoMemory, copy_bytes};
use jd_syntax::{VarDecl, VarId};
use std::alloc::Global;

/// The first of the declared variables that has the name.
pub(crate) fn declared_variable(
    alloc: Global,
    vars: &[VarDecl],
    name: &[u8],
) -> Result<Option<VarId>, NoMemory>
    ensures { IfOk result (λ o. option_map var_view o ≡ find (λ (x : Name). bytes_eq x.text name.now) (variables vars.now)) }
{
    for declared in vars {
        if declared.name.as_slice() == name {
            let name = copy_bytes(alloc, &declared.name)?;
            return Ok(Some(VarId {
                name,
                sort: declared.sort,
            }));
        }
    }
    Ok(None)
}
