//! The constants of an obligation.

ghost use Rattle.std.specs.Prelude.{◌≡◌, ◌++◌, ◌∷◌, IfOk, OnOk, map};
ghost use Rattle.jd_model.specs.SpecialNames.{entry_heap, entry_measure, receiver};
ghost use Rattle.jd_model.specs.Tables as plain;
ghost use Rattle.jd_model.specs.Tables.{constants_of_parameters};
ghost use Rattle.jd_obligation_makers.specs.Starts.{decl_name};
ghost use Rattle.jd_syntax.specs.Names.{const_decl_view};

use jd_base::{ConstDecl, NoMemory, Sort, copy_bytes};
use jd_lists::put;
use jd_row_makers::parameter_constant;
use jd_syntax::VarDecl;
use jd_term::ConstId;
use std::alloc::Global;

// The constant of this name.
fn named(alloc: Global, name: &[u8], sort: Sort) -> Result<ConstDecl, NoMemory>
    ensures { IfOk result (λ c. const_decl_view c ≡ record { text = name.now; sort = sort }) }
{
    let name = copy_bytes(alloc, name)?;
    Ok(ConstDecl { name, sort })
}

// The constant of a parameter: its value at the entry.
fn of_parameter(alloc: Global, v: &VarDecl) -> Result<ConstDecl, NoMemory>
    ensures { IfOk result (λ c. const_decl_view c ≡ plain.parameter_constant (decl_name v.now)) }
{
    let ConstId { name, sort } = parameter_constant(alloc, &v.name, v.sort)?;
    Ok(ConstDecl { name, sort })
}

// Adds the constants of parameters.
fn add_parameters(alloc: Global, to: &mut Vec<ConstDecl>, vars: &[VarDecl]) -> Result<(), NoMemory>
    ensures { OnOk result (map const_decl_view to.new.items ≡ map const_decl_view to.old.items ++ constants_of_parameters (map decl_name vars.now)) }
{
    for v in vars {
        put(to, of_parameter(alloc, v)?)?;
    }
    Ok(())
}

/// The heap and the measure at the entry, the receiver and each parameter.
pub(crate) fn constants(alloc: Global, parameters: &[VarDecl]) -> Result<Vec<ConstDecl>, NoMemory>
    ensures { IfOk result (λ v. map const_decl_view v.items ≡ entry_heap ∷ entry_measure ∷ receiver ∷ constants_of_parameters (map decl_name parameters.now)) }
{
    let mut made = Vec::new(alloc);
    put(&mut made, named(alloc, b"#hpre", Sort::Heap)?)?;
    put(&mut made, named(alloc, b"#im", Sort::Int)?)?;
    put(&mut made, named(alloc, b"#r_this", Sort::Ref)?)?;
    add_parameters(alloc, &mut made, parameters)?;
    Ok(made)
}
