//! The constants of parameters.

ghost use Rattle.std.specs.Prelude.{◌≡◌, ◌++◌, IfOk, OnOk, List};
ghost use Rattle.jd_model.specs.Tables as plain;
ghost use Rattle.jd_model.specs.Tables.{source_name};
ghost use Rattle.jd_row_makers.specs.Heads.{is_letter};
ghost use Rattle.jd_term.specs.TermViews.{const_view};

use jd_base::{NoMemory, Sort};
use jd_lists::put;
use jd_term::ConstId;
use std::alloc::Global;

// The letter of constants of the sort.
fn letter(sort: Sort) -> u8
    ensures { is_letter sort result }
{
    match sort {
        Sort::Int => b'i',
        Sort::Bool => b'b',
        Sort::Ref => b'r',
        Sort::Heap => b'h',
        Sort::Field => b'f',
    }
}

// Adds a variable's name in the source: what stands before the mark of later variables of the name.
fn add_source(to: &mut Vec<u8>, name: &[u8]) -> Result<(), NoMemory>
    ensures { OnOk result (to.new.items ≡ to.old.items ++ source_name name.now) }
{
    for b in name {
        if *b == b'\'' {
            return Ok(());
        }
        put(to, *b)?;
    }
    Ok(())
}

// The constant's name.
fn text_of(alloc: Global, name: &[u8], sort: Sort) -> Result<Vec<u8>, NoMemory>
    ensures { IfOk result (λ v. v.items ≡ (plain.parameter_constant (record { text = name.now; sort = sort })).text) }
{
    let mut text = Vec::new(alloc);
    put(&mut text, b'#')?;
    put(&mut text, letter(sort))?;
    put(&mut text, b'_')?;
    add_source(&mut text, name)?;
    Ok(text)
}

/// The constant of the parameter whose variable has the name and the sort.
///
/// # Errors
///
/// `NoMemory` if memory runs out.
pub fn parameter_constant(alloc: Global, name: &[u8], sort: Sort) -> Result<ConstId, NoMemory>
    ensures { IfOk result (λ c. const_view c ≡ plain.parameter_constant (record { text = name.now; sort = sort })) }
{
    let name = text_of(alloc, name, sort)?;
    Ok(ConstId { name, sort })
}
