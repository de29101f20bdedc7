//! What variables are called.

ghost use Rattle.std.specs.Prelude.{◌≡◌, ◌+◌, ◌++◌, ◌∷◌, [], codes, cond, IfOk, map, OnOk, if◌then◌else◌, List, ℕ};
ghost use Rattle.std.specs.Fmt.{decimal};
ghost use Rattle.std.specs.Str.{bytes_eq};
ghost use Rattle.jd_bodies.specs.Variables as plain;
ghost use Rattle.jd_code_makers.specs.Held.{number_at};
ghost use Rattle.jd_code_makers.specs.Makers.{GivesName, class_number};
ghost use Rattle.jd_syntax.specs.Names.{Name, decl_view};

use indexmap::IndexMap;
use itoa::Buffer;
use jd_base::{ClassId, NoMemory, Sort, copy_bytes};
use jd_bodies::ValueType;
use jd_lists::put;
use jd_syntax::{VarDecl, VarId};
use std::alloc::Global;

/// A copy of the variable.
pub fn copied(alloc: Global, v: &Result<VarId, NoMemory>) -> Result<VarId, NoMemory>
    ensures { (n : Name) → GivesName v.now n → GivesName result n }
{
    match v {
        Ok(v) => v.copy(alloc),
        Err(NoMemory) => Err(NoMemory),
    }
}

/// The sort of the type's values.
pub(crate) fn sort_of(t: ValueType) -> Sort
    ensures { result ≡ plain.sort_of t }
{
    match t {
        ValueType::Int => Sort::Int,
        ValueType::Boolean => Sort::Bool,
        _ => Sort::Ref,
    }
}

// The class that it is.
fn class_of(t: ValueType) -> Option<ClassId>
    ensures { class_number result ≡ plain.class_of t }
{
    match t {
        ValueType::Class(c) => Some(ClassId(c)),
        _ => None,
    }
}

/// One more.
pub(crate) fn next(n: u64) -> Result<u64, NoMemory>
    ensures { IfOk result (λ m. m ≡ n + 1) }
{
    match n.checked_add(1) {
        Some(m) => Ok(m),
        None => Err(NoMemory),
    }
}

/// One more, of 32 bits.
pub(crate) fn following(n: u32) -> Result<u32, NoMemory>
    ensures { IfOk result (λ m. m ≡ n + 1) }
{
    match n.checked_add(1) {
        Some(m) => Ok(m),
        None => Err(NoMemory),
    }
}

// Puts an apostrophe and a number behind a text.
fn add_number(text: &mut Vec<u8>, number: u64) -> Result<(), NoMemory>
    ensures { OnOk result (text.new.items ≡ (text.old.items ++ codes "'") ++ decimal number) }
{
    let mut digits = Buffer::new();
    text.extend_from_slice(b"'")?;
    text.extend_from_slice(digits.format(number).as_bytes())?;
    Ok(())
}

// A name with an apostrophe and a number behind it.
fn numbered(alloc: Global, name: &[u8], number: u64) -> Result<Vec<u8>, NoMemory>
    ensures { IfOk result (λ v. v.items ≡ (name.now ++ codes "'") ++ decimal number) }
{
    let mut text = copy_bytes(alloc, name)?;
    add_number(&mut text, number)?;
    Ok(text)
}

// What a parameter or local of a name is called, by its number.
fn local_text(alloc: Global, name: &[u8], number: u64) -> Result<Vec<u8>, NoMemory>
    ensures { IfOk result (λ v. v.items ≡ plain.local_text name.now number) }
{
    if number == 1 {
        copy_bytes(alloc, name)
    } else {
        numbered(alloc, name, number)
    }
}

/// The temporary of a number.
pub(crate) fn temporary_id(alloc: Global, number: u64, t: ValueType) -> Result<VarId, NoMemory>
    ensures { GivesName result (plain.temporary_name number t) }
{
    let name = numbered(alloc, b"", number)?;
    Ok(VarId {
        name,
        sort: sort_of(t),
    })
}

/// `this`
pub(crate) fn this_id(alloc: Global) -> Result<VarId, NoMemory>
    ensures { GivesName result plain.this_name }
{
    let name = copy_bytes(alloc, b"this")?;
    Ok(VarId {
        name,
        sort: Sort::Ref,
    })
}

/// The number that a parameter or local of a name is shown with, where so many have it.
pub(crate) fn shown(name: &[u8], count: u64) -> Result<u64, NoMemory>
    ensures { IfOk result (λ n. n ≡ count + cond (bytes_eq name.now (codes "created")) 1 0) }
{
    if name == b"created".as_slice() {
        next(count)
    } else {
        Ok(count)
    }
}

/// The parameter or local of a name and a number.
pub(crate) fn local_id(
    alloc: Global,
    name: &[u8],
    number: Result<u64, NoMemory>,
    t: ValueType,
) -> Result<VarId, NoMemory>
    ensures { (n : ℕ) → IfOk number (λ m. m ≡ n) → GivesName result (record { text = plain.local_text name.now n; sort = plain.sort_of t }) }
{
    let number = number?;
    let name = local_text(alloc, name, number)?;
    Ok(VarId {
        name,
        sort: sort_of(t),
    })
}

/// Declares a variable of a type behind others.
pub(crate) fn declare(
    variables: &mut Vec<VarDecl>,
    v: Result<VarId, NoMemory>,
    t: ValueType,
) -> Result<(), NoMemory>
    ensures { OnOk result ((n : Name) → GivesName v n → map decl_view variables.new.items ≡ map decl_view variables.old.items ++ plain.declared n t ∷ []) }
{
    let VarId { name, sort } = v?;
    put(
        variables,
        VarDecl {
            name,
            sort,
            class: class_of(t),
        },
    )
}

/// Gives a name a number.
pub(crate) fn set_number(
    alloc: Global,
    numbers: &mut IndexMap<Vec<u8>, u64>,
    name: &[u8],
    number: u64,
) -> Result<(), NoMemory>
    ensures { OnOk result ((q : List ℕ) → number_at numbers.new.entries q ≡ (if bytes_eq name.now q then number else number_at numbers.old.entries q)) }
{
    numbers.insert(copy_bytes(alloc, name)?, number)?;
    Ok(())
}
