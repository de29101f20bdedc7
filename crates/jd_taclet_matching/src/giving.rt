//! What a step gives for a row's variables.

ghost use Rattle.std.specs.Prelude.{◌≡◌, IfOk, Some, length, map, nat_eq, option_map, ◌++◌, ◌∷◌, []};
ghost use Rattle.jd_declared.specs.Named.{first_named};
ghost use Rattle.jd_schema_instances.specs.Choosing.{instance_by, program_by};
ghost use Rattle.jd_schema_matching.specs.Bound.{answered};
ghost use Rattle.jd_schema_trees.specs.TacletViews.{form_said, given_form, inst_var, taclet};
ghost use Rattle.jd_sequent.specs.declared.bad.Bad.TheVariants.{BadInst};
ghost use Rattle.jd_sequent.specs.Obligations.{task_view};
ghost use Rattle.jd_syntax.specs.Sxs.{sx_view};
ghost use Rattle.jd_taclet_stages.specs.Stages.{all_named, given_for, going};
ghost use Rattle.jd_tparse.specs.Names.{table_of};
ghost use Rattle.jd_taclet_matching.specs.Answers.{Answers};
ghost use Rattle.jd_taclet_matching.specs.Given.{form_or, given_entry, given_told, inst_view, own_form, with_entry, with_more};
ghost use Rattle.jd_taclet_matching.specs.OwnedParts.{owned_entries, owned_entry};

use crate::answers::ended;
use crate::owned::OwnedEntry;
use crate::reading::read_as;
use jd_base::NoMemory;
use jd_lists::put;
use jd_schema_instances::Chosen;
use jd_schema_trees::{GivenForm, InstVar, Taclet, VarCond};
use jd_sequent::{Bad, OfTask, Task};
use jd_syntax::Sx;
use jd_tparse::Names;
use jd_twords::is_word;
use std::alloc::Global;

// What is given by the name.
fn given_by_name<'a>(insts: &'a [(Vec<u8>, Sx)], name: &[u8]) -> Option<&'a Sx>
    ensures { option_map (λ x. sx_view x.now) result ≡ first_named (map inst_view insts.now) name.now }
{
    for (given, x) in insts {
        if is_word(given, name) {
            return Some(x);
        }
    }
    None
}

// Whether each variable that is asked for is given.
fn all_named(row: &Taclet, insts: &[(Vec<u8>, Sx)]) -> bool
    ensures { result ≡ all_named (taclet row.now).insts (map inst_view insts.now) }
{
    for v in &row.insts {
        if given_by_name(insts, &v.name).is_none() {
            return false;
        }
    }
    true
}

// Whether as many are given as are asked for.
fn are_as_many(row: &Taclet, insts: &[(Vec<u8>, Sx)]) -> bool
    ensures { result ≡ nat_eq (length (map inst_view insts.now)) (length (taclet row.now).insts) }
{
    insts.len() == row.insts.len()
}

// The form that the condition says of the variable.
fn own_form<'a>(c: &'a VarCond, name: &[u8]) -> Option<&'a GivenForm>
    ensures { option_map (λ f. given_form f.now) result ≡ own_form c.now name.now }
{
    match c {
        VarCond::Gives(n, form) => { if is_word(n, name) { Some(form) } else { None } }
        _ => None,
    }
}

/// The form in which the variable is given, where a condition says one.
pub(crate) fn form_of<'a>(conds: &'a [VarCond], name: &[u8]) -> Option<&'a GivenForm>
    ensures { form_or (option_map (λ f. given_form f.now) result) ≡ form_said conds.now name.now }
{
    for c in conds {
        match own_form(c, name) {
            Some(form) => return Some(form),
            None => {}
        }
    }
    None
}

// Puts the part behind the others.
fn added<'t>(entry: OwnedEntry<'t>, made: &mut Vec<OwnedEntry<'t>>) -> Result<bool, NoMemory>
    ensures { IfOk result (λ b. answered b (owned_entries made.new) ≡ Some (owned_entries made.old ++ owned_entry entry.entry ∷ [])) }
{
    put(made, entry)?;
    Ok(true)
}

// Puts what the variable is to stand for behind the others, where it is of its form.
fn add_entry<'t>(
    alloc: Global,
    names: &Names<'_>,
    by: &Chosen<'_, '_>,
    conds: &[VarCond],
    v: &'t InstVar,
    insts: &[(Vec<u8>, Sx)],
    made: &mut Vec<OwnedEntry<'t>>,
) -> Result<bool, NoMemory>
    ensures { IfOk result (λ b. answered b (owned_entries made.new) ≡ with_entry (owned_entries made.old) (given_entry (table_of names.now) (program_by by.now) (instance_by by.now) (inst_var conds.now v.now) (map inst_view insts.now))) }
{
    let Some(x) = given_by_name(insts, &v.name) else {
        return Ok(false)
    };
    match read_as(alloc, form_of(conds, &v.name), x, names, by)? {
        Some(part) => added(
            OwnedEntry {
                name: &v.name,
                part,
            },
            made,
        ),
        None => Ok(false),
    }
}

// The same of each variable that is asked for.
fn add_entries<'t>(
    alloc: Global,
    names: &Names<'_>,
    by: &Chosen<'_, '_>,
    row: &'t Taclet,
    insts: &[(Vec<u8>, Sx)],
    made: &mut Vec<OwnedEntry<'t>>,
) -> Result<bool, NoMemory>
    ensures { IfOk result (λ b. answered b (owned_entries made.new) ≡ with_more (owned_entries made.old) (given_for (table_of names.now) (program_by by.now) (instance_by by.now) (taclet row.now).insts (map inst_view insts.now))) }
{
    for v in &row.insts {
        if !add_entry(alloc, names, by, &row.conds, v, insts, made)? {
            return Ok(false);
        }
    }
    Ok(true)
}

// What each variable that is asked for is to stand for.
fn entries_for<'t>(
    alloc: Global,
    names: &Names<'_>,
    by: &Chosen<'_, '_>,
    row: &'t Taclet,
    insts: &[(Vec<u8>, Sx)],
) -> Result<Vec<OwnedEntry<'t>>, Bad>
    ensures { Answers owned_entries result (going BadInst (given_for (table_of names.now) (program_by by.now) (instance_by by.now) (taclet row.now).insts (map inst_view insts.now))) }
{
    let mut made = Vec::new(alloc);
    let whole = add_entries(alloc, names, by, row, insts, &mut made);
    ended(whole, made, Bad::BadInst)
}

/// What the row's variables are to stand for that a step gives, as its text says. The sorts that are asked for hang on what was found.
///
/// # Errors
///
/// The first of these that is so: `MissingInst` if one that is asked for is not given; `BadInst` if more are given than are asked for, or one
/// is not of its form or sort. `NoMemory` if memory runs out.
pub fn parts_given<'t>(
    alloc: Global,
    task: &Task<'_>,
    row: &'t Taclet,
    insts: &[(Vec<u8>, Sx)],
    by: &Chosen<'_, '_>,
) -> Result<Vec<OwnedEntry<'t>>, Bad>
    ensures { Answers owned_entries result (given_told (task_view task.now) (taclet row.now).insts (map inst_view insts.now) (instance_by by.now)) }
{
    if !all_named(row, insts) {
        return Err(Bad::MissingInst);
    }
    if !are_as_many(row, insts) {
        return Err(Bad::BadInst);
    }
    let names = Names::of(task);
    entries_for(alloc, &names, by, row, insts)
}
