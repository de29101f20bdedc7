//! Whether names that a step gives are new.

ghost use Rattle.std.specs.Prelude.{◌≡◌, IfOk, map, option_map};
ghost use Rattle.std.specs.List.{list_any};
ghost use Rattle.jd_model.specs.ContractForms.{body_view};
ghost use Rattle.jd_model.specs.Occurrences.{member};
ghost use Rattle.jd_model.specs.Sequents.{sequent_view};
ghost use Rattle.jd_schema_instances.specs.Choosing.{instance_by};
ghost use Rattle.jd_schema_trees.specs.TacletViews.{given_form, taclet};
ghost use Rattle.jd_sequent.specs.Freshness.{constant_stands_in, special_variables, variable_stands_in};
ghost use Rattle.jd_sequent.specs.Obligations.{task_view};
ghost use Rattle.jd_syntax.specs.CodeNames.{named_in_code, same_name};
ghost use Rattle.jd_syntax.specs.Names.{const_decl_view, var_view};
ghost use Rattle.jd_taclet_stages.specs.Stages.{all_new, is_new_as, is_new_constant, is_new_variable};
ghost use Rattle.jd_term.specs.Formulas.{formula_view};
ghost use Rattle.jd_term.specs.Occurs.{occurs_const_in, occurs_var_in};
ghost use Rattle.jd_term.specs.TermViews.{const_view};
ghost use Rattle.jd_tforms.specs.Naming.{named};
ghost use Rattle.jd_taclet_matching.specs.Given.{form_or};

use crate::giving::form_of;
use crate::named::named_in_code;
use crate::reading::is_sort;
use jd_base::{ConstDecl, NoMemory, Sort, copy_bytes};
use jd_model::{BodyForm, Sequent};
use jd_schema_instances::{Chosen, PartKind, as_name, bound_to};
use jd_schema_trees::{GivenForm, Taclet};
use jd_sequent::Task;
use jd_syntax::VarId;
use jd_term::{ConstId, Formula, occurs_const, occurs_var};
use jd_twords::is_word;
use std::alloc::Global;

// ---- variables

fn variable_stands_on(formulas: &[Formula], x: &VarId) -> bool
    ensures { result ≡ list_any (occurs_var_in (var_view x.now)) (map formula_view formulas.now) }
{
    for f in formulas {
        if occurs_var(f, x) {
            return true;
        }
    }
    false
}

fn variable_stands_in(sequent: &Sequent, x: &VarId) -> bool
    ensures { result ≡ variable_stands_in (sequent_view sequent.now) (var_view x.now) }
{
    variable_stands_on(&sequent.left, x) || variable_stands_on(&sequent.right, x)
}

fn is_named(x: &VarId, text: &[u8], sort: Sort) -> bool
    ensures { result ≡ same_name (var_view x.now) (named text.now sort) }
{
    is_word(&x.name, text) && is_sort(x.sort, sort)
}

// Whether it is the heap's variable, one of those of results, or that of what is thrown.
fn is_special(x: &VarId) -> bool
    ensures { result ≡ member (var_view x.now) special_variables }
{
    is_named(x, b"@heap", Sort::Heap)
        || is_named(x, b"@ires", Sort::Int)
        || is_named(x, b"@bres", Sort::Bool)
        || is_named(x, b"@rres", Sort::Ref)
        || is_named(x, b"@rexc", Sort::Ref)
}

fn stands_in_body(bodies: &[BodyForm], x: &VarId) -> bool
    ensures { result ≡ list_any (λ b. named_in_code (var_view x.now) b.code) (map body_view bodies.now) }
{
    for body in bodies {
        if named_in_code(&body.code, x) {
            return true;
        }
    }
    false
}

fn is_new_variable(task: &Task<'_>, sequent: &Sequent, x: &VarId) -> bool
    ensures { result ≡ is_new_variable (task_view task.now) (sequent_view sequent.now) (var_view x.now) }
{
    !variable_stands_in(sequent, x) && !is_special(x) && !stands_in_body(&task.contracts.bodies, x)
}

// ---- constants

fn constant_stands_on(formulas: &[Formula], c: &ConstId) -> bool
    ensures { result ≡ list_any (occurs_const_in (const_view c.now)) (map formula_view formulas.now) }
{
    for f in formulas {
        if occurs_const(f, c) {
            return true;
        }
    }
    false
}

fn constant_stands_in(sequent: &Sequent, c: &ConstId) -> bool
    ensures { result ≡ constant_stands_in (sequent_view sequent.now) (const_view c.now) }
{
    constant_stands_on(&sequent.left, c) || constant_stands_on(&sequent.right, c)
}

fn is_declared(c: &ConstId, d: &ConstDecl) -> bool
    ensures { result ≡ same_name (const_view c.now) (const_decl_view d.now) }
{
    is_word(&c.name, &d.name) && is_sort(c.sort, d.sort)
}

// Whether it is one of these.
fn is_known(consts: &[ConstDecl], c: &ConstId) -> bool
    ensures { result ≡ list_any (λ k. same_name (const_view c.now) k) (map const_decl_view consts.now) }
{
    for d in consts {
        if is_declared(c, d) {
            return true;
        }
    }
    false
}

// The constant of the name.
fn constant_of(alloc: Global, x: &VarId) -> Result<ConstId, NoMemory>
    ensures { IfOk result (λ c. const_view c ≡ var_view x.now) }
{
    let name = copy_bytes(alloc, &x.name)?;
    Ok(ConstId { name, sort: x.sort })
}

fn is_new_constant(
    alloc: Global,
    task: &Task<'_>,
    sequent: &Sequent,
    x: &VarId,
) -> Result<bool, NoMemory>
    ensures { IfOk result (λ b. b ≡ is_new_constant (task_view task.now) (sequent_view sequent.now) (var_view x.now)) }
{
    let c = constant_of(alloc, x)?;
    Ok(!constant_stands_in(sequent, &c) && !is_known(&task.obligation.consts, &c))
}

// ---- what is given

// Whether the name is new, where a new one is to be given.
fn is_new_as(
    alloc: Global,
    task: &Task<'_>,
    sequent: &Sequent,
    form: Option<&GivenForm>,
    x: &VarId,
) -> Result<bool, NoMemory>
    ensures { IfOk result (λ b. b ≡ is_new_as (task_view task.now) (sequent_view sequent.now) (form_or (option_map (λ f. given_form f.now) form.entry)) (var_view x.now)) }
{
    match form {
        Some(GivenForm::NewConstant(_)) => is_new_constant(alloc, task, sequent, x),
        Some(GivenForm::NewVariable(_)) => Ok(is_new_variable(task, sequent, x)),
        Some(GivenForm::Formula) => Ok(true),
        Some(GivenForm::Number) => Ok(true),
        Some(GivenForm::Term(_)) => Ok(true),
        None => Ok(true),
    }
}

// The same of what the variable stands for.
fn is_new(
    alloc: Global,
    task: &Task<'_>,
    sequent: &Sequent,
    form: Option<&GivenForm>,
    name: &[u8],
    by: &Chosen<'_, '_>,
) -> Result<bool, NoMemory>
    ensures { IfOk result (λ b. b ≡ is_new_as (task_view task.now) (sequent_view sequent.now) (form_or (option_map (λ f. given_form f.now) form.entry)) ((instance_by by.now).name name.now)) }
{
    let x = as_name(alloc, bound_to(by, PartKind::Name, name))?;
    is_new_as(alloc, task, sequent, form, &x)
}

/// Whether all names are new that a step gives where new ones are asked for: a constant stands nowhere in the sequent, and is none of the
/// obligation's; a variable stands nowhere in the sequent and in no body of the program, and is not special.
pub fn are_new(
    alloc: Global,
    task: &Task<'_>,
    sequent: &Sequent,
    row: &Taclet,
    by: &Chosen<'_, '_>,
) -> Result<bool, NoMemory>
    ensures { IfOk result (λ b. b ≡ all_new (task_view task.now) (sequent_view sequent.now) (instance_by by.now) (taclet row.now).insts) }
{
    for v in &row.insts {
        if !is_new(
            alloc,
            task,
            sequent,
            form_of(&row.conds, &v.name),
            &v.name,
            by,
        )? {
            return Ok(false);
        }
    }
    Ok(true)
}
