//! What holds at the entry.

ghost use Rattle.std.specs.Prelude.{◌≡◌, ◌++◌, ◌∷◌, IfOk, OnOk, map};
ghost use Rattle.jd_case_rows.specs.Rows.{invariant_members, parameter_members, receiver_members, receiver_of_class};
ghost use Rattle.jd_row_makers.specs.Heads.{field_view, parameter_view, role_view};
ghost use Rattle.jd_row_makers.specs.Listed.{fields_listed, listed_member, listed_members};
ghost use Rattle.jd_row_makers.specs.Terms.{heap_at};
ghost use Rattle.jd_row_makers.specs.declared.terms.Moment.TheVariants as moments;
ghost use Rattle.jd_term.specs.Formulas.{WellFormed, formula_view};
ghost use Rattle.jd_term.specs.Makers.{GivesFormula};

use crate::adding::{add, add_invariant, add_typed};
use crate::forms::{created, default_of, equal, exact, well_formed};
use crate::heads::{FieldSort, Parameter, Role};
use crate::terms::{Moment, Subject, heap, receiver};
use jd_base::{ClassId, NoMemory};
use jd_syntax::Kind;
use jd_term::{Formula, Term, select};
use std::alloc::Global;

// Adds that the receiver is a created object of exactly the class.
fn add_receiver_of(alloc: Global, to: &mut Vec<Formula>, class: ClassId) -> Result<(), NoMemory>
    ensures { OnOk result (map formula_view to.new.items ≡ map formula_view to.old.items ++ receiver_of_class class.0) }
{
    add(to, exact(Kind::Class(class), receiver(alloc)))?;
    add(
        to,
        created(alloc, heap(alloc, Moment::Entry), receiver(alloc)),
    )?;
    Ok(())
}

// Adds what is known of the receiver.
fn add_receiver(
    alloc: Global,
    to: &mut Vec<Formula>,
    role: Role,
    class: ClassId,
) -> Result<(), NoMemory>
    ensures { OnOk result (map formula_view to.new.items ≡ map formula_view to.old.items ++ receiver_members (role_view role) class.0) }
{
    match role {
        Role::Static => Ok(()),
        Role::Ordinary => add_receiver_of(alloc, to, class),
        Role::Helper => add_receiver_of(alloc, to, class),
        Role::Constructor(_) => add_receiver_of(alloc, to, class),
    }
}

// Adds what is known of the parameters.
fn add_parameters(
    alloc: Global,
    to: &mut Vec<Formula>,
    parameters: &[Parameter],
) -> Result<(), NoMemory>
    ensures { OnOk result (map formula_view to.new.items ≡ map formula_view to.old.items ++ parameter_members (map parameter_view parameters.now)) }
{
    for p in parameters {
        add_typed(
            alloc,
            to,
            Moment::Entry,
            p.declared,
            Subject::Parameter(&p.constant),
        )?;
    }
    Ok(())
}

/// What is known before the clauses.
pub(crate) fn before_requires(
    alloc: Global,
    role: Role,
    class: ClassId,
    parameters: &[Parameter],
) -> Result<Vec<Formula>, NoMemory>
    ensures { IfOk result (λ v. map formula_view v.items ≡ (WellFormed (heap_at moments.Entry) ∷ receiver_members (role_view role) class.0) ++ parameter_members (map parameter_view parameters.now)) }
{
    let mut members = Vec::new(alloc);
    add(&mut members, well_formed(heap(alloc, Moment::Entry)))?;
    add_receiver(alloc, &mut members, role, class)?;
    add_parameters(alloc, &mut members, parameters)?;
    Ok(members)
}

// That the field is as no one has written it.
fn is_default(alloc: Global, f: FieldSort) -> Result<Formula, NoMemory>
    ensures { GivesFormula result (listed_member (field_view f)) }
{
    equal(
        select(
            alloc,
            f.sort,
            heap(alloc, Moment::Entry),
            receiver(alloc),
            Ok(Term::NamedField(f.field)),
        ),
        Ok(default_of(f.sort)),
    )
}

// Adds that the fields are as no one has written them.
fn add_defaults(alloc: Global, to: &mut Vec<Formula>, fields: &[FieldSort]) -> Result<(), NoMemory>
    ensures { OnOk result (map formula_view to.new.items ≡ map formula_view to.old.items ++ listed_members (map field_view fields.now)) }
{
    for f in fields {
        add(to, is_default(alloc, *f))?;
    }
    Ok(())
}

// Adds what a constructor finds.
fn add_fields(
    alloc: Global,
    to: &mut Vec<Formula>,
    role: Role,
    fields: &[FieldSort],
) -> Result<(), NoMemory>
    ensures { OnOk result (map formula_view to.new.items ≡ map formula_view to.old.items ++ fields_listed (role_view role) (map field_view fields.now)) }
{
    match role {
        Role::Static => Ok(()),
        Role::Ordinary => Ok(()),
        Role::Helper => Ok(()),
        Role::Constructor(_) => add_defaults(alloc, to, fields),
    }
}

/// What is known beside the clauses.
pub(crate) fn behind_requires(
    alloc: Global,
    role: Role,
    fields: &[FieldSort],
) -> Result<Vec<Formula>, NoMemory>
    ensures { IfOk result (λ v. map formula_view v.items ≡ invariant_members (role_view role) (heap_at moments.Entry) ++ fields_listed (role_view role) (map field_view fields.now)) }
{
    let mut members = Vec::new(alloc);
    add_invariant(alloc, &mut members, role, Moment::Entry)?;
    add_fields(alloc, &mut members, role, fields)?;
    Ok(members)
}
