//! Members that are put behind others.

ghost use Rattle.std.specs.Prelude.{◌≡◌, ◌++◌, ◌∷◌, [], OnOk, map};
ghost use Rattle.jd_case_rows.specs.Rows.{invariant_members, or_null, typed_members};
ghost use Rattle.jd_model.specs.Conjunctions.{created_at};
ghost use Rattle.jd_row_makers.specs.Heads.{declared_view, role_view};
ghost use Rattle.jd_row_makers.specs.Terms.{heap_at, subject_term};
ghost use Rattle.jd_syntax.specs.CodeViews.{kind_view};
ghost use Rattle.jd_term.specs.Formulas.{And, IsInstance, PlainFormula, formula_view};
ghost use Rattle.jd_term.specs.Makers.{GivesFormula};

use crate::forms::{and, created, equal, in_int, instance, invariant, or};
use crate::heads::{ContractType, DeclaredType, Role};
use crate::terms::{Moment, Subject, heap, receiver, term_of};
use jd_base::NoMemory;
use jd_lists::put;
use jd_syntax::Kind;
use jd_term::{Formula, Term};
use std::alloc::Global;

/// Puts a formula behind others.
pub fn add(to: &mut Vec<Formula>, f: Result<Formula, NoMemory>) -> Result<(), NoMemory>
    ensures { (x : PlainFormula) → GivesFormula f x → OnOk result (map formula_view to.new.items ≡ map formula_view to.old.items ++ x ∷ []) }
{
    put(to, f?)
}

// That a reference is null, where it may be, or a created instance.
fn is_reference(
    alloc: Global,
    at: Moment,
    kind: Kind,
    nullable: bool,
    s: Subject<'_>,
) -> Result<Formula, NoMemory>
    ensures { GivesFormula result (or_null nullable (subject_term s.entry) (And (IsInstance (kind_view kind) (subject_term s.entry)) (created_at (heap_at at) (subject_term s.entry)))) }
{
    let typed = and(
        alloc,
        instance(kind, term_of(alloc, s)),
        created(alloc, heap(alloc, at), term_of(alloc, s)),
    );
    if nullable {
        or(alloc, equal(term_of(alloc, s), Ok(Term::NullTerm)), typed)
    } else {
        typed
    }
}

/// Adds what a declared type says.
pub(crate) fn add_typed(
    alloc: Global,
    to: &mut Vec<Formula>,
    at: Moment,
    t: DeclaredType,
    s: Subject<'_>,
) -> Result<(), NoMemory>
    ensures { OnOk result (map formula_view to.new.items ≡ map formula_view to.old.items ++ typed_members (heap_at at) (declared_view t) (subject_term s.entry)) }
{
    match t.form {
        ContractType::Int => add(to, in_int(term_of(alloc, s))),
        ContractType::Boolean => Ok(()),
        ContractType::Reference(kind) => { add(to, is_reference(alloc, at, kind, t.nullable, s)) }
    }
}

/// Adds the receiver's invariant, where the method keeps it.
pub(crate) fn add_invariant(
    alloc: Global,
    to: &mut Vec<Formula>,
    role: Role,
    at: Moment,
) -> Result<(), NoMemory>
    ensures { OnOk result (map formula_view to.new.items ≡ map formula_view to.old.items ++ invariant_members (role_view role) (heap_at at)) }
{
    match role {
        Role::Static => Ok(()),
        Role::Ordinary => add(to, invariant(heap(alloc, at), receiver(alloc))),
        Role::Helper => Ok(()),
        Role::Constructor(_) => Ok(()),
    }
}
