//! What holds where a method has ended.

ghost use Rattle.std.specs.Prelude.{◌≡◌, ◌++◌, ◌∷◌, [], IfOk, OnOk, map, option_map};
ghost use Rattle.jd_case_rows.specs.Rows.{established_members, instance_of_thrown, invariant_members, one_of, only_member, result_members, unless_exceptional, unless_normal};
ghost use Rattle.jd_model.specs.Conjunctions.{created_at};
ghost use Rattle.jd_model.specs.SpecialNames.{thrown_variable};
ghost use Rattle.jd_model.specs.Programs.{type_sort};
ghost use Rattle.jd_row_makers.specs.Heads.{behaviour_view, class_number, declared_view, role_view, type_view};
ghost use Rattle.jd_row_makers.specs.Listed.{established};
ghost use Rattle.jd_row_makers.specs.Terms.{heap_at};
ghost use Rattle.jd_row_makers.specs.declared.terms.Moment.TheVariants as moments;
ghost use Rattle.jd_term.specs.Formulas.{FalseFormula, Implies, PlainFormula, formula_view};
ghost use Rattle.jd_term.specs.Makers.{GivesFormula};
ghost use Rattle.jd_term.specs.Terms.{ProgramVariable};

use crate::adding::{add, add_invariant, add_typed};
use crate::forms::{created, exact, implies, instance, invariant, or};
use crate::heads::{Behaviour, ContractType, DeclaredType, Role};
use crate::terms::{Moment, Subject, heap, receiver, thrown};
use jd_base::{ClassId, NoMemory, Sort};
use jd_syntax::Kind;
use jd_term::Formula;
use std::alloc::Global;

/// The sort of what has the type.
pub fn sort_of_type(t: ContractType) -> Sort
    ensures { result ≡ type_sort (type_view t) }
{
    match t {
        ContractType::Int => Sort::Int,
        ContractType::Boolean => Sort::Bool,
        ContractType::Reference(_) => Sort::Ref,
    }
}

// Adds what is known of the result.
fn add_result(
    alloc: Global,
    to: &mut Vec<Formula>,
    outcome: Option<DeclaredType>,
) -> Result<(), NoMemory>
    ensures { OnOk result (map formula_view to.new.items ≡ map formula_view to.old.items ++ result_members (option_map declared_view outcome)) }
{
    match outcome {
        None => Ok(()),
        Some(t) => add_typed(
            alloc,
            to,
            Moment::End,
            t,
            Subject::Result(sort_of_type(t.form)),
        ),
    }
}

/// What is known before what is ensured.
pub(crate) fn before_ensures(
    alloc: Global,
    outcome: Option<DeclaredType>,
) -> Result<Vec<Formula>, NoMemory>
    ensures { IfOk result (λ v. map formula_view v.items ≡ result_members (option_map declared_view outcome)) }
{
    let mut members = Vec::new(alloc);
    add_result(alloc, &mut members, outcome)?;
    Ok(members)
}

// That the object has its invariant where it is exactly of the constructor's class.
fn is_established(alloc: Global, class: ClassId) -> Result<Formula, NoMemory>
    ensures { GivesFormula result (established class.0) }
{
    implies(
        alloc,
        exact(Kind::Class(class), receiver(alloc)),
        invariant(heap(alloc, Moment::End), receiver(alloc)),
    )
}

// Adds what a constructor has established.
fn add_established(alloc: Global, to: &mut Vec<Formula>, role: Role) -> Result<(), NoMemory>
    ensures { OnOk result (map formula_view to.new.items ≡ map formula_view to.old.items ++ established_members (role_view role)) }
{
    match role {
        Role::Static => Ok(()),
        Role::Ordinary => Ok(()),
        Role::Helper => Ok(()),
        Role::Constructor(class) => add(to, is_established(alloc, class)),
    }
}

// Adds that there is no normal end, where only others are allowed.
fn add_unless_normal(to: &mut Vec<Formula>, behaviour: Behaviour) -> Result<(), NoMemory>
    ensures { OnOk result (map formula_view to.new.items ≡ map formula_view to.old.items ++ unless_normal (behaviour_view behaviour)) }
{
    match behaviour {
        Behaviour::AnyEnd => Ok(()),
        Behaviour::NormalOnly => Ok(()),
        Behaviour::ExceptionalOnly => add(to, Ok(Formula::FalseFormula)),
    }
}

// Adds that there is no exceptional end, where only others are allowed.
fn add_unless_exceptional(to: &mut Vec<Formula>, behaviour: Behaviour) -> Result<(), NoMemory>
    ensures { OnOk result (map formula_view to.new.items ≡ map formula_view to.old.items ++ unless_exceptional (behaviour_view behaviour)) }
{
    match behaviour {
        Behaviour::AnyEnd => Ok(()),
        Behaviour::NormalOnly => add(to, Ok(Formula::FalseFormula)),
        Behaviour::ExceptionalOnly => Ok(()),
    }
}

/// What is known behind what is ensured.
pub(crate) fn behind_ensures(
    alloc: Global,
    role: Role,
    behaviour: Behaviour,
) -> Result<Vec<Formula>, NoMemory>
    ensures { IfOk result (λ v. map formula_view v.items ≡ (established_members (role_view role) ++ unless_normal (behaviour_view behaviour)) ++ invariant_members (role_view role) (heap_at moments.End)) }
{
    let mut members = Vec::new(alloc);
    add_established(alloc, &mut members, role)?;
    add_unless_normal(&mut members, behaviour)?;
    add_invariant(alloc, &mut members, role, Moment::End)?;
    Ok(members)
}

// That what was thrown is of the class.
fn is_thrown(alloc: Global, class: ClassId) -> Result<Formula, NoMemory>
    ensures { GivesFormula result (instance_of_thrown class.0) }
{
    instance(Kind::Class(class), thrown(alloc))
}

/// What is known before the clauses on what was thrown.
pub(crate) fn before_signals(alloc: Global, throwable: ClassId) -> Result<Vec<Formula>, NoMemory>
    ensures { IfOk result (λ v. map formula_view v.items ≡ instance_of_thrown throwable.0 ∷ created_at (heap_at moments.End) (ProgramVariable thrown_variable) ∷ []) }
{
    let mut members = Vec::new(alloc);
    add(&mut members, is_thrown(alloc, throwable))?;
    add(
        &mut members,
        created(alloc, heap(alloc, Moment::End), thrown(alloc)),
    )?;
    Ok(members)
}

/// What is known behind them.
pub(crate) fn behind_signals(
    alloc: Global,
    role: Role,
    behaviour: Behaviour,
) -> Result<Vec<Formula>, NoMemory>
    ensures { IfOk result (λ v. map formula_view v.items ≡ unless_exceptional (behaviour_view behaviour) ++ invariant_members (role_view role) (heap_at moments.End)) }
{
    let mut members = Vec::new(alloc);
    add_unless_exceptional(&mut members, behaviour)?;
    add_invariant(alloc, &mut members, role, Moment::End)?;
    Ok(members)
}

/// A clause `signals`: where what was thrown is of the class, the formula holds (JML Reference Manual, 9.9.4).
pub fn signalled(
    alloc: Global,
    class: ClassId,
    formula: Result<Formula, NoMemory>,
) -> Result<Formula, NoMemory>
    ensures { (x : PlainFormula) → GivesFormula formula x → GivesFormula result (Implies (instance_of_thrown class.0) x) }
{
    implies(alloc, is_thrown(alloc, class), formula)
}

// That what was thrown is of one of the classes.
fn one_of(alloc: Global, class: ClassId, others: &[ClassId]) -> Result<Formula, NoMemory>
    ensures { GivesFormula result (one_of class.0 (map class_number others.now)) }
{
    match others.split_first() {
        None => is_thrown(alloc, class),
        Some((next, others)) => or(alloc, is_thrown(alloc, class), one_of(alloc, *next, others)),
    }
}

/// A clause `signals_only`: what was thrown is of one of the classes (JML Reference Manual, 9.9.5). The formula nests as deep as there are
/// classes, and so do the calls that make it.
pub fn one_of_classes(alloc: Global, classes: &[ClassId]) -> Result<Formula, NoMemory>
    ensures { GivesFormula result (only_member (map class_number classes.now)) }
{
    match classes.split_first() {
        None => Ok(Formula::FalseFormula),
        Some((class, others)) => one_of(alloc, *class, others),
    }
}
