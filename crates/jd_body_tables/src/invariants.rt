//! The rows of invariants.

ghost use Rattle.std.specs.Prelude.{◌≡◌, ◌++◌, ◌∷◌, [], ℕ, IfErr, IfOk, List, OnOk, map};
ghost use Rattle.jd_bodies.specs.declared.value.ValueType.TheVariants.{Missing};
ghost use Rattle.jd_body_tables.specs.Invariants.{TellsOfInvariants, formulas_meant, invariant_meant, row_meant, rows_from};
ghost use Rattle.jd_case_clauses.specs.Said.{TellsOfOne};
ghost use Rattle.jd_jclasses.specs.Refusals.{AreClasses};
ghost use Rattle.jd_jml_formulas.specs.Limits.{Tells};
ghost use Rattle.jd_jml_formulas.specs.Spellings.{spelling_view};
ghost use Rattle.jd_jml_known.specs.Members.{FieldsHaveSorts};
ghost use Rattle.jd_jml_meaning.specs.InvariantFormulas.{invariant_spelling};
ghost use Rattle.jd_jml_meaning.specs.JmlCases.{JmlProgram};
ghost use Rattle.jd_jmlcheck.specs.Specified.{specs_of};
ghost use Rattle.jd_jmlcheck.specs.Views.{invariants_view, specs_view};
ghost use Rattle.jd_listed_tables.specs.Listed as listed;
ghost use Rattle.jd_model.specs.ContractForms.{PlainInvariant, invariant_view};
ghost use Rattle.jd_model.specs.Programs.{Program};
ghost use Rattle.jd_programs.specs.Programs.{IsProgram};
ghost use Rattle.jd_syntax.specs.JavaTrees.{JavaUnit};
ghost use Rattle.jd_syntax.specs.SpecTrees.{spec_view};
ghost use Rattle.jd_term.specs.Formulas.{PlainFormula, formula_view};
ghost use Rattle.jd_term.specs.FormulaSizes.{formula_size};

use jd_base::{ClassId, NoMemory, both};
use jd_bodies::ValueType;
use jd_field_sorts::fields_have_sorts;
use jd_invariant_laws::invariants_are_resolved;
use jd_jml_formulas::{Making, Spelled, Unmade, When, formula};
use jd_jml_known::{Sight, no_names};
use jd_jmlcheck::Specs;
use jd_lists::put;
use jd_model::InvForm;
use jd_naming::Declares;
use jd_row_makers::{Moment, heap, receiver};
use jd_syntax::SpecExpr;
use jd_term::{Formula, Term};
use std::alloc::Global;

// The terms of what invariants speak of: `@heap` at each time, and `#r_this`.
fn invariant_terms(alloc: Global) -> Result<Spelled, NoMemory>
    ensures { IfOk result (λ s. spelling_view s ≡ invariant_spelling) }
{
    let (this, (now, before)) = both(
        receiver(alloc),
        both(heap(alloc, Moment::End), heap(alloc, Moment::End)),
    )?;
    Ok(Spelled {
        now,
        before,
        arguments: Vec::new(alloc),
        arguments_before: Vec::new(alloc),
        this,
        value: Term::Number(0),
        thrown: Term::NullTerm,
    })
}

// Puts a formula that has been made behind others.
fn add(to: &mut Vec<Formula>, f: Result<Formula, Unmade>) -> Result<(), Unmade>
    ensures made { (x : PlainFormula) → IfOk f (λ g. formula_view g ≡ x) → OnOk result (map formula_view to.new.items ≡ map formula_view to.old.items ++ x ∷ []) }
    ensures why { (limit : ℕ) (x : PlainFormula) → IfErr f (Tells limit (formula_size x)) → IfErr result (TellsOfOne limit (x ∷ [])) }
{
    let f = f?;
    match put(to, f) {
        Ok(()) => Ok(()),
        Err(NoMemory) => Err(Unmade::NoMemory),
    }
}

// The formula of an invariant.
fn made<D: Declares>(m: &Making<'_, D>, e: &SpecExpr) -> Result<Formula, Unmade>
    requires result { m.now.sight.result ≡ Missing }
    requires terms { spelling_view m.now.spelled.now ≡ invariant_spelling }
    ensures made { (p : Program) → FieldsHaveSorts (D.declarations m.now.sight.declared.now) p
        → IfOk result (λ f. formula_view f ≡ invariant_meant p (D.declarations m.now.sight.declared.now) m.now.sight.class (spec_view e.now)) }
    ensures why { (p : Program) → FieldsHaveSorts (D.declarations m.now.sight.declared.now) p
        → IfErr result (Tells m.now.limit (formula_size (invariant_meant p (D.declarations m.now.sight.declared.now) m.now.sight.class (spec_view e.now)))) }
{
    let scope = no_names();
    formula(m, When::Now, e, &scope)
}

// The formulas of the invariants of a class.
fn formulas<D: Declares>(m: &Making<'_, D>, es: &[SpecExpr]) -> Result<Vec<Formula>, Unmade>
    requires result { m.now.sight.result ≡ Missing }
    requires terms { spelling_view m.now.spelled.now ≡ invariant_spelling }
    ensures made { (p : Program) → FieldsHaveSorts (D.declarations m.now.sight.declared.now) p
        → IfOk result (λ v. map formula_view v.items ≡ formulas_meant p (D.declarations m.now.sight.declared.now) m.now.sight.class (map spec_view es.now)) }
    ensures why { (p : Program) → FieldsHaveSorts (D.declarations m.now.sight.declared.now) p
        → IfErr result (TellsOfOne m.now.limit (formulas_meant p (D.declarations m.now.sight.declared.now) m.now.sight.class (map spec_view es.now))) }
{
    let mut all = Vec::new(m.alloc);
    for e in es {
        add(&mut all, made(m, e))?;
    }
    Ok(all)
}

// The class of the number; memory holds not so many that a number would not do.
fn id_of(number: usize) -> Result<ClassId, Unmade>
    ensures made { IfOk result (λ c. c.0 ≡ number) }
    ensures why { (limit : ℕ) (xs : List PlainFormula) → IfErr result (TellsOfOne limit xs) }
{
    match u32::try_from(number) {
        Ok(number) => Ok(ClassId(number)),
        Err(_) => Err(Unmade::NoMemory),
    }
}

// What the rows of all classes are made with.
#[derive(Clone, Copy)]
struct Common<'a, D> {
    alloc: Global,
    declared: &'a D,
    spelled: &'a Spelled,
    limit: u32,
}

// The row of a class.
fn row<D: Declares>(w: &Common<'_, D>, number: usize, es: &[SpecExpr]) -> Result<InvForm, Unmade>
    requires { spelling_view w.now.spelled.now ≡ invariant_spelling }
    ensures made { (p : Program) → FieldsHaveSorts (D.declarations w.now.declared.now) p
        → IfOk result (λ r. invariant_view r ≡ row_meant p (D.declarations w.now.declared.now) number (map spec_view es.now)) }
    ensures why { (p : Program) → FieldsHaveSorts (D.declarations w.now.declared.now) p
        → IfErr result (TellsOfOne w.now.limit (formulas_meant p (D.declarations w.now.declared.now) number (map spec_view es.now))) }
{
    let class = id_of(number)?;
    let m = Making {
        alloc: w.alloc,
        sight: Sight {
            declared: w.declared,
            class: class.0,
            result: ValueType::Missing,
        },
        spelled: w.spelled,
        limit: w.limit,
    };
    let formulas = formulas(&m, es)?;
    Ok(InvForm { class, formulas })
}

// Puts a row that has been made behind others.
fn add_row(to: &mut Vec<InvForm>, row: Result<InvForm, Unmade>) -> Result<(), Unmade>
    ensures made { (x : PlainInvariant) → IfOk row (λ r. invariant_view r ≡ x) → OnOk result (map invariant_view to.new.items ≡ map invariant_view to.old.items ++ x ∷ []) }
    ensures why { (limit : ℕ) (xs : List PlainFormula) → IfErr row (TellsOfOne limit xs) → IfErr result (TellsOfOne limit xs) }
{
    let row = row?;
    match put(to, row) {
        Ok(()) => Ok(()),
        Err(NoMemory) => Err(Unmade::NoMemory),
    }
}

// The rows of classes by their numbers.
fn rows<D: Declares>(w: &Common<'_, D>, all: &[Vec<SpecExpr>]) -> Result<Vec<InvForm>, Unmade>
    requires { spelling_view w.now.spelled.now ≡ invariant_spelling }
    ensures made { (p : Program) → FieldsHaveSorts (D.declarations w.now.declared.now) p
        → IfOk result (λ v. map invariant_view v.items ≡ rows_from p (D.declarations w.now.declared.now) 0 (map invariants_view all.now)) }
    ensures why { (p : Program) → FieldsHaveSorts (D.declarations w.now.declared.now) p
        → IfErr result (TellsOfInvariants w.now.limit (rows_from p (D.declarations w.now.declared.now) 0 (map invariants_view all.now))) }
{
    let mut made = Vec::new(w.alloc);
    for number in 0..all.len() {
        add_row(&mut made, row(w, number, &all[number]))?;
    }
    Ok(made)
}

// The rows of all classes.
fn all_rows<D: Declares>(
    alloc: Global,
    d: &D,
    specs: &Specs,
    limit: u32,
) -> Result<Vec<InvForm>, Unmade>
    ensures made { (p : Program) → FieldsHaveSorts (D.declarations d.now) p
        → IfOk result (λ v. map invariant_view v.items ≡ rows_from p (D.declarations d.now) 0 (specs_view specs.now).classes) }
    ensures why { (p : Program) → FieldsHaveSorts (D.declarations d.now) p
        → IfErr result (TellsOfInvariants limit (rows_from p (D.declarations d.now) 0 (specs_view specs.now).classes)) }
{
    match invariant_terms(alloc) {
        Err(NoMemory) => Err(Unmade::NoMemory),
        Ok(spelled) => rows(
            &Common {
                alloc,
                declared: d,
                spelled: &spelled,
                limit,
            },
            &specs.classes,
        ),
    }
}

/// The rows of the invariants that the classes of a program declare themselves, by the classes' numbers, where no token is refused (JML
/// Reference Manual, 8.2). Time and memory grow with the trees and the limit.
///
/// # Errors
///
/// `TooLarge` where one of the formulas has more nodes than `limit`, or more levels than an obligation's may have; else `NoMemory`.
pub fn invariant_rows<D: Declares>(
    alloc: Global,
    d: &D,
    specs: &Specs,
    limit: u32,
) -> Result<Vec<InvForm>, Unmade>
    ensures made { (units : List JavaUnit) (j : JmlProgram) (is : IsProgram units j) → AreClasses units → specs_view specs.now ≡ specs_of units → is.declarations ≡ D.declarations d.now
        → IfOk result (λ v. map invariant_view v.items ≡ listed.invariant_rows units is.declarations j.program j.own) }
    ensures why { (units : List JavaUnit) (j : JmlProgram) (is : IsProgram units j) → AreClasses units → specs_view specs.now ≡ specs_of units → is.declarations ≡ D.declarations d.now
        → IfErr result (TellsOfInvariants limit (listed.invariant_rows units is.declarations j.program j.own)) }
{
    fields_have_sorts();
    invariants_are_resolved();
    all_rows(alloc, d, specs, limit)
}
