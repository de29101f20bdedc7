//! The formulas of clauses on what is thrown.

ghost use Rattle.std.specs.Prelude.{◌≡◌, ◌++◌, ◌∷◌, [], ℕ, IfErr, IfOk, OnOk, flat_map, map, option_map};
ghost use Rattle.jd_case_clauses.specs.Said.{TellsOfOne};
ghost use Rattle.jd_case_clauses.specs.Signals.{only_in, signalled_in};
ghost use Rattle.jd_case_rows.specs.Rows.{instance_of_thrown, only_member};
ghost use Rattle.jd_jml_formulas.specs.Limits.{Tells};
ghost use Rattle.jd_jml_formulas.specs.Meant.{formula_meant};
ghost use Rattle.jd_jml_formulas.specs.Spellings.{spelling_view};
ghost use Rattle.jd_jml_known.specs.Members.{FieldsHaveSorts};
ghost use Rattle.jd_jml_known.specs.Scopes.{known_of};
ghost use Rattle.jd_jml_meaning.specs.Meaning.{Now};
ghost use Rattle.jd_model.specs.Programs.{Program};
ghost use Rattle.jd_row_makers.specs.Heads.{class_number};
ghost use Rattle.jd_specifications.specs.WrittenCases as plain;
ghost use Rattle.jd_specifications.specs.WrittenCases.{with_exception};
ghost use Rattle.jd_syntax.specs.JavaTypes.{identifier_view};
ghost use Rattle.jd_syntax.specs.SpecTrees.{clause_view, spec_view};
ghost use Rattle.jd_term.specs.Formulas.{Implies, PlainFormula, formula_view};
ghost use Rattle.jd_term.specs.FormulaSizes.{formula_size};

use crate::said::add;
use jd_base::{ClassId, NoMemory};
use jd_jml_formulas::{Making, Unmade, When, formula};
use jd_jml_known::{KnownNames, caught};
use jd_lists::put;
use jd_naming::Declares;
use jd_row_makers::{one_of_classes, signalled};
use jd_syntax::{ClauseForm, Identifier, SpecClause, SpecExpr};
use jd_term::Formula;
use std::alloc::Global;

/// How many levels a formula of an obligation has at most.
const LEVEL_LIMIT: usize = 1000;

// The class of the name; what is no class's is no clause's.
fn class_of<D: Declares>(d: &D, x: &Identifier) -> ClassId
    ensures { result.0 ≡ plain.class_of (D.declarations d.now) (identifier_view x.now) }
{
    match d.class_named(&x.name) {
        None => ClassId(0),
        Some(c) => ClassId(c),
    }
}

// ---- `signals`

// That the formula holds where what was thrown is of the class.
fn implied(alloc: Global, class: ClassId, f: Result<Formula, Unmade>) -> Result<Formula, Unmade>
    ensures made { (x : PlainFormula) → IfOk f (λ g. formula_view g ≡ x) → IfOk result (λ g. formula_view g ≡ Implies (instance_of_thrown class.0) x) }
    ensures why { (limit : ℕ) (x : PlainFormula) → IfErr f (Tells limit (formula_size x)) → IfErr result (TellsOfOne limit (Implies (instance_of_thrown class.0) x ∷ [])) }
{
    let f = f?;
    match signalled(alloc, class, Ok(f)) {
        Ok(g) => Ok(g),
        Err(NoMemory) => Err(Unmade::NoMemory),
    }
}

// The formula of a clause `signals`.
fn signal<D: Declares>(
    m: &Making<'_, D>,
    names: &KnownNames,
    class: &Identifier,
    x: &Option<Identifier>,
    e: &SpecExpr,
) -> Result<Formula, Unmade>
    ensures made { (p : Program) → FieldsHaveSorts (D.declarations m.now.sight.declared.now) p
        → IfOk result (λ g. formula_view g ≡ Implies (instance_of_thrown (plain.class_of (D.declarations m.now.sight.declared.now) (identifier_view class.now))) (formula_meant p (D.declarations m.now.sight.declared.now) m.now.sight.class m.now.sight.result (spelling_view m.now.spelled.now) Now (with_exception (D.declarations m.now.sight.declared.now) (option_map identifier_view x.now) (plain.class_of (D.declarations m.now.sight.declared.now) (identifier_view class.now)) (known_of names.now)) (spec_view e.now))) }
    ensures why { (p : Program) → FieldsHaveSorts (D.declarations m.now.sight.declared.now) p
        → IfErr result (TellsOfOne m.now.limit (Implies (instance_of_thrown (plain.class_of (D.declarations m.now.sight.declared.now) (identifier_view class.now))) (formula_meant p (D.declarations m.now.sight.declared.now) m.now.sight.class m.now.sight.result (spelling_view m.now.spelled.now) Now (with_exception (D.declarations m.now.sight.declared.now) (option_map identifier_view x.now) (plain.class_of (D.declarations m.now.sight.declared.now) (identifier_view class.now)) (known_of names.now)) (spec_view e.now)) ∷ [])) }
{
    let class = class_of(m.sight.declared, class);
    let scope = caught(m.sight.declared, names, x.as_ref(), class.0);
    implied(m.alloc, class, formula(m, When::Now, e, &scope))
}

// Adds the formula of a clause, if it is `signals`.
fn add_signal<D: Declares>(
    m: &Making<'_, D>,
    names: &KnownNames,
    to: &mut Vec<Formula>,
    c: &SpecClause,
) -> Result<(), Unmade>
    ensures made { (p : Program) → FieldsHaveSorts (D.declarations m.now.sight.declared.now) p
        → OnOk result (map formula_view to.new.items ≡ map formula_view to.old.items ++ signalled_in p (D.declarations m.now.sight.declared.now) m.now.sight.class m.now.sight.result (spelling_view m.now.spelled.now) (known_of names.now) (clause_view c.now)) }
    ensures why { (p : Program) → FieldsHaveSorts (D.declarations m.now.sight.declared.now) p
        → IfErr result (TellsOfOne m.now.limit (signalled_in p (D.declarations m.now.sight.declared.now) m.now.sight.class m.now.sight.result (spelling_view m.now.spelled.now) (known_of names.now) (clause_view c.now))) }
{
    match &c.form {
        ClauseForm::Signals(class, x, e) => add(to, signal(m, names, class, x, e)),
        _ => Ok(()),
    }
}

/// The formulas of the clauses `signals`, in their order, where no token is refused (JML Reference Manual, 9.9.4).
///
/// # Errors
///
/// `TooLarge` where one of them has more nodes than it may; else `NoMemory`.
pub fn signals<D: Declares>(
    m: &Making<'_, D>,
    names: &KnownNames,
    cs: &[SpecClause],
) -> Result<Vec<Formula>, Unmade>
    ensures made { (p : Program) → FieldsHaveSorts (D.declarations m.now.sight.declared.now) p
        → IfOk result (λ v. map formula_view v.items ≡ flat_map (signalled_in p (D.declarations m.now.sight.declared.now) m.now.sight.class m.now.sight.result (spelling_view m.now.spelled.now) (known_of names.now)) (map clause_view cs.now)) }
    ensures why { (p : Program) → FieldsHaveSorts (D.declarations m.now.sight.declared.now) p
        → IfErr result (TellsOfOne m.now.limit (flat_map (signalled_in p (D.declarations m.now.sight.declared.now) m.now.sight.class m.now.sight.result (spelling_view m.now.spelled.now) (known_of names.now)) (map clause_view cs.now))) }
{
    let mut made = Vec::new(m.alloc);
    for c in cs {
        add_signal(m, names, &mut made, c)?;
    }
    Ok(made)
}

// ---- `signals_only`

// The classes of the names.
fn classes_of<D: Declares>(
    alloc: Global,
    d: &D,
    xs: &[Identifier],
) -> Result<Vec<ClassId>, NoMemory>
    ensures { IfOk result (λ v. map class_number v.items ≡ map (plain.class_of (D.declarations d.now)) (map identifier_view xs.now)) }
{
    let mut classes = Vec::with_capacity(alloc, xs.len())?;
    for x in xs {
        put(&mut classes, class_of(d, x))?;
    }
    Ok(classes)
}

// That what was thrown is of one of the classes.
fn one_of<D: Declares>(alloc: Global, d: &D, xs: &[Identifier]) -> Result<Formula, NoMemory>
    ensures { IfOk result (λ g. formula_view g ≡ only_member (map (plain.class_of (D.declarations d.now)) (map identifier_view xs.now))) }
{
    let classes = classes_of(alloc, d, xs)?;
    one_of_classes(alloc, &classes)
}

// The same, where there are not so many of them that the formula would have too many levels.
fn only<D: Declares>(alloc: Global, d: &D, xs: &[Identifier]) -> Result<Formula, Unmade>
    ensures made { IfOk result (λ g. formula_view g ≡ only_member (map (plain.class_of (D.declarations d.now)) (map identifier_view xs.now))) }
    ensures why { (limit : ℕ) → IfErr result (TellsOfOne limit (only_member (map (plain.class_of (D.declarations d.now)) (map identifier_view xs.now)) ∷ [])) }
{
    if xs.len() > LEVEL_LIMIT {
        return Err(Unmade::TooLarge);
    }
    match one_of(alloc, d, xs) {
        Ok(f) => Ok(f),
        Err(NoMemory) => Err(Unmade::NoMemory),
    }
}

// Adds the formula of a clause, if it is `signals_only`.
fn add_only<D: Declares>(
    alloc: Global,
    d: &D,
    to: &mut Vec<Formula>,
    c: &SpecClause,
) -> Result<(), Unmade>
    ensures made { OnOk result (map formula_view to.new.items ≡ map formula_view to.old.items ++ only_in (D.declarations d.now) (clause_view c.now)) }
    ensures why { (limit : ℕ) → IfErr result (TellsOfOne limit (only_in (D.declarations d.now) (clause_view c.now))) }
{
    match &c.form {
        ClauseForm::SignalsOnly(xs) => add(to, only(alloc, d, xs)),
        _ => Ok(()),
    }
}

/// The formulas of the clauses `signals_only`, in their order, where no token is refused (JML Reference Manual, 9.9.5).
///
/// # Errors
///
/// `TooLarge` where one of them has more levels than it may; else `NoMemory`.
pub fn signals_only<D: Declares>(
    alloc: Global,
    d: &D,
    cs: &[SpecClause],
) -> Result<Vec<Formula>, Unmade>
    ensures made { IfOk result (λ v. map formula_view v.items ≡ flat_map (only_in (D.declarations d.now)) (map clause_view cs.now)) }
    ensures why { (limit : ℕ) → IfErr result (TellsOfOne limit (flat_map (only_in (D.declarations d.now)) (map clause_view cs.now))) }
{
    let mut made = Vec::new(alloc);
    for c in cs {
        add_only(alloc, d, &mut made, c)?;
    }
    Ok(made)
}
