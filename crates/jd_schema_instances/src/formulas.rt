//! Instances of patterns of formulas.

ghost use Rattle.std.specs.Prelude.{◌∷◌, [], IfOk, option_map};
ghost use Rattle.jd_code_makers.specs.Makers.{GivesCode};
ghost use Rattle.jd_model.specs.Contexts.{fill};
ghost use Rattle.jd_patterns.specs.Chosen.{as_context, as_formula};
ghost use Rattle.jd_patterns.specs.Instances.{of_code, of_formula, of_name, of_term};
ghost use Rattle.jd_schema_instances.specs.Choosing.{instance_by, program_by};
ghost use Rattle.jd_schema_instances.specs.Fitting.{FormulaPutFits, HasFormulaInstance, HasTermInstance, IsAtom};
ghost use Rattle.jd_schema_matching.specs.PartViews.{part_view};
ghost use Rattle.jd_schema_trees.specs.CodeViews.{code_pattern};
ghost use Rattle.jd_schema_trees.specs.FormulaViews.{formula_pattern};
ghost use Rattle.jd_schema_trees.specs.HeadViews.{name_pattern};
ghost use Rattle.jd_schema_trees.specs.TermViews.{term_pattern};
ghost use Rattle.jd_syntax.specs.Codes.{PlainCode};
ghost use Rattle.jd_term.specs.Makers.{GivesBoxedFormula, GivesFormula, GivesTerm, GivesUpdate};
ghost use Rattle.jd_term.specs.Shifts.{ShiftFits, formula_shift};
ghost use Rattle.jd_term.specs.Substitutions.{formula_subst};
ghost use Rattle.jd_term.specs.Terms.{PlainTerm};
ghost use Rattle.jd_term.specs.TermViews.{term_view};

use crate::bound::{PartKind, bound_to};
use crate::choice::Chosen;
use crate::filling::filled;
use crate::heads::{instance_kind, instance_modality, instance_name, instance_sort};
use crate::parts::{as_context, as_formula, as_modality};
use crate::shapes::{
    boxed, classed, conjunction, disjunction, equation, equivalence, implication, invariant, less,
    less_or_equal, negated, one_update, quantified, tested,
};
use crate::statements::instance_code;
use crate::terms::{instance_loc, instance_term};
use jd_base::NoMemory;
use jd_schema_matching::PartRef;
use jd_schema_trees::{SCode, SFormula, SName, STerm};
use jd_syntax::Code;
use jd_term::{Formula, Term, Update, in_locations, modal, shift, subst, updated};
use std::alloc::Global;

// The formula below one more binder.
fn lifted(alloc: Global, x: Option<PartRef<'_>>) -> Result<Formula, NoMemory>
    requires { ShiftFits 0 1 (as_formula (option_map part_view x)) }
    ensures { GivesFormula result (formula_shift 0 1 (as_formula (option_map part_view x.entry))) }
{
    match x {
        Some(PartRef::Formula(f)) => shift(alloc, f, 0, 1),
        _ => Ok(Formula::TrueFormula),
    }
}

// The formula with a term for the index 0.
fn put_in(alloc: Global, t: &Term, x: Option<PartRef<'_>>) -> Result<Formula, NoMemory>
    requires { FormulaPutFits (term_view t.now) (as_formula (option_map part_view x)) }
    ensures { GivesFormula result (formula_subst 0 0 (term_view t.now) (as_formula (option_map part_view x.entry))) }
{
    match x {
        Some(PartRef::Formula(f)) => subst(alloc, f, 0, t),
        _ => Ok(Formula::TrueFormula),
    }
}

fn put(
    alloc: Global,
    t: Result<Term, NoMemory>,
    x: Option<PartRef<'_>>,
) -> Result<Formula, NoMemory>
    requires { IfOk t (λ u. FormulaPutFits (term_view u) (as_formula (option_map part_view x))) }
    ensures { (y : PlainTerm) → GivesTerm t y → GivesFormula result (formula_subst 0 0 y (as_formula (option_map part_view x.entry))) }
{
    let t = t?;
    put_in(alloc, &t, x)
}

// The code around a focus, with this code for the focus.
fn in_context(
    alloc: Global,
    x: Option<PartRef<'_>>,
    inner: Result<Code, NoMemory>,
) -> Result<Code, NoMemory>
    ensures { (y : PlainCode) → GivesCode inner y → GivesCode result (fill (as_context (option_map part_view x.entry)) y) }
{
    let around = as_context(x);
    filled(alloc, around.stmts, around.test, inner)
}

// The code around the focus that the variable stands for, with what the pattern means for the focus.
fn code_around(alloc: Global, k: &[u8], c: &SCode, by: &Chosen<'_, '_>) -> Result<Code, NoMemory>
    ensures { GivesCode result (fill ((instance_by by.now).context k.now) (of_code (program_by by.now) (instance_by by.now) (code_pattern c.now))) }
{
    in_context(
        alloc,
        bound_to(by, PartKind::Context, k),
        instance_code(alloc, c, by),
    )
}

// An update of one variable, as the patterns mean.
fn instance_update(
    alloc: Global,
    x: &SName,
    t: &STerm,
    by: &Chosen<'_, '_>,
) -> Result<Update, NoMemory>
    requires { HasTermInstance (program_by by.now) (instance_by by.now) (term_pattern t.now) }
    ensures { GivesUpdate result ((of_name (program_by by.now) (instance_by by.now) (name_pattern x.now), of_term (program_by by.now) (instance_by by.now) (term_pattern t.now)) ∷ []) }
{
    one_update(
        alloc,
        instance_name(alloc, x, by),
        instance_term(alloc, t, by),
    )
}

// A formula of terms, as the pattern means.
fn instance_atom(alloc: Global, p: &SFormula, by: &Chosen<'_, '_>) -> Result<Formula, NoMemory>
    requires form { IsAtom (formula_pattern p.now) }
    requires fits { HasFormulaInstance (program_by by.now) (instance_by by.now) (formula_pattern p.now) }
    ensures { GivesFormula result (of_formula (program_by by.now) (instance_by by.now) (formula_pattern p.now)) }
{
    match p {
        SFormula::Equal(t, u) => equation(instance_term(alloc, t, by), instance_term(alloc, u, by)),
        SFormula::Less(t, u) => less(instance_term(alloc, t, by), instance_term(alloc, u, by)),
        SFormula::LessOrEqual(t, u) => less_or_equal(
            instance_term(alloc, t, by),
            instance_term(alloc, u, by),
        ),
        SFormula::Invariant(t, u) => invariant(
            instance_term(alloc, t, by),
            instance_term(alloc, u, by),
        ),
        SFormula::InLocations(t, u, l) => in_locations(
            instance_term(alloc, t, by),
            instance_term(alloc, u, by),
            instance_loc(alloc, l, by),
        ),
        SFormula::InInt(t) | SFormula::WellFormed(t) => tested(p, instance_term(alloc, t, by)),
        SFormula::IsInstance(k, t) | SFormula::IsExactInstance(k, t) => classed(
            p,
            instance_kind(k, by),
            instance_term(alloc, t, by),
        ),
        _ => Ok(Formula::TrueFormula),
    }
}

#[cycle(instance_formula)]
fn boxed_instance(
    alloc: Global,
    p: &Box<SFormula>,
    by: &Chosen<'_, '_>,
) -> Result<Box<Formula>, NoMemory>
    requires { HasFormulaInstance (program_by by.now) (instance_by by.now) (formula_pattern p.now.value) }
    ensures { GivesBoxedFormula result (of_formula (program_by by.now) (instance_by by.now) (formula_pattern p.now.value)) }
{
    boxed(alloc, instance_formula(alloc, p, by))
}

/// The formula that the pattern means. The error is `NoMemory` alone.
#[cycle(instance_formula)]
pub fn instance_formula(
    alloc: Global,
    p: &SFormula,
    by: &Chosen<'_, '_>,
) -> Result<Formula, NoMemory>
    requires { HasFormulaInstance (program_by by.now) (instance_by by.now) (formula_pattern p.now) }
    ensures { GivesFormula result (of_formula (program_by by.now) (instance_by by.now) (formula_pattern p.now)) }
{
    match p {
        SFormula::Any(n) => as_formula(alloc, bound_to(by, PartKind::Formula, n)),
        SFormula::Put(n, t) => put(
            alloc,
            instance_term(alloc, t, by),
            bound_to(by, PartKind::Formula, n),
        ),
        SFormula::Lifted(n) => lifted(alloc, bound_to(by, PartKind::Formula, n)),
        SFormula::TrueFormula => Ok(Formula::TrueFormula),
        SFormula::FalseFormula => Ok(Formula::FalseFormula),
        SFormula::Not(a) => negated(boxed_instance(alloc, a, by)),
        SFormula::And(a, b) => conjunction(
            boxed_instance(alloc, a, by),
            boxed_instance(alloc, b, by),
        ),
        SFormula::Or(a, b) => disjunction(
            boxed_instance(alloc, a, by),
            boxed_instance(alloc, b, by),
        ),
        SFormula::Implies(a, b) => implication(
            boxed_instance(alloc, a, by),
            boxed_instance(alloc, b, by),
        ),
        SFormula::Iff(a, b) => equivalence(
            boxed_instance(alloc, a, by),
            boxed_instance(alloc, b, by),
        ),
        SFormula::Forall(s, a) | SFormula::Exists(s, a) => quantified(
            p,
            instance_sort(s, by),
            boxed_instance(alloc, a, by),
        ),
        SFormula::Updated(x, t, a) => updated(
            alloc,
            instance_update(alloc, x, t, by),
            instance_formula(alloc, a, by),
        ),
        SFormula::Focus(m, k, c, a) => modal(
            alloc,
            as_modality(bound_to(by, PartKind::Modality, m)),
            code_around(alloc, k, c, by),
            instance_formula(alloc, a, by),
        ),
        SFormula::Modal(m, c, a) => modal(
            alloc,
            instance_modality(m, by),
            instance_code(alloc, c, by),
            instance_formula(alloc, a, by),
        ),
        SFormula::Equal(_, _)
        | SFormula::Less(_, _)
        | SFormula::LessOrEqual(_, _)
        | SFormula::Invariant(_, _)
        | SFormula::InLocations(_, _, _)
        | SFormula::InInt(_)
        | SFormula::WellFormed(_)
        | SFormula::IsInstance(_, _)
        | SFormula::IsExactInstance(_, _) => instance_atom(alloc, p, by),
    }
}
