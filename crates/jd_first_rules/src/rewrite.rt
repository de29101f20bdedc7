ghost use Rattle.std.specs.Prelude.{◌≡◌, IfOk, option_map};
ghost use Rattle.jd_term.specs.TermViews.{term_view};
ghost use Rattle.jd_term.specs.Formulas.{formula_view};
ghost use Rattle.jd_first_rules.specs.Focus.{executed, emptied, effected, equal_sides};
ghost use Rattle.jd_first_rules.specs.Effects.{effect_view};
ghost use Rattle.jd_first_rules.specs.Results.{IsRewriting};
ghost use Rattle.jd_first_steps.specs.declared.rules.FirstRule.TheVariants.{EqRefl as Reflexivity, Simplify as Simplification};

use crate::focus::{Effect, focused};
use jd_base::NoMemory;
use jd_first_steps::FirstRule;
use jd_term::{Formula, Modality, Term, Update};
use jd_update::{has_no_binder, simplify};
use std::alloc::Global;

// The sides of an equation.
fn sides(formula: &Formula) -> Option<(&Term, &Term)>
    ensures { option_map (λ p. (term_view p.0.now, term_view p.1.now)) result ≡ equal_sides (formula_view formula.now) }
{
    match formula {
        Formula::Equal(s, t) => Some((s, t)),
        _ => None,
    }
}

// An equation of a term with itself becomes `true`.
fn reflexive(before: &Formula) -> Option<Formula>
    ensures { IsRewriting Reflexivity (formula_view before.now) result }
{
    let Some((s, t)) = sides(before) else {
        return None
    };
    if s.equals(t) {
        return Some(Formula::TrueFormula);
    }
    None
}

// A modality by its effect.
fn made(
    alloc: Global,
    modality: Modality,
    effect: Effect,
    body: &Formula,
) -> Result<Formula, NoMemory>
    ensures { IfOk result (λ f. formula_view f ≡ effected modality (formula_view body.now) (effect_view effect)) }
{
    let body = Box::new(alloc, body.copy(alloc)?)?;
    let rest = Formula::Modal(modality, effect.code, body);
    match effect.update {
        None => Ok(rest),
        Some(pair) => {
            let mut pairs = Vec::new(alloc);
            pairs.push(pair)?;
            let rest = Box::new(alloc, rest)?;
            Ok(Formula::Updated(Update { pairs }, rest))
        }
    }
}

// A rule on code, at a modality.
fn execute(alloc: Global, rule: FirstRule, before: &Formula) -> Result<Option<Formula>, NoMemory>
    ensures { IfOk result (λ o. option_map formula_view o ≡ executed rule (formula_view before.now)) }
{
    match before {
        Formula::Modal(modality, code, body) => match focused(alloc, code, rule)? {
            None => Ok(None),
            Some(effect) => Ok(Some(made(alloc, *modality, effect, body)?)),
        },
        _ => Ok(None),
    }
}

// A modality over no statement becomes its formula.
fn empty(alloc: Global, before: &Formula) -> Result<Option<Formula>, NoMemory>
    ensures { IfOk result (λ o. option_map formula_view o ≡ emptied (formula_view before.now)) }
{
    match before {
        Formula::Modal(_, code, body) => match code.stmts.first() {
            None => Ok(Some(body.copy(alloc)?)),
            Some(_stmt) => Ok(None),
        },
        _ => Ok(None),
    }
}

// Updates pushed inward, where this changes the formula.
fn pushed(alloc: Global, before: &Formula) -> Result<Option<Formula>, NoMemory>
    ensures { IfOk result (λ o. IsRewriting Simplification (formula_view before.now) o) }
{
    if !has_no_binder(before) {
        return Ok(None);
    }
    let after = simplify(alloc, before)?;
    if after.equals(before) {
        return Ok(None);
    }
    Ok(Some(after))
}

/// The formula that a rule puts for another; `None` where the rule does not match.
pub fn rewritten(
    alloc: Global,
    rule: FirstRule,
    before: &Formula,
) -> Result<Option<Formula>, NoMemory>
    ensures { IfOk result (λ o. IsRewriting rule (formula_view before.now) o) }
{
    match rule {
        FirstRule::EqRefl => Ok(reflexive(before)),
        FirstRule::SetSimple => execute(alloc, FirstRule::SetSimple, before),
        FirstRule::FrameReturn => execute(alloc, FirstRule::FrameReturn, before),
        FirstRule::CatchEmpty => execute(alloc, FirstRule::CatchEmpty, before),
        FirstRule::EmptyCode => empty(alloc, before),
        FirstRule::Simplify => pushed(alloc, before),
        _ => Ok(None),
    }
}
