ghost use Rattle.std.specs.Prelude.{◌≡◌, ◌↔◌, IsTrue, All, MatchResult, map};
ghost use Rattle.jd_model.specs.Sequents.{place_view, sequent_view};
ghost use Rattle.jd_sequent.specs.Steps.{step_view};
ghost use Rattle.jd_sequent.specs.Rules.{IsCaused};
ghost use Rattle.jd_sequent.specs.Limits.{IsWithinLimits};
ghost use Rattle.jd_first_steps.specs.Names.{rule_name};
ghost use Rattle.jd_first_steps.specs.Instances.{IsInstance};
ghost use Rattle.jd_update_truth.specs.SortedFormulas.{SortedSequent};
ghost use Rattle.jd_first_steps.proofs.Sound.{instances_are_sound};
ghost use Rattle.jd_first_steps.proofs.SortedSteps.{instances_keep_sorted};
ghost use Rattle.jd_first_rules.specs.Causes.{Cause};
ghost use Rattle.jd_first_rules.specs.NoCause.{no_cause};
ghost use Rattle.jd_first_rules.specs.Laws.{one_way, few};
ghost use Rattle.jd_first_rules.specs.Results.{IsTaken};

use crate::made::{Made, made_of, premises_of};
use crate::names::named;
use crate::step::{assumes_rightly, formula_at};
use jd_first_steps::FirstRule;
use jd_model::{Place, Sequent};
use jd_sequent::{Bad, RuleSet, Step, Task, is_within_limits};
use std::alloc::Global;

/// The twelve rules as one set. It takes the sequents whose updates and assignments have right sides
/// of their variables' sorts: in others `simplify` would not be sound.
#[derive(Clone, Copy)]
pub struct FirstRules;

// What the rule makes of the formula at the step's place, and that place.
fn made_at<'a>(
    alloc: Global,
    rule: FirstRule,
    sequent: &Sequent,
    step: &'a Step,
) -> Result<(&'a Place, Made), Bad>
    requires { (step_view step.now).rule ≡ rule_name rule }
    ensures { MatchResult result
        (λ m. IsTaken rule (sequent_view sequent.now) (step_view step.now) (place_view m.0.now) m.1)
        (λ bad. IsCaused (Cause (sequent_view sequent.now) (step_view step.now)) bad) }
{
    let (place, formula) = match formula_at(rule, sequent, step) {
        Err(bad) => return Err(bad),
        Ok(found) => found,
    };
    let Some(made) = made_of(alloc, rule, place.side, formula)? else {
        return Err(Bad::NoMatch)
    };
    if !step.insts.is_empty() {
        return Err(Bad::BadInst);
    }
    if !assumes_rightly(rule, sequent, &step.assumes, formula) {
        return Err(Bad::NoAssume);
    }
    Ok((place, made))
}

// The premises of a step of the rule, also where one of them passes a limit.
fn applied(
    alloc: Global,
    rule: FirstRule,
    sequent: Sequent,
    step: &Step,
) -> Result<Vec<Sequent>, Bad>
    requires { (step_view step.now).rule ≡ rule_name rule }
    ensures { MatchResult result
        (λ premises. IsInstance (sequent_view sequent) (step_view step.now) (map sequent_view premises.items))
        (λ bad. IsCaused (Cause (sequent_view sequent) (step_view step.now)) bad) }
{
    let (place, made) = match made_at(alloc, rule, &sequent, step) {
        Err(bad) => return Err(bad),
        Ok(found) => found,
    };
    let premises = premises_of(alloc, sequent, place, made)?;
    Ok(premises)
}

// Whether all premises are within the limits.
fn are_within(premises: &[Sequent]) -> bool
    ensures { IsTrue result ↔ All IsWithinLimits (map sequent_view premises.now) }
{
    for premise in premises {
        if !is_within_limits(premise) {
            return false;
        }
    }
    true
}

impl RuleSet for FirstRules {
    ghost accepts = { λ r t s. SortedSequent s };

    ghost instance = { λ r t s p ps. IsInstance s p ps };

    ghost cause = { λ r t s p n. Cause s p n };

    fn apply(
        &self,
        alloc: Global,
        task: &Task<'_>,
        sequent: &Sequent,
        step: &Step,
    ) -> Result<Vec<Sequent>, Bad> {
        let sequent = sequent.copy(alloc)?;
        self.apply_to(alloc, task, sequent, step)
    }

    fn apply_to(
        &self,
        alloc: Global,
        _task: &Task<'_>,
        sequent: Sequent,
        step: &Step,
    ) -> Result<Vec<Sequent>, Bad> {
        let Some(rule) = named(&step.rule) else {
            return Err(Bad::UnknownRule)
        };
        let premises = match applied(alloc, rule, sequent, step) {
            Err(bad) => return Err(bad),
            Ok(premises) => premises,
        };
        if !are_within(&premises) {
            return Err(Bad::TooLarge);
        }
        Ok(premises)
    }

    ghost sound = { λ r t s p ps a i. instances_are_sound t s p ps a i };

    ghost keeps = { λ r t s p ps a l. instances_keep_sorted s p ps a l.0 };

    ghost has_no_cause = { λ r t s p ps n l c. no_cause s p ps n l c };

    ghost one_way = { λ r t s p ps qs a b. one_way s p ps qs a b };

    ghost few = { λ r t s p ps a. few s p ps a };
}
