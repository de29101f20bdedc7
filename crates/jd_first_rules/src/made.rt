ghost use Rattle.std.specs.Prelude.{◌≡◌, ◌∷◌, [], IfOk, MatchOption, map};
ghost use Rattle.jd_term.specs.Formulas.{formula_view};
ghost use Rattle.jd_model.specs.Sequents.{sequent_view, place_view};
ghost use Rattle.jd_model.specs.Places.{IsFormulaPlace};
ghost use Rattle.jd_first_rules.specs.Steps.{kind_of};
ghost use Rattle.jd_first_rules.specs.Causes.{IsNotTaken};
ghost use Rattle.jd_first_rules.specs.Results.{IsMade, made_premises};

use crate::rewrite::rewritten;
use crate::rows::{Goal, goals_of, premises};
use crate::rules::Kind;
use crate::step::kind;
use jd_base::NoMemory;
use jd_first_steps::FirstRule;
use jd_model::{Place, Sequent, Side, put_at_place};
use jd_term::Formula;
use std::alloc::Global;

/// What a rule makes of the formula that it acts on.
#[derive(Drop)]
pub enum Made {
    /// A premise for each goal.
    Goals(Vec<Goal>),
    /// One premise, with another formula.
    Instead(Formula),
}

/// What the rule makes of a formula on a side; `None` where it does not match.
pub fn made_of(
    alloc: Global,
    rule: FirstRule,
    side: Side,
    formula: &Formula,
) -> Result<Option<Made>, NoMemory>
    ensures { IfOk result
        (λ o. MatchOption o (IsNotTaken (kind_of rule) rule side (formula_view formula.now)) (IsMade (kind_of rule) rule side (formula_view formula.now))) }
{
    match kind(rule) {
        Kind::Closing => Ok(Some(Made::Goals(Vec::new(alloc)))),
        Kind::Whole => match goals_of(alloc, rule, side, formula)? {
            None => Ok(None),
            Some(goals) => Ok(Some(Made::Goals(goals))),
        },
        Kind::Anywhere => match rewritten(alloc, rule, formula)? {
            None => Ok(None),
            Some(after) => Ok(Some(Made::Instead(after))),
        },
    }
}

// The one premise as a list.
fn single(alloc: Global, premise: Sequent) -> Result<Vec<Sequent>, NoMemory>
    ensures { IfOk result (λ v. map sequent_view v.items ≡ sequent_view premise ∷ []) }
{
    let mut out = Vec::new(alloc);
    out.push(premise)?;
    Ok(out)
}

/// The premises that come of what a rule made of the formula at a place.
pub fn premises_of(
    alloc: Global,
    sequent: Sequent,
    place: &Place,
    made: Made,
) -> Result<Vec<Sequent>, NoMemory>
    requires { IsFormulaPlace (sequent_view sequent) (place_view place.now) }
    ensures { IfOk result
        (λ v. map sequent_view v.items ≡ made_premises (sequent_view sequent) (place_view place.now) made) }
{
    match made {
        Made::Goals(goals) => premises(alloc, sequent, place.side, place.index, goals),
        Made::Instead(after) => {
            let premise = put_at_place(alloc, sequent, place, after)?;
            single(alloc, premise)
        }
    }
}
