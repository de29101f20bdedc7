ghost use Rattle.std.specs.Prelude.{◌≡◌, ◌↔◌, IsTrue, MatchResult, map, option_map};
ghost use Rattle.jd_term.specs.Formulas.{formula_view};
ghost use Rattle.jd_model.specs.Sequents.{sequent_view, place_view};
ghost use Rattle.jd_sequent.specs.Steps.{step_view};
ghost use Rattle.jd_sequent.specs.Rules.{IsCaused};
ghost use Rattle.jd_first_steps.specs.Names.{rule_name};
ghost use Rattle.jd_first_rules.specs.Steps.{kind_of};
ghost use Rattle.jd_first_rules.specs.Causes.{whole_side, IsOn, IsAssumed, Cause};
ghost use Rattle.jd_first_rules.specs.Results.{IsAt, AssumesRightly};

use crate::rules::Kind;
use jd_first_steps::FirstRule;
use jd_model::{Node, Place, Sequent, Side, at, formula_numbered, formulas_on};
use jd_sequent::{Bad, Step};
use jd_term::Formula;

/// What the rule acts on.
pub fn kind(rule: FirstRule) -> Kind
    ensures { result ≡ kind_of rule }
{
    match rule {
        FirstRule::Close => Kind::Closing,
        FirstRule::CloseTrue
        | FirstRule::NotLeft
        | FirstRule::AndLeft
        | FirstRule::AndRight
        | FirstRule::ImpRight => Kind::Whole,
        FirstRule::EqRefl
        | FirstRule::SetSimple
        | FirstRule::FrameReturn
        | FirstRule::CatchEmpty
        | FirstRule::EmptyCode
        | FirstRule::Simplify => Kind::Anywhere,
    }
}

// The side of the whole formula that the rule acts on; `None` where it acts at any place.
fn side_of(rule: FirstRule) -> Option<Side>
    ensures { result ≡ whole_side rule }
{
    match rule {
        FirstRule::NotLeft | FirstRule::AndLeft => Some(Side::Left),
        FirstRule::Close | FirstRule::CloseTrue | FirstRule::AndRight | FirstRule::ImpRight => {
            Some(Side::Right)
        }
        FirstRule::EqRefl
        | FirstRule::SetSimple
        | FirstRule::FrameReturn
        | FirstRule::CatchEmpty
        | FirstRule::EmptyCode
        | FirstRule::Simplify => None,
    }
}

// Whether the sides are the same.
fn is_side(a: Side, b: Side) -> bool
    ensures { IsTrue result ↔ (a ≡ b) }
{
    match (a, b) {
        (Side::Left, Side::Left) | (Side::Right, Side::Right) => true,
        _ => false,
    }
}

// Whether the place is that of a whole formula on the side, where one is given.
fn is_on(side: Option<Side>, place: &Place) -> bool
    ensures { IsTrue result ↔ IsOn side (place_view place.now) }
{
    match side {
        None => true,
        Some(side) => is_side(place.side, side) && place.path.is_empty(),
    }
}

/// The formula at the step's place, if there is one and the rule acts on such a place.
pub fn formula_at<'a, 'b>(
    rule: FirstRule,
    sequent: &'a Sequent,
    step: &'b Step,
) -> Result<(&'b Place, &'a Formula), Bad>
    requires { (step_view step.now).rule ≡ rule_name rule }
    ensures { MatchResult result
        (λ f. IsAt rule (sequent_view sequent.now) (step_view step.now) (place_view f.0.now) (formula_view f.1.now))
        (λ bad. IsCaused (Cause (sequent_view sequent.now) (step_view step.now)) bad) }
{
    let Some(place) = &step.place else {
        return Err(Bad::NoFormula)
    };
    if formula_numbered(formulas_on(sequent, place.side), place.index).is_none() {
        return Err(Bad::NoFormula);
    }
    match at(sequent, place) {
        None => Err(Bad::NoPlace),
        Some(Node::Formula(formula)) => {
            if is_on(side_of(rule), place) {
                Ok((place, formula))
            } else {
                Err(Bad::WrongPlaceKind)
            }
        }
        Some(Node::Term(_)) => Err(Bad::WrongPlaceKind),
        Some(Node::Loc(_)) => Err(Bad::WrongPlaceKind),
    }
}

// Whether the one assumed formula is this one, on the left.
fn is_assumed(sequent: &Sequent, assumes: &[Option<Place>], formula: &Formula) -> bool
    ensures { IsTrue result ↔ IsAssumed (sequent_view sequent.now) (map (option_map place_view) assumes.now) (formula_view formula.now) }
{
    let [Some(place)] = assumes else { return false };
    if !is_on(Some(Side::Left), place) {
        return false;
    }
    match formula_numbered(&sequent.left, place.index) {
        None => false,
        Some(left) => left.equals(formula),
    }
}

/// Whether a step at the formula assumes what its rule wants.
pub fn assumes_rightly(
    rule: FirstRule,
    sequent: &Sequent,
    assumes: &[Option<Place>],
    formula: &Formula,
) -> bool
    ensures { IsTrue result ↔ AssumesRightly rule (sequent_view sequent.now) (map (option_map place_view) assumes.now) (formula_view formula.now) }
{
    match rule {
        FirstRule::Close => is_assumed(sequent, assumes, formula),
        _ => assumes.is_empty(),
    }
}
