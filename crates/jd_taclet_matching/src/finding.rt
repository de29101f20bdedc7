//! What a row finds at a step's place.

ghost use Rattle.std.specs.Prelude.{◌≡◌, IfOk, Some, map, option_map};
ghost use Rattle.std.specs.Option.{is_some};
ghost use Rattle.jd_model.specs.Nodes.{node_part};
ghost use Rattle.jd_model.specs.Places.{numbered, on_side};
ghost use Rattle.jd_model.specs.Sequents.{place_view, sequent_view};
ghost use Rattle.jd_schema_matching.specs.Bound.{answered};
ghost use Rattle.jd_schema_matching.specs.PartViews.{bindings};
ghost use Rattle.jd_schema_matching.specs.Tested.{tests};
ghost use Rattle.jd_schema_trees.specs.TacletViews.{assumption, pattern, taclet, taclet_kind};
ghost use Rattle.jd_sequent.specs.declared.bad.Bad.TheVariants.{NoMatch};
ghost use Rattle.jd_taclet_stages.specs.Stages.{acts_on, found_at, found_stage, going, matched, may_stand};
ghost use Rattle.jd_taclet_matching.specs.Answers.{Answers};
ghost use Rattle.jd_taclet_matching.specs.Found.{matched_from};

use crate::answers::ended;
use crate::calm::is_calm_place;
use crate::sides::{is_side, is_whole};
use jd_base::NoMemory;
use jd_formula_matching::match_formula;
use jd_model::{Node, Place, Sequent, Side, at, formula_numbered, formulas_on};
use jd_schema_matching::{Found, match_term};
use jd_schema_trees::{Pattern, SFormula, Taclet, TacletKind};
use jd_sequent::Bad;
use std::alloc::Global;

// Whether rows of the kind act on what stands there.
fn acts_on(kind: TacletKind, place: &Place, node: Node<'_>) -> bool
    ensures { result ≡ acts_on (taclet_kind kind) (place_view place.now) (node_part node.entry) }
{
    match kind {
        TacletKind::Left => match node {
            Node::Formula(_) => is_side(place.side, Side::Left) && is_whole(&place.path),
            _ => false,
        },
        TacletKind::Right => match node {
            Node::Formula(_) => is_side(place.side, Side::Right) && is_whole(&place.path),
            _ => false,
        },
        TacletKind::Formula => match node {
            Node::Formula(_) => true,
            _ => false,
        },
        TacletKind::Term => match node {
            Node::Term(_) => true,
            _ => false,
        },
        TacletKind::Free => false,
    }
}

// Whether a row that assumes these formulas may stand there.
#[tactic(auto, using(crate::proofs::Standing::may))]
fn may_stand(assumes: &[(Side, SFormula)], sequent: &Sequent, place: &Place) -> bool
    ensures { result ≡ may_stand (map assumption assumes.now) (sequent_view sequent.now) (place_view place.now) }
{
    match assumes {
        [] => true,
        [_, ..] => is_calm_place(sequent, place),
    }
}

// Whether a formula of the side has the place's number.
fn has_formula(sequent: &Sequent, place: &Place) -> bool
    ensures { result ≡ is_some (numbered (on_side (sequent_view sequent.now) place.now.side) place.now.index) }
{
    match formula_numbered(formulas_on(sequent, place.side), place.index) {
        Some(_) => true,
        None => false,
    }
}

/// Whether the pattern can stand for what stands there, with what was found. The error is `NoMemory` alone.
pub fn match_node<'t>(
    find: &'t Option<Pattern>,
    node: Node<'t>,
    found: &mut Found<'t>,
) -> Result<bool, NoMemory>
    ensures { IfOk result (λ b. answered b (bindings found.new) ≡ matched_from (option_map pattern find.now) (node_part node.entry) (bindings found.old)) }
{
    match find {
        Some(Pattern::Formula(p)) => match node {
            Node::Formula(a) => match_formula(p, a, found),
            _ => Ok(false),
        },
        Some(Pattern::Term(p)) => match node {
            Node::Term(t) => match_term(p, t, found),
            _ => Ok(false),
        },
        None => Ok(false),
    }
}

// What the pattern's variables stand for, where it can stand for what stands there.
fn found_in<'t>(alloc: Global, find: &'t Option<Pattern>, node: Node<'t>) -> Result<Found<'t>, Bad>
    ensures { Answers bindings result (going NoMatch (matched tests (option_map pattern find.now) (node_part node.entry))) }
{
    let mut found = Found::new(alloc);
    let matched = match_node(find, node, &mut found);
    ended(matched, found, Bad::NoMatch)
}

// What the row finds in what stands at the place.
fn found_on<'t>(
    alloc: Global,
    row: &'t Taclet,
    sequent: &Sequent,
    place: &Place,
    node: Node<'t>,
) -> Result<Found<'t>, Bad>
    ensures { Answers bindings result (found_at tests (taclet row.now) (sequent_view sequent.now) (place_view place.now) (Some (node_part node.entry))) }
{
    if !acts_on(row.kind, place, node) {
        return Err(Bad::WrongPlaceKind);
    }
    if !may_stand(&row.assumes, sequent, place) {
        return Err(Bad::WrongPlaceKind);
    }
    found_in(alloc, &row.find, node)
}

// What the row finds at the place.
fn found_there<'t>(
    alloc: Global,
    row: &'t Taclet,
    sequent: &'t Sequent,
    place: &Place,
) -> Result<Found<'t>, Bad>
    ensures { Answers bindings result (found_stage tests (taclet row.now) (sequent_view sequent.now) (Some (place_view place.now))) }
{
    if !has_formula(sequent, place) {
        return Err(Bad::NoFormula);
    }
    match at(sequent, place) {
        Some(node) => found_on(alloc, row, sequent, place, node),
        None => Err(Bad::NoPlace),
    }
}

/// What the row finds at the place, if one is given: what its variables stand for, as parts of the sequent that are lent.
///
/// # Errors
///
/// The first of these that is so: `NoFormula` if there is no formula of the place's number, or no place is given where something is to be
/// found; `NoPlace` if the path leaves the tree; `WrongPlaceKind` if the row doesn't act there; `NoMatch` if something else stands there.
/// `NoMemory` if memory runs out.
pub fn found<'t>(
    alloc: Global,
    row: &'t Taclet,
    sequent: &'t Sequent,
    place: &Option<Place>,
) -> Result<Found<'t>, Bad>
    ensures { Answers bindings result (found_stage tests (taclet row.now) (sequent_view sequent.now) (option_map place_view place.now)) }
{
    match place {
        Some(place) => found_there(alloc, row, sequent, place),
        None => match &row.find {
            None => Ok(Found::new(alloc)),
            Some(_) => Err(Bad::NoFormula),
        },
    }
}
