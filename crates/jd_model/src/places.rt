ghost use Rattle.std.specs.Prelude.{◌≡◌, ◌<◌, ◌++◌, ◌∷◌, [], map, option_map};
ghost use Rattle.jd_term.specs.TermViews.{term_view, loc_view};
ghost use Rattle.jd_term.specs.Formulas.{formula_view, update_view};
ghost use Rattle.jd_model.specs.Sequents.{sequent_view, place_view};
ghost use Rattle.jd_model.specs.Places.{at_place, on_side, part_at, numbered, children, formula_children, term_children, loc_children, FormulaPart, TermPart};
ghost use Rattle.jd_model.specs.Nodes.{node_part};

use crate::sequent::{Node, Place, Sequent, Side};
use jd_term::{Formula, Loc, Term, Update};

fn loc_child(loc: &Loc, number: u32) -> Option<Node<'_>>
    ensures { option_map node_part result ≡ numbered (loc_children (loc_view loc.now)) number }
{
    match (loc, number) {
        (Loc::Single(o, _), 1)
        | (Loc::ObjectFields(o), 1)
        | (Loc::ArrayElements(o), 1)
        | (Loc::ElementRange(o, _, _), 1) => Some(Node::Term(o)),
        (Loc::Single(_, f), 2) => Some(Node::Term(f)),
        (Loc::ElementRange(_, t, _), 2) => Some(Node::Term(t)),
        (Loc::ElementRange(_, _, u), 3) => Some(Node::Term(u)),
        (Loc::Union(l, _), 1) => Some(Node::Loc(l)),
        (Loc::Union(_, m), 2) => Some(Node::Loc(m)),
        _ => None,
    }
}

fn term_child(term: &Term, number: u32) -> Option<Node<'_>>
    ensures { option_map node_part result ≡ numbered (term_children (term_view term.now)) number }
{
    match (term, number) {
        (Term::Arithmetic(_, a, _), 1)
        | (Term::Negation(a), 1)
        | (Term::Wrap(a), 1)
        | (Term::Length(a), 1)
        | (Term::Select(_, a, _, _), 1)
        | (Term::Sum(a, _, _), 1)
        | (Term::Store(a, _, _, _), 1)
        | (Term::Create(a, _), 1)
        | (Term::Anon(a, _, _), 1)
        | (Term::ElementField(a), 1) => Some(Node::Term(a)),
        (Term::Arithmetic(_, _, b), 2)
        | (Term::Select(_, _, b, _), 2)
        | (Term::Sum(_, b, _), 2)
        | (Term::Store(_, b, _, _), 2)
        | (Term::Create(_, b), 2) => Some(Node::Term(b)),
        (Term::Anon(_, l, _), 2) => Some(Node::Loc(l)),
        (Term::Select(_, _, _, c), 3)
        | (Term::Sum(_, _, c), 3)
        | (Term::Store(_, _, c, _), 3)
        | (Term::Anon(_, _, c), 3) => Some(Node::Term(c)),
        (Term::Store(_, _, _, d), 4) => Some(Node::Term(d)),
        _ => None,
    }
}

#[tactic(auto, using(crate::proofs::Children::pairs))]
fn update_child<'a>(update: &'a Update, body: &'a Formula, number: u32) -> Option<Node<'a>>
    requires { 0 < number }
    ensures { option_map node_part result ≡ numbered (map (λ p. TermPart p.1) (update_view update.now) ++ (FormulaPart (formula_view body.now) ∷ [])) number }
{
    let index = number as usize - 1;
    let count = update.pairs.len();
    if index < count {
        return Some(Node::Term(&update.pairs[index].value));
    }
    if index == count {
        return Some(Node::Formula(body));
    }
    None
}

fn formula_child(formula: &Formula, number: u32) -> Option<Node<'_>>
    ensures { option_map node_part result ≡ numbered (formula_children (formula_view formula.now)) number }
{
    match (formula, number) {
        (_, 0) => None,
        (Formula::Updated(update, body), _) => update_child(update, body, number),
        (Formula::Not(a), 1)
        | (Formula::And(a, _), 1)
        | (Formula::Or(a, _), 1)
        | (Formula::Implies(a, _), 1)
        | (Formula::Iff(a, _), 1)
        | (Formula::Forall(_, a), 1)
        | (Formula::Exists(_, a), 1)
        | (Formula::Modal(_, _, a), 1) => Some(Node::Formula(a)),
        (Formula::And(_, b), 2)
        | (Formula::Or(_, b), 2)
        | (Formula::Implies(_, b), 2)
        | (Formula::Iff(_, b), 2) => Some(Node::Formula(b)),
        (Formula::Equal(t, _), 1)
        | (Formula::Less(t, _), 1)
        | (Formula::LessOrEqual(t, _), 1)
        | (Formula::InLocations(t, _, _), 1)
        | (Formula::InInt(t), 1)
        | (Formula::WellFormed(t), 1)
        | (Formula::Invariant(t, _), 1)
        | (Formula::IsInstance(_, t), 1)
        | (Formula::IsExactInstance(_, t), 1) => Some(Node::Term(t)),
        (Formula::Equal(_, u), 2)
        | (Formula::Less(_, u), 2)
        | (Formula::LessOrEqual(_, u), 2)
        | (Formula::InLocations(_, u, _), 2)
        | (Formula::Invariant(_, u), 2) => Some(Node::Term(u)),
        (Formula::InLocations(_, _, l), 3) => Some(Node::Loc(l)),
        _ => None,
    }
}

fn child(node: Node<'_>, number: u32) -> Option<Node<'_>>
    ensures { option_map node_part result ≡ numbered (children (node_part node.entry)) number }
{
    match node {
        Node::Formula(formula) => formula_child(formula, number),
        Node::Term(term) => term_child(term, number),
        Node::Loc(loc) => loc_child(loc, number),
    }
}

// What is reached from a node by these numbers of children.
fn node_at<'a>(node: Node<'a>, path: &[u32]) -> Option<Node<'a>>
    ensures { option_map node_part result ≡ part_at path.now (node_part node.entry) }
{
    let mut node = node;
    for number in path {
        node = child(node, *number)?;
    }
    Some(node)
}

/// The formulas of a side.
pub fn formulas_on(sequent: &Sequent, side: Side) -> &[Formula]
    ensures { map formula_view result.now ≡ on_side (sequent_view sequent.now) side }
{
    match side {
        Side::Left => &sequent.left,
        Side::Right => &sequent.right,
    }
}

/// The formula of this number, from 1.
pub fn formula_numbered(formulas: &[Formula], index: u32) -> Option<&Formula>
    ensures { option_map (λ f. formula_view f.now) result ≡ numbered (map formula_view formulas.now) index }
{
    if index == 0 {
        return None;
    }
    let place = index as usize - 1;
    if place < formulas.len() {
        return Some(&formulas[place]);
    }
    None
}

/// What stands at a place; `None` exactly where the place is not there.
pub fn at<'a>(sequent: &'a Sequent, place: &Place) -> Option<Node<'a>>
    ensures { option_map node_part result ≡ at_place (sequent_view sequent.now) (place_view place.now) }
{
    match formula_numbered(formulas_on(sequent, place.side), place.index) {
        Some(formula) => node_at(Node::Formula(formula), &place.path),
        None => None,
    }
}
