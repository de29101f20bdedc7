//! A token of a proof.

ghost use Rattle.std.specs.Prelude.{◌≡◌, ◌∷◌, IfOk, List, ℕ, reverse, length, Ok, option_map};
ghost use Rattle.std.specs.Str.{bytes_eq};
ghost use Rattle.jd_bracketed.specs.Readings as readings;
ghost use Rattle.jd_bracketed.specs.Tokens as tokens;
ghost use Rattle.jd_bracketed.specs.TokenViews.{kind_view};
ghost use Rattle.jd_syntax.specs.Sxs.{sx_view};
ghost use Rattle.jd_bracketed.specs.ReadingViews.{reading_view};
ghost use Rattle.jd_sequent.specs.Trees.{PlainNode};
ghost use Rattle.jd_sequent.specs.Steps.{step_view};
ghost use Rattle.jd_scripts.specs.Scripts as scripts;
ghost use Rattle.jd_scripts.specs.Scripts.{PlainProof};
ghost use Rattle.jd_scripts.specs.Machine as machine;
ghost use Rattle.jd_scripts.specs.Machine.{Context, decide};
ghost use Rattle.jd_script.specs.PartViews.{part_view};
ghost use Rattle.jd_script.specs.TurnViews.{limits_view, context_of, nodes_of, places_of, turn_at, part_turn};

use crate::draft::{Draft, Part, no_step};
use crate::nodes::{OpenProof, grow};
use crate::part::part_step;
use crate::stop::{Limits, PartTurn, Stop};
use jd_base::NoMemory;
use jd_bracketed as bracketed;
use jd_bracketed::{Kind, Reading, stepped};
use jd_sequent::ScriptNode;
use jd_syntax::Sx;
use std::alloc::Global;
use std::mem;

/// Whether the word is that text.
pub(crate) fn is_word(word: &[u8], text: &[u8]) -> bool
    ensures { result ≡ bytes_eq word.now text.now }
{
    word == text
}

// What comes after a tree.
fn after_tree(open_steps: &[usize]) -> Part
    ensures { (d : Draft) → part_view d result ≡ machine.after_tree (reverse open_steps.now) }
{
    if open_steps.is_empty() {
        Part::TreeEnd
    } else {
        Part::TreeNext
    }
}

// An open leaf.
fn leaf(proof: &mut OpenProof) -> Result<PartTurn, NoMemory>
    ensures { IfOk result (λ r. (done : List PlainProof) → part_turn done proof.new r
        ≡ Ok (machine.InProof (context_of done proof.old) (machine.after_tree (places_of proof.old))
        (machine.grown (nodes_of proof.old) (places_of proof.old) machine.leaf) (places_of proof.old) proof.old.steps)) }
{
    let node = ScriptNode {
        step: None,
        children: 0,
    };
    grow(&mut proof.nodes, &proof.open_steps, node)?;
    Ok(PartTurn::Goes(after_tree(&proof.open_steps)))
}

// The bracket of a step.
fn opened(limits: Limits, proof: &mut OpenProof) -> PartTurn
    ensures { (done : List PlainProof) → part_turn done proof.new result
        ≡ decide (limits_view limits) (machine.at_tree (context_of done proof.old) (nodes_of proof.old) (places_of proof.old) proof.old.steps tokens.Open) }
{
    if proof.steps < limits.steps {
        proof.steps += 1;
        PartTurn::Goes(Part::RuleNext)
    } else {
        PartTurn::Stops(Stop::TooManySteps)
    }
}

// The end of the innermost step.
fn closed(proof: &mut OpenProof) -> PartTurn
    ensures { (done : List PlainProof) (l : scripts.Limits) → part_turn done proof.new result
        ≡ decide l (machine.closed (context_of done proof.old) (nodes_of proof.old) (places_of proof.old) proof.old.steps) }
{
    match proof.open_steps.pop() {
        None => PartTurn::Stops(Stop::Wrong),
        Some(_) => PartTurn::Goes(after_tree(&proof.open_steps)),
    }
}

// A token where a tree or the end of the innermost step may stand.
fn at_tree(limits: Limits, proof: &mut OpenProof, kind: Kind<'_>) -> Result<PartTurn, NoMemory>
    ensures { IfOk result (λ r. (done : List PlainProof) → part_turn done proof.new r
        ≡ decide (limits_view limits) (machine.at_tree (context_of done proof.old) (nodes_of proof.old) (places_of proof.old) proof.old.steps (kind_view kind.entry))) }
{
    match kind {
        Kind::Open => Ok(opened(limits, proof)),
        Kind::Close => Ok(closed(proof)),
        Kind::Word(word) => {
            if is_word(word, b"-".as_slice()) {
                leaf(proof)
            } else {
                Ok(PartTurn::Stops(Stop::Wrong))
            }
        }
        Kind::OpenSquare | Kind::CloseSquare | Kind::Bad => Ok(PartTurn::Stops(Stop::Wrong)),
    }
}

// The last bracket before a step's trees.
fn begun(alloc: Global, proof: &mut OpenProof) -> Result<PartTurn, NoMemory>
    ensures { IfOk result (λ r. (done : List PlainProof) → part_turn done proof.new r
        ≡ Ok (machine.InProof (context_of done proof.old) machine.TreeNext (machine.grown (nodes_of proof.old) (places_of proof.old) (machine.new_node (step_view proof.old.draft.step)))
        (length (nodes_of proof.old) ∷ places_of proof.old) proof.old.steps)) }
{
    let at = proof.nodes.len();
    let step = mem::replace(&mut proof.draft.step, no_step(alloc));
    let node = ScriptNode {
        step: Some(Box::new(alloc, step)?),
        children: 0,
    };
    grow(&mut proof.nodes, &proof.open_steps, node)?;
    proof.open_steps.push(at)?;
    Ok(PartTurn::Goes(Part::TreeNext))
}

// A token where an instantiation or the last bracket before a step's trees may stand.
fn at_inst(alloc: Global, proof: &mut OpenProof, kind: Kind<'_>) -> Result<PartTurn, NoMemory>
    ensures { IfOk result (λ r. (done : List PlainProof) (l : scripts.Limits) → part_turn done proof.new r
        ≡ decide l (machine.at_inst (step_view proof.old.draft.step) (context_of done proof.old) (nodes_of proof.old) (places_of proof.old) proof.old.steps (kind_view kind.entry))) }
{
    match kind {
        Kind::Open => Ok(PartTurn::Goes(Part::InstName)),
        Kind::CloseSquare => begun(alloc, proof),
        Kind::Close | Kind::OpenSquare | Kind::Word(_) | Kind::Bad => {
            Ok(PartTurn::Stops(Stop::Wrong))
        }
    }
}

// The bracket behind an expression.
fn inst_ended(
    alloc: Global,
    draft: &mut Draft,
    value: Sx,
    kind: Kind<'_>,
) -> Result<PartTurn, NoMemory>
    ensures { IfOk result (λ r. (c : Context) (ns : List PlainNode) (os : List ℕ) (k : ℕ) (l : scripts.Limits) → turn_at c ns os k draft.new r
        ≡ decide l (machine.at_body (step_view draft.old.step) draft.old.inst.items (readings.Whole (sx_view value)) c ns os k (kind_view kind.entry))) }
{
    match kind {
        Kind::Close => {
            let name = mem::replace(&mut draft.inst, Vec::new(alloc));
            draft.step.insts.push((name, value))?;
            Ok(PartTurn::Goes(Part::InstNext))
        }
        Kind::Open | Kind::OpenSquare | Kind::CloseSquare | Kind::Word(_) | Kind::Bad => {
            Ok(PartTurn::Stops(Stop::Wrong))
        }
    }
}

// A token of an expression that is not whole.
fn in_body(
    alloc: Global,
    limits: Limits,
    draft: &mut Draft,
    reading: Reading,
    kind: Kind<'_>,
) -> Result<PartTurn, NoMemory>
    ensures { IfOk result (λ r. (c : Context) (ns : List PlainNode) (os : List ℕ) (k : ℕ) → turn_at c ns os k draft.new r
        ≡ decide (limits_view limits) (machine.in_body (λ x. machine.InProof c (machine.InstBody (step_view draft.old.step) draft.old.inst.items x) ns os k) (reading_view reading) (kind_view kind.entry))) }
{
    match stepped(alloc, limits.levels, reading, kind) {
        Ok(next) => {
            draft.reading = next;
            Ok(PartTurn::Goes(Part::InstBody))
        }
        Err(bracketed::Stop::Syntax) => Ok(PartTurn::Stops(Stop::Wrong)),
        Err(bracketed::Stop::TooDeep) => Ok(PartTurn::Stops(Stop::TooDeep)),
        Err(bracketed::Stop::NoMemory) => Err(NoMemory),
    }
}

// A token of an instantiation's expression, or behind it.
fn at_body(
    alloc: Global,
    limits: Limits,
    draft: &mut Draft,
    kind: Kind<'_>,
) -> Result<PartTurn, NoMemory>
    ensures { IfOk result (λ r. (c : Context) (ns : List PlainNode) (os : List ℕ) (k : ℕ) → turn_at c ns os k draft.new r
        ≡ decide (limits_view limits) (machine.at_body (step_view draft.old.step) draft.old.inst.items (reading_view draft.old.reading) c ns os k (kind_view kind.entry))) }
{
    match mem::replace(&mut draft.reading, Reading::Before) {
        Reading::Whole(value) => inst_ended(alloc, draft, value, kind),
        reading => in_body(alloc, limits, draft, reading, kind),
    }
}

// A part of a step, or that no step goes on so.
fn if_part(part: Option<Part>) -> PartTurn
    ensures { (c : Context) (ns : List PlainNode) (os : List ℕ) (k : ℕ) (d : Draft) (l : scripts.Limits) → turn_at c ns os k d result
        ≡ decide l (machine.goes_part c ns os k (option_map (part_view d) part)) }
{
    match part {
        None => PartTurn::Stops(Stop::Wrong),
        Some(part) => PartTurn::Goes(part),
    }
}

/// A token of a proof, up to its last tree.
pub(crate) fn in_tree(
    alloc: Global,
    limits: Limits,
    proof: &mut OpenProof,
    part: Part,
    kind: Kind<'_>,
) -> Result<PartTurn, NoMemory>
    ensures { IfOk result (λ r. (done : List PlainProof) → (part_view proof.old.draft part ≡ machine.TreeEnd → ⊥) → part_turn done proof.new r
        ≡ decide (limits_view limits) (machine.in_proof (context_of done proof.old) (part_view proof.old.draft part) (nodes_of proof.old) (places_of proof.old) proof.old.steps (kind_view kind.entry))) }
{
    match part {
        Part::TreeNext => at_tree(limits, proof, kind),
        Part::InstNext => at_inst(alloc, proof, kind),
        Part::InstBody => at_body(alloc, limits, &mut proof.draft, kind),
        part => Ok(if_part(part_step(alloc, &mut proof.draft, part, kind)?)),
    }
}
