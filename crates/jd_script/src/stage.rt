//! A token of a file.

ghost use Rattle.std.specs.Prelude.{◌≡◌, IsTrue, IfOk, OnOk, List, []};
ghost use Rattle.jd_sequent.specs.Trees.{are_trees};
ghost use Rattle.jd_bracketed.specs.TokenViews.{kind_view};
ghost use Rattle.jd_scripts.specs.Scripts as scripts;
ghost use Rattle.jd_scripts.specs.Scripts.{PlainProof, names_of};
ghost use Rattle.jd_scripts.specs.Machine as machine;
ghost use Rattle.jd_scripts.specs.Machine.{decide, Goes, GoesIf, NameBehind, IsWhole};
ghost use Rattle.jd_script.specs.ProofViews.{proofs_view, AreHashed};
ghost use Rattle.jd_script.specs.PartViews.{part_view};
ghost use Rattle.jd_script.specs.TurnViews.{limits_view, context_of, nodes_of, places_of, part_turn};
ghost use Rattle.jd_script.specs.StageViews.{state_view, turn_view};

use crate::draft::Part;
use crate::nodes::OpenProof;
use crate::place::read_number;
use crate::proofs::Proofs;
use crate::stop::{Limits, PartTurn, Stop};
use crate::turn::{in_tree, is_word};
use jd_base::{NoMemory, copy_bytes};
use jd_bracketed::Kind;
use jd_sequent::ScriptTree;
use std::alloc::Global;
use std::mem;

/// What comes next in a file.
#[derive(Clone, Copy)]
pub(crate) enum Stage {
    FileNext,
    WordNext,
    VersionNext,
    ProofNext,
    ProofWord,
    NameNext,
    InProof(Part),
    FileEnd,
}

/// What a token leads to.
#[derive(Clone, Copy)]
pub(crate) enum Turn {
    /// What comes next.
    Goes(Stage),
    /// That it is refused.
    Stops(Stop),
}

fn if_open(kind: Kind<'_>, stage: Stage) -> Turn
    ensures { (done : List PlainProof) (p : OpenProof) (l : scripts.Limits) → turn_view done p result ≡ decide l (machine.if_open (kind_view kind.entry) (Goes (state_view done p stage))) }
{
    match kind {
        Kind::Open => Turn::Goes(stage),
        Kind::Close | Kind::OpenSquare | Kind::CloseSquare | Kind::Word(_) | Kind::Bad => {
            Turn::Stops(Stop::Wrong)
        }
    }
}

fn if_word(text: &[u8], kind: Kind<'_>, stage: Stage) -> Turn
    ensures { (done : List PlainProof) (p : OpenProof) (l : scripts.Limits) → turn_view done p result ≡ decide l (machine.if_word text.now (kind_view kind.entry) (Goes (state_view done p stage))) }
{
    match kind {
        Kind::Word(word) => {
            if is_word(word, text) {
                Turn::Goes(stage)
            } else {
                Turn::Stops(Stop::Wrong)
            }
        }
        Kind::Open | Kind::Close | Kind::OpenSquare | Kind::CloseSquare | Kind::Bad => {
            Turn::Stops(Stop::Wrong)
        }
    }
}

// The version, where a number is read.
fn if_one(version: Option<u32>) -> Turn
    ensures { (p : OpenProof) (limits : Limits) → turn_view [] p result ≡ decide (limits_view limits) (machine.of_version version) }
{
    match version {
        None => Turn::Stops(Stop::Wrong),
        Some(1) => Turn::Goes(Stage::ProofNext),
        Some(_) => Turn::Stops(Stop::Version),
    }
}

// The version. No proofs are there yet.
fn at_version(alloc: Global, proofs: &mut Proofs, kind: Kind<'_>) -> Result<Turn, NoMemory>
    ensures turn { IfOk result (λ r. (p : OpenProof) (limits : Limits) → turn_view (proofs_view proofs.new) p r ≡ decide (limits_view limits) (machine.at_version (kind_view kind.entry))) }
    ensures hashed { AreHashed proofs.new }
{
    *proofs = Proofs::new(alloc);
    match kind {
        Kind::Word(word) => Ok(if_one(read_number(alloc, word)?)),
        Kind::Open | Kind::Close | Kind::OpenSquare | Kind::CloseSquare | Kind::Bad => {
            Ok(Turn::Stops(Stop::Wrong))
        }
    }
}

// A proof or the end of the file.
fn at_proof(kind: Kind<'_>) -> Turn
    ensures { (done : List PlainProof) (p : OpenProof) (l : scripts.Limits) → turn_view done p result ≡ decide l (machine.at_proof 1 done (kind_view kind.entry)) }
{
    match kind {
        Kind::Open => Turn::Goes(Stage::ProofWord),
        Kind::Close => Turn::Goes(Stage::FileEnd),
        Kind::OpenSquare | Kind::CloseSquare | Kind::Word(_) | Kind::Bad => {
            Turn::Stops(Stop::Wrong)
        }
    }
}

// The name of a proof.
fn named(
    alloc: Global,
    proofs: &Proofs,
    proof: &mut OpenProof,
    name: &[u8],
) -> Result<Turn, NoMemory>
    requires { AreHashed proofs.now }
    ensures { IfOk result (λ r. (limits : Limits) → turn_view (proofs_view proofs.now) proof.new r
        ≡ decide (limits_view limits) (GoesIf (NameBehind name.now (names_of (proofs_view proofs.now))) (machine.InProof (record { version = 1; done = proofs_view proofs.now; name = name.now }) machine.TreeNext [] [] 0))) }
{
    if proofs.has(name) {
        return Ok(Turn::Stops(Stop::Duplicate));
    }
    *proof = OpenProof::new(alloc, copy_bytes(alloc, name)?);
    Ok(Turn::Goes(Stage::InProof(Part::TreeNext)))
}

fn at_name(
    alloc: Global,
    proofs: &Proofs,
    proof: &mut OpenProof,
    kind: Kind<'_>,
) -> Result<Turn, NoMemory>
    requires { AreHashed proofs.now }
    ensures { IfOk result (λ r. (limits : Limits) → turn_view (proofs_view proofs.now) proof.new r ≡ decide (limits_view limits) (machine.at_name 1 (proofs_view proofs.now) (kind_view kind.entry))) }
{
    match kind {
        Kind::Word(name) => named(alloc, proofs, proof, name),
        Kind::Open | Kind::Close | Kind::OpenSquare | Kind::CloseSquare | Kind::Bad => {
            Ok(Turn::Stops(Stop::Wrong))
        }
    }
}

// The end of a proof.
fn proof_closed(alloc: Global, proofs: &mut Proofs, proof: &mut OpenProof) -> Result<Turn, NoMemory>
    requires hashed { AreHashed proofs.old }
    requires whole { IsTrue (are_trees 1 (nodes_of proof.old)) }
    ensures turn { IfOk result (λ r. (l : scripts.Limits) → turn_view (proofs_view proofs.new) proof.new r ≡ decide l (machine.proof_closed (context_of (proofs_view proofs.old) proof.old) (nodes_of proof.old))) }
    ensures hashed { OnOk result (AreHashed proofs.new) }
{
    let ended = mem::replace(proof, OpenProof::new(alloc, Vec::new(alloc)));
    let OpenProof { name, nodes, .. } = ended;
    proofs.add(alloc, name, ScriptTree { nodes })?;
    Ok(Turn::Goes(Stage::ProofNext))
}

// A token behind the last tree of a proof.
fn at_end(
    alloc: Global,
    proofs: &mut Proofs,
    proof: &mut OpenProof,
    kind: Kind<'_>,
) -> Result<Turn, NoMemory>
    requires hashed { AreHashed proofs.old }
    requires whole { IsTrue (are_trees 1 (nodes_of proof.old)) }
    ensures turn { IfOk result (λ r. (l : scripts.Limits) → turn_view (proofs_view proofs.new) proof.new r
        ≡ decide l (machine.if_close (kind_view kind.entry) (machine.proof_closed (context_of (proofs_view proofs.old) proof.old) (nodes_of proof.old)))) }
    ensures hashed { OnOk result (AreHashed proofs.new) }
{
    match kind {
        Kind::Close => proof_closed(alloc, proofs, proof),
        Kind::Open | Kind::OpenSquare | Kind::CloseSquare | Kind::Word(_) | Kind::Bad => {
            Ok(Turn::Stops(Stop::Wrong))
        }
    }
}

// What comes next in the proof comes next in the file.
fn in_file(turn: PartTurn) -> Turn
    ensures { (done : List PlainProof) (p : OpenProof) → turn_view done p result ≡ part_turn done p turn }
{
    match turn {
        PartTurn::Goes(part) => Turn::Goes(Stage::InProof(part)),
        PartTurn::Stops(stop) => Turn::Stops(stop),
    }
}

// A token of a proof.
fn in_proof(
    alloc: Global,
    limits: Limits,
    proofs: &mut Proofs,
    proof: &mut OpenProof,
    part: Part,
    kind: Kind<'_>,
) -> Result<Turn, NoMemory>
    requires hashed { AreHashed proofs.old }
    requires whole { part_view proof.old.draft part ≡ machine.TreeEnd → IsTrue (are_trees 1 (nodes_of proof.old)) }
    ensures turn { IfOk result (λ r. turn_view (proofs_view proofs.new) proof.new r
        ≡ decide (limits_view limits) (machine.in_proof (context_of (proofs_view proofs.old) proof.old) (part_view proof.old.draft part) (nodes_of proof.old) (places_of proof.old) proof.old.steps (kind_view kind.entry))) }
    ensures hashed { OnOk result (AreHashed proofs.new) }
{
    match part {
        Part::TreeEnd => at_end(alloc, proofs, proof, kind),
        part => Ok(in_file(in_tree(alloc, limits, proof, part, kind)?)),
    }
}

/// What the token makes of what came before.
pub(crate) fn stage_step(
    alloc: Global,
    limits: Limits,
    proofs: &mut Proofs,
    proof: &mut OpenProof,
    stage: Stage,
    kind: Kind<'_>,
) -> Result<Turn, NoMemory>
    requires hashed { AreHashed proofs.old }
    requires whole { IsWhole (state_view (proofs_view proofs.old) proof.old stage) }
    ensures turn { IfOk result (λ r. turn_view (proofs_view proofs.new) proof.new r
        ≡ machine.step (limits_view limits) (state_view (proofs_view proofs.old) proof.old stage) (kind_view kind.entry)) }
    ensures hashed { OnOk result (AreHashed proofs.new) }
{
    match stage {
        Stage::FileNext => Ok(if_open(kind, Stage::WordNext)),
        Stage::WordNext => Ok(if_word(b"jdl".as_slice(), kind, Stage::VersionNext)),
        Stage::VersionNext => at_version(alloc, proofs, kind),
        Stage::ProofNext => Ok(at_proof(kind)),
        Stage::ProofWord => Ok(if_word(b"proof".as_slice(), kind, Stage::NameNext)),
        Stage::NameNext => at_name(alloc, proofs, proof, kind),
        Stage::InProof(part) => in_proof(alloc, limits, proofs, proof, part, kind),
        Stage::FileEnd => Ok(Turn::Stops(Stop::Wrong)),
    }
}
