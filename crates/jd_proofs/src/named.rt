//! The trees of obligations, by the names of the proofs.

ghost use Rattle.std.specs.Prelude.{◌≡◌, ◌≤◌, [], is_ok, map, length, IfOk, IfErr, OnOk, MatchResult};
ghost use Rattle.std.specs.List.{list_any};
ghost use Rattle.std.specs.Str.{bytes_eq};
ghost use Rattle.jd_bracketed.specs.Tokens.{tokens_of};
ghost use Rattle.jd_scripts.specs.Scripts.{AreDistinct, names_of};
ghost use Rattle.jd_scripts.specs.ProofViews.{proof_view};
ghost use Rattle.jd_proofs.specs.Outcomes.{IsOutcome, Trees, tree_in};
ghost use Rattle.jd_proofs.specs.Answers.{IsUnread, trees_view};
ghost use Rattle.jd_proofs.specs.Given.{IsRefusedFor, name_list, names_view, outcome_with, with_tree};

use crate::refusal::ProofsRefusal;
use indexmap::IndexSet;
use jd_base::{NoMemory, copy_bytes};
use jd_script::{Proof, parse_script};
use jd_sequent::ScriptTree;
use std::alloc::Global;

// The names, each at its place.
fn hashed(alloc: Global, names: &[Vec<u8>]) -> Result<IndexSet<Vec<u8>>, NoMemory>
    requires { AreDistinct (names_view names.now) }
    ensures { IfOk result (λ places. name_list places ≡ names_view names.now) }
{
    let mut places = IndexSet::new(alloc);
    for name in names {
        places.insert(copy_bytes(alloc, name)?)?;
    }
    Ok(places)
}

// No tree for any of them.
fn no_trees(alloc: Global, names: &[Vec<u8>]) -> Result<Vec<Option<ScriptTree>>, NoMemory>
    ensures { IfOk result (λ trees. trees_view trees.items ≡ map (tree_in []) (names_view names.now)) }
{
    let mut trees = Vec::new(alloc);
    for _name in names {
        trees.push(None)?;
    }
    Ok(trees)
}

// Gives the proof's tree to the obligation of its name; its name back where none has it.
fn give(
    places: &IndexSet<Vec<u8>>,
    trees: &mut Vec<Option<ScriptTree>>,
    proof: Proof,
) -> Result<(), Vec<u8>>
    requires { length trees.old.items ≡ length places.now.keys }
    ensures given { OnOk result (trees_view trees.new.items ≡ with_tree (name_list places.now) (proof_view proof) (trees_view trees.old.items)) }
    ensures known { is_ok result ≡ list_any (bytes_eq proof.name.items) (name_list places.now) }
    ensures name { IfErr result (λ name. name ≡ proof.name) }
{
    let Proof { name, tree } = proof;
    let Some(place) = places.get_index_of(name.as_slice()) else {
        return Err(name);
    };
    trees[place] = Some(tree);
    Ok(())
}

// The tree of each obligation's proof, or the first name of a proof that none has.
fn given(
    alloc: Global,
    names: &[Vec<u8>],
    proofs: Vec<Proof>,
) -> Result<Vec<Option<ScriptTree>>, ProofsRefusal>
    requires names { AreDistinct (names_view names.now) }
    requires proofs { AreDistinct (names_of (map proof_view proofs.items)) }
    ensures trees { IfOk result (λ trees. outcome_with (names_view names.now) (map proof_view proofs.items) ≡ Trees (trees_view trees.items)) }
    ensures refused { IfErr result (IsRefusedFor (outcome_with (names_view names.now) (map proof_view proofs.items))) }
{
    let places = hashed(alloc, names)?;
    let mut trees = no_trees(alloc, names)?;
    for proof in proofs {
        match give(&places, &mut trees, proof) {
            Ok(()) => {}
            Err(name) => return Err(ProofsRefusal::UnknownObligation { name }),
        }
    }
    Ok(trees)
}

/// The trees of the proofs in a file of scripts, one for each obligation of these names, in their order: that of the proof of
/// the obligation's name, or none where no proof has it. No name may stand twice. Linear: each name is hashed once.
///
/// # Errors
///
/// `File` with the refusal of `parse_script` if the text is no file of scripts; then `UnknownObligation` with the first name of
/// a proof that no obligation has. `File` with `NoMemory` if memory runs out.
pub fn proofs_for(
    alloc: Global,
    names: &[Vec<u8>],
    bytes: &[u8],
) -> Result<Vec<Option<ScriptTree>>, ProofsRefusal>
    requires few { length bytes.now ≤ 4294967295 }
    requires distinct { AreDistinct (map (λ n. n.items) names.now) }
    ensures { MatchResult result
        (λ trees. IsOutcome (map (λ n. n.items) names.now) (tokens_of bytes.now) (Trees (trees_view trees.items)))
        (λ e. IsUnread (map (λ n. n.items) names.now) (tokens_of bytes.now) e) }
{
    match parse_script(alloc, bytes) {
        Ok(proofs) => given(alloc, names, proofs),
        Err(refusal) => Err(ProofsRefusal::File(refusal)),
    }
}
