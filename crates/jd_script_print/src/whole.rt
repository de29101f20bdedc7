//! The text of files of proof scripts.

ghost use Rattle.std.specs.Prelude.{◌≡◌, OnOk, IfOk, map};
ghost use Rattle.jd_scripts.specs.ProofViews.{proof_view};
ghost use Rattle.jd_script_print.specs.Laws.{script_text};
ghost use Rattle.jd_script_print.specs.Views.{named_nodes};
ghost use Rattle.jd_script_print.specs.Writing as writing;

use crate::trees::write_nodes;
use jd_base::NoMemory;
use jd_scripts::Proof;
use jd_written::Written;
use std::alloc::Global;

fn write_proof(alloc: Global, out: &mut Written, proof: &Proof) -> Result<(), NoMemory>
    ensures { OnOk result (out.new ≡ writing.put_proof out.old (named_nodes proof.now)) }
{
    out.open()?;
    out.word(b"proof")?;
    out.word(&proof.name)?;
    write_nodes(alloc, out, &proof.tree.nodes)?;
    out.close()
}

#[tactic(auto, using(jd_syntax::proofs::Lists::rest))]
fn write_proofs(alloc: Global, out: &mut Written, proofs: &[Proof]) -> Result<(), NoMemory>
    ensures { OnOk result (out.new ≡ writing.put_proofs out.old (map named_nodes proofs.now)) }
{
    for proof in proofs {
        write_proof(alloc, out, proof)?;
    }
    Ok(())
}

/// The text of the proofs, as a file of proof scripts: `(jdl 1 (proof NAME TREE) ..)`, one space between two tokens and none at the
/// inner edges of brackets. A number in a place is positive; a name is a word.
///
/// # Errors
///
/// Want of memory.
pub fn print_script(alloc: Global, proofs: &[Proof]) -> Result<Vec<u8>, NoMemory>
    ensures { IfOk result (λ v. v.items ≡ script_text (map proof_view proofs.now)) }
{
    let mut out = Written::new(alloc);
    out.open()?;
    out.word(b"jdl")?;
    out.word(b"1")?;
    write_proofs(alloc, &mut out, proofs)?;
    out.close()?;
    Ok(out.into_bytes())
}
