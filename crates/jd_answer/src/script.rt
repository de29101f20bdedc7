//! What is told of proof files that are no file of scripts for the obligations.

ghost use Rattle.std.specs.Prelude.{◌≡◌, ◌≤◌, ◌++◌, ◌∷◌, [], IfOk, MatchResult, length, option_map};
ghost use Rattle.jd_bracketed.specs.Tokens.{tokens_of};
ghost use Rattle.jd_proofs.specs.Answers.{IsUnread, tree_view};
ghost use Rattle.jd_answer.specs.Answers.{HasProof};
ghost use Rattle.jd_answer.specs.Reports.{placed_text, script_refusal_text, unknown_kind};
ghost use Rattle.jd_answer.specs.Scripts.{IsUnreadAnswer, TellsFile, TellsKind};

use crate::answer::Answer;
use crate::status::Status;
use crate::text::{add_placed, too_many_steps};
use jd_base::{NoMemory, copy_bytes};
use jd_proofs::{ProofsRefusal, proofs_for};
use jd_script::ScriptRefusal;
use jd_sequent::ScriptTree;
use std::alloc::Global;

// A kind of refusal and its place.
fn placed_kind(alloc: Global, kind: &[u8], at: u32) -> Result<Vec<u8>, NoMemory>
    ensures { IfOk result (λ v. v.items ≡ placed_text kind.now at) }
{
    let mut out = Vec::new(alloc);
    add_placed(alloc, &mut out, kind, at)?;
    Ok(out)
}

// A kind of refusal and a name.
fn named_kind(alloc: Global, kind: &[u8], name: &[u8]) -> Result<Vec<u8>, NoMemory>
    ensures { IfOk result (λ v. v.items ≡ kind.now ++ name.now) }
{
    let mut out = copy_bytes(alloc, kind)?;
    out.extend_from_slice(name)?;
    Ok(out)
}

// Why a text is no file of scripts; none of too many steps.
#[tactic(auto, using(crate::proofs::ScriptKinds::told))]
fn kind_of(alloc: Global, refusal: &ScriptRefusal) -> Result<Option<Vec<u8>>, NoMemory>
    ensures { IfOk result (λ r. TellsKind refusal.now (option_map (λ v. v.items) r)) }
{
    match refusal {
        ScriptRefusal::Version => Ok(Some(copy_bytes(alloc, b"Version")?)),
        ScriptRefusal::Syntax { at, .. } => Ok(Some(placed_kind(alloc, b"Syntax", *at)?)),
        ScriptRefusal::DuplicateProof { name } => {
            Ok(Some(named_kind(alloc, b"DuplicateProof ", name)?))
        }
        ScriptRefusal::Truncated => Ok(Some(copy_bytes(alloc, b"Truncated")?)),
        ScriptRefusal::TooManyNodes => Ok(None),
        ScriptRefusal::TooDeep { at, .. } => Ok(Some(placed_kind(alloc, b"TooDeep", *at)?)),
        ScriptRefusal::NoMemory => Err(NoMemory),
    }
}

// The line for a proof file that is refused for a kind of reason.
fn refusal_line(alloc: Global, file: &[u8], kind: &[u8]) -> Result<Vec<u8>, NoMemory>
    ensures { IfOk result (λ v. v.items ≡ script_refusal_text file.now kind.now) }
{
    let mut out = copy_bytes(alloc, b"refused ")?;
    out.extend_from_slice(file)?;
    out.push(b' ')?;
    out.extend_from_slice(kind)?;
    out.push(b'\n')?;
    Ok(out)
}

// The answer for a proof file of this name that is no file of scripts.
#[tactic(auto, using(crate::proofs::ScriptKinds::files))]
fn no_file(alloc: Global, file: &[u8], refusal: &ScriptRefusal) -> Result<Answer, NoMemory>
    ensures { IfOk result (λ a. TellsFile file.now refusal.now a.status a.text.items) }
{
    match kind_of(alloc, refusal)? {
        None => Ok(Answer {
            status: Status::Limit,
            text: too_many_steps(alloc)?,
        }),
        Some(kind) => Ok(Answer {
            status: Status::RefusedScript,
            text: refusal_line(alloc, file, &kind)?,
        }),
    }
}

// The answer for a proof file of this name with a proof of no obligation.
fn unknown(alloc: Global, file: &[u8], name: &[u8]) -> Result<Answer, NoMemory>
    ensures status { IfOk result (λ a. a.status ≡ Status.RefusedScript) }
    ensures text { IfOk result (λ a. a.text.items ≡ script_refusal_text file.now (unknown_kind name.now)) }
{
    let kind = named_kind(alloc, b"UnknownObligation ", name)?;
    Ok(Answer {
        status: Status::RefusedScript,
        text: refusal_line(alloc, file, &kind)?,
    })
}

/// The answer for a proof file of this name that gives no proofs.
pub fn unread(alloc: Global, file: &[u8], refusal: &ProofsRefusal) -> Result<Answer, NoMemory>
    ensures { IfOk result (λ a. IsUnreadAnswer file.now refusal.now a.status a.text.items) }
{
    match refusal {
        ProofsRefusal::File(refusal) => no_file(alloc, file, refusal),
        ProofsRefusal::UnknownObligation { name } => unknown(alloc, file, name),
    }
}

/// The proof, if there is one, that the bytes of a proof file have for the obligation of this name.
///
/// # Errors
///
/// Why they are no file of scripts for that obligation alone.
pub fn proof_of(
    alloc: Global,
    name: Vec<u8>,
    bytes: &[u8],
) -> Result<Option<ScriptTree>, ProofsRefusal>
    requires { length bytes.now ≤ 4294967295 }
    ensures { MatchResult result
        (λ p. HasProof name.items bytes.now (option_map tree_view p))
        (λ e. IsUnread (name.items ∷ []) (tokens_of bytes.now) e) }
{
    let names = [name];
    match proofs_for(alloc, &names, bytes) {
        Err(refusal) => Err(refusal),
        Ok(mut trees) => match trees.pop() {
            Some(tree) => Ok(tree),
            None => unreachable!(),
        },
    }
}
