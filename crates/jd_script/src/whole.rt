ghost use Rattle.std.specs.Prelude.{◌≤◌, length};
ghost use Rattle.jd_bracketed.specs.Tokens.{tokens_of};
ghost use Rattle.jd_bracketed.specs.TokenViews.{token_view};
ghost use Rattle.jd_scripts.specs.Answers.{limits_of, most_levels, most_steps};
ghost use Rattle.jd_scripts.specs.Machine.{FileNext};
ghost use Rattle.jd_scripts.specs.Results.{answer, ended, refused};
ghost use Rattle.jd_script.specs.ProofViews.{proofs_view};
ghost use Rattle.jd_script.specs.TurnViews.{limits_view, stop_view};
ghost use Rattle.jd_script.specs.StageViews.{state_view};
ghost use Rattle.jd_script.specs.declared.stop.Stop.TheVariants as stops;
ghost use Rattle.jd_script.specs.Answers.{Answers, AnswersAs, RefusesAs};

use crate::nodes::OpenProof;
use crate::proofs::Proofs;
use crate::refusal::ScriptRefusal;
use crate::stage::{Stage, Turn, stage_step};
use crate::stop::{Limits, Stop};
use jd_base::copy_bytes;
use jd_bracketed::{Kind, Token, Tokens};
use jd_scripts::Proof;
use std::alloc::Global;

// How many steps a proof may have.
const MOST_STEPS: usize = 500_000;

// How many levels of brackets the expression of an instantiation may have.
const MOST_LEVELS: usize = 1000;

// A second proof has that name.
fn duplicate(alloc: Global, token: Token<'_>) -> ScriptRefusal
    ensures { RefusesAs result (refused (token_view token.entry) (stop_view stops.Duplicate)) }
{
    let copy = match token.kind {
        Kind::Word(name) => copy_bytes(alloc, name),
        Kind::Open | Kind::Close | Kind::OpenSquare | Kind::CloseSquare | Kind::Bad => {
            copy_bytes(alloc, b"".as_slice())
        }
    };
    match copy {
        Ok(name) => ScriptRefusal::DuplicateProof { name },
        Err(_) => ScriptRefusal::NoMemory,
    }
}

// Why the text is refused at the token.
fn refusal(alloc: Global, stop: Stop, token: Token<'_>) -> ScriptRefusal
    ensures { RefusesAs result (refused (token_view token.entry) (stop_view stop)) }
{
    let at = token.at;
    match stop {
        Stop::Wrong => ScriptRefusal::Syntax { file: 0, at },
        Stop::Version => ScriptRefusal::Version,
        Stop::Duplicate => duplicate(alloc, token),
        Stop::TooManySteps => ScriptRefusal::TooManyNodes,
        Stop::TooDeep => ScriptRefusal::TooDeep { file: 0, at },
    }
}

// What the text is at its end.
fn finished(proofs: Proofs, proof: OpenProof, stage: Stage) -> Result<Vec<Proof>, ScriptRefusal>
    ensures { AnswersAs result (ended (state_view (proofs_view proofs) proof stage)) }
{
    match stage {
        Stage::FileEnd => Ok(proofs.done),
        Stage::FileNext
        | Stage::WordNext
        | Stage::VersionNext
        | Stage::ProofNext
        | Stage::ProofWord
        | Stage::NameNext
        | Stage::InProof(_) => Err(ScriptRefusal::Truncated),
    }
}

// The file that a text is, within these limits.
fn read_within(alloc: Global, bytes: &[u8], limits: Limits) -> Result<Vec<Proof>, ScriptRefusal>
    requires { length bytes.now ≤ 4294967295 }
    ensures { AnswersAs result (answer (limits_view limits) (tokens_of bytes.now) FileNext) }
{
    let mut tokens = Tokens::new(bytes);
    let mut proofs = Proofs::new(alloc);
    let mut proof = OpenProof::new(alloc, Vec::new(alloc));
    let mut stage = Stage::FileNext;
    while let Some(token) = tokens.next() {
        match stage_step(alloc, limits, &mut proofs, &mut proof, stage, token.kind) {
            Ok(Turn::Goes(next)) => stage = next,
            Ok(Turn::Stops(stop)) => return Err(refusal(alloc, stop, token)),
            Err(_) => return Err(ScriptRefusal::NoMemory),
        }
    }
    finished(proofs, proof, stage)
}

fn parse_within(alloc: Global, bytes: &[u8], limits: Limits) -> Result<Vec<Proof>, ScriptRefusal>
    requires { length bytes.now ≤ 4294967295 }
    ensures { Answers (limits_view limits) (tokens_of bytes.now) result }
{
    read_within(alloc, bytes, limits)
}

/// The proofs of the file of scripts that a text is, in their order: `(jdl 1 PROOF*)`, where a proof is `(proof NAME TREE)`,
/// and a tree is `-`, an open leaf, or `(RULE PLACE [PLACE*] [(NAME EXPR)*] TREE*)`: a rule, the place that it acts on, the
/// places of the assumed formulas, the instantiations, and the trees of the premises. A place is `-`, or `L` or `R` with
/// numbers, as `R1.4.2`; an expression is a bracketed one.
///
/// # Errors
///
/// The first of these in the text: `Version` at a version that is a number other than 1, `Syntax` at the first token with
/// which no file goes on though those before it begin one, `DuplicateProof` at the name of an earlier proof, `TooManyNodes` at
/// the bracket that opens step 500,001 of a proof, `TooDeep` at the bracket that opens level 1,001 of an expression,
/// `Truncated` where the text ends before the file does. `NoMemory` if memory runs out.
pub fn parse_script(alloc: Global, bytes: &[u8]) -> Result<Vec<Proof>, ScriptRefusal>
    requires { length bytes.now ≤ 4294967295 }
    ensures { Answers (limits_of most_steps most_levels) (tokens_of bytes.now) result }
{
    let limits = Limits {
        steps: MOST_STEPS,
        levels: MOST_LEVELS,
    };
    parse_within(alloc, bytes, limits)
}
