//! What is told of Java files of which a token of a body or of JML is refused.

ghost use Rattle.std.specs.Prelude.{◌≡◌, ◌<◌, List, length, IfOk};
ghost use Rattle.jd_syntax.specs.JavaTrees.{JavaUnit};
ghost use Rattle.jd_refusals.specs.Resolving.{IsRefused};
ghost use Rattle.jd_answer.specs.Refusing.{TellsPlace, TellsToken};
ghost use Rattle.jd_answer.specs.Reports.{body_kind, jml_kind, token_kind};
ghost use Rattle.jd_answer.specs.Words.{word_texts};

use crate::answer::Answer;
use crate::java::placed;
use jd_base::NoMemory;
use jd_bodies::Cause;
use jd_refusals::{Refusal, Refused, ResolveRefusal, one_refusal};
use jd_specifications::SpecCause;
use std::alloc::Global;

fn body_word(cause: Cause) -> &'static [u8]
    ensures { result.now ≡ body_kind cause }
{
    match cause {
        Cause::UnknownName => b"UnknownName",
        Cause::UnknownClass => b"UnknownClass",
        Cause::UnknownMethod => b"UnknownMethod",
        Cause::TypeMismatch => b"TypeMismatch",
        Cause::WrongArity => b"WrongArity",
        Cause::BadTarget => b"BadTarget",
        Cause::BadLabel => b"BadLabel",
        Cause::Redeclared => b"Redeclared",
    }
}

fn jml_word(cause: SpecCause) -> &'static [u8]
    ensures { result.now ≡ jml_kind cause }
{
    match cause {
        SpecCause::UnknownName => b"UnknownName",
        SpecCause::TypeMismatch => b"TypeMismatch",
        SpecCause::ResultHere => b"ResultHere",
        SpecCause::OldHere => b"OldHere",
        SpecCause::InvariantRecursion => b"InvariantRecursion",
        SpecCause::CallInSpec => b"CallInSpec",
        SpecCause::BadClause => b"BadClause",
    }
}

// What the refusal of a token is called.
fn token_word(why: Refusal) -> &'static [u8]
    ensures { result.now ≡ token_kind why }
{
    match why {
        Refusal::Body(cause) => body_word(cause),
        Refusal::Jml(cause) => jml_word(cause),
    }
}

// The answer for a refused token.
fn token_answer(alloc: Global, names: &[String], refused: Refused) -> Result<Answer, NoMemory>
    requires { refused.file < length names.now }
    ensures { IfOk result (λ a. TellsPlace (word_texts names.now) (token_kind refused.why) refused.file refused.at a.status a.text.items) }
{
    placed(
        alloc,
        names,
        token_word(refused.why),
        refused.file,
        refused.at,
    )
}

/// The answer for Java files of these names, where a token of a body or of JML is refused.
pub fn refused_token(
    alloc: Global,
    names: &[String],
    refusal: ResolveRefusal,
) -> Result<Answer, NoMemory>
    requires { (units : List JavaUnit) × IsRefused units refusal × (length units ≡ length names.now) }
    ensures { (units : List JavaUnit) → IsRefused units refusal → IfOk result (λ a. TellsToken (word_texts names.now) units a.status a.text.items) }
{
    one_refusal();
    match refusal {
        ResolveRefusal::Refused(refused) => token_answer(alloc, names, refused),
        ResolveRefusal::NoMemory => Err(NoMemory),
    }
}
