//! What is told of Java files that are no program's.

ghost use Rattle.std.specs.Prelude.{◌≡◌, ◌<◌, ◌++◌, ◌∷◌, length, codes, IfOk, OnOk, MatchOption, option_map};
ghost use Rattle.jd_source.specs.Sources.{reason_of};
ghost use Rattle.jd_source.specs.declared.read.SourceRefusal.TheVariants.{Lexical, Grammatical};
ghost use Rattle.jd_files.specs.Refusals.{IsInFiles, OfClasses, OfFile, class_refusal_of};
ghost use Rattle.jd_answer.specs.Refusing.{NamesOneOf, TellsOf, TellsPlace, plain_refusal};
ghost use Rattle.jd_answer.specs.Reports.{placed_refusal_text, placed_text, reason_text, refusal_text};
ghost use Rattle.jd_answer.specs.Words.{word_texts};

use crate::answer::Answer;
use crate::status::Status;
use crate::text::{add_placed, too_many_classes, too_many_methods};
use jd_base::{NoMemory, copy_bytes};
use jd_classes::ClassRefusal;
use jd_files::FilesRefusal;
use jd_jparse::ParseRefusal;
use jd_lex::LexRefusal;
use jd_source::SourceRefusal;
use std::alloc::Global;

// Adds a token that is not supported, and its place.
fn add_unsupported(alloc: Global, out: &mut Vec<u8>, at: u32, what: &[u8]) -> Result<(), NoMemory>
    ensures { OnOk result (out.new.items ≡ out.old.items ++ (placed_text (codes "Unsupported") at ++ (32 ∷ what.now))) }
{
    add_placed(alloc, out, b"Unsupported", at)?;
    out.push(b' ')?;
    out.extend_from_slice(what)?;
    Ok(())
}

// Adds why a text has no tokens.
fn add_fault(alloc: Global, out: &mut Vec<u8>, refusal: &LexRefusal) -> Result<(), NoMemory>
    ensures { OnOk result (MatchOption (reason_of (Lexical refusal.now)) ⊥
        (λ r. out.new.items ≡ out.old.items ++ reason_text r)) }
{
    match refusal {
        LexRefusal::BadByte { at, .. } => add_placed(alloc, out, b"BadByte", *at),
        LexRefusal::OpenComment { at, .. } => add_placed(alloc, out, b"OpenComment", *at),
        LexRefusal::BigLiteral { at, .. } => add_placed(alloc, out, b"BigLiteral", *at),
        LexRefusal::NoMemory => Err(NoMemory),
    }
}

// Adds why tokens are no file's.
fn add_misfit(alloc: Global, out: &mut Vec<u8>, refusal: &ParseRefusal) -> Result<(), NoMemory>
    ensures { OnOk result (MatchOption (reason_of (Grammatical refusal.now)) ⊥
        (λ r. out.new.items ≡ out.old.items ++ reason_text r)) }
{
    match refusal {
        ParseRefusal::Syntax { at, .. } => add_placed(alloc, out, b"Syntax", *at),
        ParseRefusal::Unsupported { at, what, .. } => add_unsupported(alloc, out, *at, what),
        ParseRefusal::TooDeep { at, .. } => add_placed(alloc, out, b"TooDeep", *at),
        ParseRefusal::NoMemory => Err(NoMemory),
    }
}

// Adds why a file is not read.
fn add_reason(alloc: Global, out: &mut Vec<u8>, refusal: &SourceRefusal) -> Result<(), NoMemory>
    ensures { OnOk result (MatchOption (reason_of refusal.now) ⊥
        (λ r. out.new.items ≡ out.old.items ++ reason_text r)) }
{
    match refusal {
        SourceRefusal::Lexical(refusal) => add_fault(alloc, out, refusal),
        SourceRefusal::Grammatical(refusal) => add_misfit(alloc, out, refusal),
    }
}

// The line that tells why a file is not read.
fn refusal_line(alloc: Global, name: &[u8], refusal: &SourceRefusal) -> Result<Vec<u8>, NoMemory>
    ensures { IfOk result (λ v. MatchOption (reason_of refusal.now) ⊥ (λ r. v.items ≡ refusal_text name.now r)) }
{
    let mut out = copy_bytes(alloc, b"refused ")?;
    out.extend_from_slice(name)?;
    out.push(b' ')?;
    add_reason(alloc, &mut out, refusal)?;
    out.push(b'\n')?;
    Ok(out)
}

// The line that tells why classes are refused.
fn class_refusal_line(alloc: Global, name: &[u8], kind: &[u8], at: u32) -> Result<Vec<u8>, NoMemory>
    ensures { IfOk result (λ v. v.items ≡ placed_refusal_text name.now kind.now at) }
{
    let mut out = copy_bytes(alloc, b"refused ")?;
    out.extend_from_slice(name)?;
    out.push(b' ')?;
    add_placed(alloc, &mut out, kind, at)?;
    out.push(b'\n')?;
    Ok(out)
}

// The answer for a refusal of classes that has a place in the file of this number.
pub(crate) fn placed(
    alloc: Global,
    names: &[String],
    kind: &[u8],
    file: u32,
    at: u32,
) -> Result<Answer, NoMemory>
    requires { file < length names.now }
    ensures { IfOk result (λ a. TellsPlace (word_texts names.now) kind.now file at a.status a.text.items) }
{
    let name = names[file as usize].as_bytes();
    Ok(Answer {
        status: Status::RefusedSource,
        text: class_refusal_line(alloc, name, kind, at)?,
    })
}

// The answer for a refusal of classes.
fn classes_answer(
    alloc: Global,
    names: &[String],
    refusal: ClassRefusal,
) -> Result<Answer, NoMemory>
    requires { IsInFiles refusal (length names.now) }
    ensures { IfOk result (λ a. TellsOf (word_texts names.now) (option_map OfClasses (class_refusal_of refusal)) a.status a.text.items) }
{
    match refusal {
        ClassRefusal::DuplicateClass { file, at } => {
            placed(alloc, names, b"DuplicateClass", file, at)
        }
        ClassRefusal::UnknownSuper { file, at } => placed(alloc, names, b"UnknownSuper", file, at),
        ClassRefusal::CyclicExtends { file, at } => {
            placed(alloc, names, b"CyclicExtends", file, at)
        }
        ClassRefusal::DuplicateMember { file, at } => {
            placed(alloc, names, b"DuplicateMember", file, at)
        }
        ClassRefusal::Hiding { file, at } => placed(alloc, names, b"Hiding", file, at),
        ClassRefusal::Overload { file, at } => placed(alloc, names, b"Overload", file, at),
        ClassRefusal::BadOverride { file, at } => placed(alloc, names, b"BadOverride", file, at),
        ClassRefusal::TooManyClasses => Ok(Answer {
            status: Status::Limit,
            text: too_many_classes(alloc)?,
        }),
        ClassRefusal::TooManyMethods => Ok(Answer {
            status: Status::Limit,
            text: too_many_methods(alloc)?,
        }),
        ClassRefusal::NoMemory => Err(NoMemory),
    }
}

// The answer for the file of this number, which is none.
fn file_answer(
    alloc: Global,
    names: &[String],
    number: u32,
    refusal: &SourceRefusal,
) -> Result<Answer, NoMemory>
    requires { number < length names.now }
    ensures { IfOk result (λ a. TellsOf (word_texts names.now) (option_map (OfFile number) (reason_of refusal.now)) a.status a.text.items) }
{
    let name = names[number as usize].as_bytes();
    Ok(Answer {
        status: Status::RefusedSource,
        text: refusal_line(alloc, name, refusal)?,
    })
}

/// The answer for files of these names that are no program's.
pub fn refused(alloc: Global, names: &[String], refusal: FilesRefusal) -> Result<Answer, NoMemory>
    requires { NamesOneOf refusal (length names.now) }
    ensures { IfOk result (λ a. TellsOf (word_texts names.now) (plain_refusal refusal) a.status a.text.items) }
{
    match refusal {
        FilesRefusal::File(number, refusal) => file_answer(alloc, names, number, &refusal),
        FilesRefusal::Classes(refusal) => classes_answer(alloc, names, refusal),
        FilesRefusal::NoMemory => Err(NoMemory),
    }
}
