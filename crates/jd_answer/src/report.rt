ghost use Rattle.std.specs.Prelude.{◌≡◌, ◌++◌, codes, IfOk, OnOk};
ghost use Rattle.std.specs.Fmt.{decimal};
ghost use Rattle.jd_answer.specs.Reports.{bad_kind, cause_text, closed_text, open_text, missing_text, bad_text, verdict_status, verdict_text};

use crate::status::Status;
use crate::text::add_decimal;
use jd_base::{NoMemory, copy_bytes};
use jd_replay::{Cause, Verdict};
use jd_sequent::Bad;
use std::alloc::Global;

/// The number and the name of a cause of refusal.
fn bad_kind(bad: &Bad) -> &'static [u8]
    ensures { result.now ≡ bad_kind bad.now }
{
    match bad {
        Bad::UnknownRule => b"1 UnknownRule",
        Bad::NoFormula => b"2 NoFormula",
        Bad::NoPlace => b"3 NoPlace",
        Bad::WrongPlaceKind => b"4 WrongPlaceKind",
        Bad::NoMatch => b"5 NoMatch",
        Bad::MissingInst => b"6 MissingInst",
        Bad::BadInst => b"7 BadInst",
        Bad::NoAssume => b"8 NoAssume",
        Bad::NotFresh => b"9 NotFresh",
        Bad::SideCondition => b"10 SideCondition",
        Bad::NoContract => b"11 NoContract",
        Bad::NoDecreases => b"12 NoDecreases",
        Bad::TooLarge => b"13 TooLarge",
        Bad::NoMemory => b"14 NoMemory",
    }
}

// Adds the numbers of children that a script has and of premises that a rule gives.
fn add_counts(alloc: Global, out: &mut Vec<u8>, script: u64, rule: u64) -> Result<(), NoMemory>
    ensures { OnOk result
        (out.new.items ≡ out.old.items ++ (codes "15 BranchCount " ++ (decimal script ++ (codes " " ++ decimal rule)))) }
{
    out.extend_from_slice(b"15 BranchCount ")?;
    add_decimal(alloc, out, script)?;
    out.extend_from_slice(b" ")?;
    add_decimal(alloc, out, rule)?;
    Ok(())
}

// Adds the cause of a bad step.
fn add_cause(alloc: Global, out: &mut Vec<u8>, cause: &Cause) -> Result<(), NoMemory>
    ensures { OnOk result (out.new.items ≡ out.old.items ++ cause_text cause.now) }
{
    match cause {
        Cause::Rule(bad) => out.extend_from_slice(bad_kind(bad))?,
        Cause::BranchCount { script, rule } => {
            add_counts(alloc, out, u64::from(*script), u64::from(*rule))?;
        }
    }
    Ok(())
}

// The report of a proof that leaves nothing to be shown.
fn closed(alloc: Global, name: &[u8], steps: u64) -> Result<Vec<u8>, NoMemory>
    ensures { IfOk result (λ v. v.items ≡ closed_text name.now steps) }
{
    let mut out = copy_bytes(alloc, name)?;
    out.extend_from_slice(b" closed ")?;
    add_decimal(alloc, &mut out, steps)?;
    out.extend_from_slice(b"\naccepted 1 of 1\n")?;
    Ok(out)
}

// The report of a proof that leaves this many goals, with what is said of them.
fn open(alloc: Global, name: &[u8], said: &[u8], goals: u64) -> Result<Vec<u8>, NoMemory>
    ensures { IfOk result (λ v. v.items ≡ open_text name.now said.now goals) }
{
    let mut out = copy_bytes(alloc, name)?;
    out.extend_from_slice(b" open ")?;
    add_decimal(alloc, &mut out, goals)?;
    out.push(b'\n')?;
    out.extend_from_slice(said)?;
    out.extend_from_slice(b"accepted 0 of 1\n")?;
    Ok(out)
}

// The report of a proof with a bad step.
fn bad(alloc: Global, name: &[u8], node: u64, cause: &Cause) -> Result<Vec<u8>, NoMemory>
    ensures { IfOk result (λ v. v.items ≡ bad_text name.now node cause.now) }
{
    let mut out = copy_bytes(alloc, name)?;
    out.extend_from_slice(b" bad ")?;
    add_decimal(alloc, &mut out, node)?;
    out.extend_from_slice(b" ")?;
    add_cause(alloc, &mut out, cause)?;
    out.extend_from_slice(b"\naccepted 0 of 1\n")?;
    Ok(out)
}

/// The report of a script without a proof.
pub fn missing(alloc: Global, name: &[u8]) -> Result<Vec<u8>, NoMemory>
    ensures { IfOk result (λ v. v.items ≡ missing_text name.now) }
{
    let mut out = copy_bytes(alloc, name)?;
    out.extend_from_slice(b" missing\naccepted 0 of 1\n")?;
    Ok(out)
}

/// The status of a verdict.
pub fn status_of(verdict: &Verdict) -> Status
    ensures { result ≡ verdict_status verdict.now }
{
    match verdict {
        Verdict::Closed { .. } => Status::Done,
        Verdict::Open { .. } | Verdict::Bad { .. } => Status::NotAccepted,
    }
}

/// The report of a verdict, with what is said of the goals that are left.
pub fn text_of(
    alloc: Global,
    name: &[u8],
    said: &[u8],
    verdict: &Verdict,
) -> Result<Vec<u8>, NoMemory>
    ensures { IfOk result (λ v. v.items ≡ verdict_text name.now said.now verdict.now) }
{
    match verdict {
        Verdict::Closed { steps } => closed(alloc, name, *steps),
        Verdict::Open { goals } => open(alloc, name, said, goals.len() as u64),
        Verdict::Bad { node, cause } => bad(alloc, name, *node, cause),
    }
}
