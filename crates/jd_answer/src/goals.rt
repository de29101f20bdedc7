//! What is said of the goals that a proof leaves.

ghost use Rattle.std.specs.Prelude.{◌≡◌, ◌++◌, IfOk, OnOk, codes, map};
ghost use Rattle.std.specs.Fmt.{decimal};
ghost use Rattle.jd_answer.specs.Reports.{goals_from, goals_text, line, said_of_verdict};
ghost use Rattle.jd_model.specs.Sequents.{sequent_view};
ghost use Rattle.jd_sequent_print.specs.Lines.{sequent_text};

use crate::text::add_decimal;
use jd_base::NoMemory;
use jd_print::NameTexts;
use jd_replay::Verdict;
use jd_sequent::Sequent;
use jd_tparse::print_sequent;
use std::alloc::Global;

// Adds a goal with its number.
fn add_goal<N: NameTexts>(
    alloc: Global,
    out: &mut Vec<u8>,
    names: &N,
    number: u64,
    goal: &Sequent,
) -> Result<(), NoMemory>
    ensures { OnOk result (out.new.items ≡ out.old.items ++ (line (codes "goal " ++ decimal number) ++ sequent_text (N.table names.now) (sequent_view goal.now))) }
{
    let text = print_sequent(alloc, goal, names)?;
    out.extend_from_slice(b"goal ")?;
    add_decimal(alloc, out, number)?;
    out.push(b'\n')?;
    out.extend_from_slice(&text)?;
    Ok(())
}

// Adds each goal with its number, from 1 on.
#[tactic(auto, using(jd_syntax::proofs::Lists::rest))]
fn add_goals<N: NameTexts>(
    alloc: Global,
    out: &mut Vec<u8>,
    names: &N,
    goals: &[Sequent],
) -> Result<(), NoMemory>
    ensures { OnOk result (out.new.items ≡ out.old.items ++ goals_from (N.table names.now) 1 (map sequent_view goals.now)) }
{
    for i in 0..goals.len() {
        add_goal(alloc, out, names, i as u64 + 1, &goals[i])?;
    }
    Ok(())
}

/// What is said of the goals that a verdict leaves: all of them where they are asked for, and nothing else.
pub fn said_of<N: NameTexts>(
    alloc: Global,
    names: &N,
    asked: bool,
    verdict: &Verdict,
) -> Result<Vec<u8>, NoMemory>
    ensures { IfOk result (λ v. v.items ≡ said_of_verdict (goals_text asked (N.table names.now)) verdict.now) }
{
    let mut out = Vec::new(alloc);
    if !asked {
        return Ok(out);
    }
    match verdict {
        Verdict::Open { goals } => add_goals(alloc, &mut out, names, goals)?,
        Verdict::Closed { .. } | Verdict::Bad { .. } => {}
    }
    Ok(out)
}
