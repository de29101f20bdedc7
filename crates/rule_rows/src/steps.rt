//! Steps as a script writes them, and what they lead to.

ghost use Rattle.std.specs.Prelude.{◌≡◌, map};
ghost use Rattle.jd_model.specs.Sequents.{sequent_view};
ghost use Rattle.jd_spelled_trees.specs.Places.{IsSpelledSequent};
ghost use Rattle.jd_schema_trees.specs.TacletViews.{taclet};
ghost use Rattle.jd_sequent.specs.Obligations.{names_of, task_view};
ghost use Rattle.jd_table_steps.specs.Tables.{rule_rows};
ghost use Rattle.jd_tparse.specs.Programs.{AreSomeTables};

use crate::matches::tell_match;
use crate::sequents::sequent_of;
use crate::setting::{contracts, obligation};
use jd_base::NoMemory;
use jd_classes::Classes;
use jd_model::Sequent;
use jd_script::{Proof, ScriptRefusal, parse_script};
use jd_sequent::{Bad, Obligation, OfTask, Rule, Step, Task};
use jd_sequent_print::print_sequent;
use jd_taclet_rules::TacletRule;
use jd_tparse::Names;
use row_text::Answer;
use std::alloc::Global;

fn cause_name(bad: Bad) -> &'static str {
    match bad {
        Bad::UnknownRule => "UnknownRule",
        Bad::NoFormula => "NoFormula",
        Bad::NoPlace => "NoPlace",
        Bad::WrongPlaceKind => "WrongPlaceKind",
        Bad::NoMatch => "NoMatch",
        Bad::MissingInst => "MissingInst",
        Bad::BadInst => "BadInst",
        Bad::NoAssume => "NoAssume",
        Bad::NotFresh => "NotFresh",
        Bad::SideCondition => "SideCondition",
        Bad::NoContract => "NoContract",
        Bad::NoDecreases => "NoDecreases",
        Bad::TooLarge => "TooLarge",
        Bad::NoMemory => "NoMemory",
    }
}

// The premises, with ` / ` between two.
fn put_premises(answer: &mut Answer, alloc: Global, names: &Names<'_>, premises: &[Sequent]) {
    if premises.is_empty() {
        return answer.put("closed");
    }
    for i in 0..premises.len() {
        if i > 0 {
            answer.put(" / ");
        }
        answer.put_made(print_sequent(alloc, &premises[i], names));
    }
}

fn put_step(
    answer: &mut Answer,
    alloc: Global,
    names: &Names<'_>,
    premises: &Result<Vec<Sequent>, Bad>,
) {
    match premises {
        Ok(premises) => put_premises(answer, alloc, names, premises),
        Err(Bad::NoMemory) => answer.lack_memory(),
        Err(bad) => {
            answer.put("refused ");
            answer.put(cause_name(*bad));
        }
    }
}

fn take(
    answer: &mut Answer,
    alloc: Global,
    task: &Task<'_>,
    rules: &TacletRule,
    sequent: &Sequent,
    step: &Step,
)
    requires rows { map taclet rules.now.rows.items ≡ rule_rows }
    requires taken { IsSpelledSequent (names_of (task_view task.now)) (sequent_view sequent.now) }
{
    put_step(
        answer,
        alloc,
        &Names::of(task),
        &rules.apply(alloc, task, sequent, step),
    );
}

// The one step of the proofs.
fn step_of(proofs: &[Proof]) -> Option<&Step> {
    match proofs {
        [proof] => match proof.tree.nodes.as_slice() {
            [node] => match &node.step {
                Some(step) => Some(&**step),
                None => None,
            },
            _ => None,
        },
        _ => None,
    }
}

// The file of scripts with a proof of this one step.
fn script(alloc: Global, step: &str) -> Result<Vec<Proof>, ScriptRefusal> {
    let mut text = String::new(alloc);
    let _ = write!(text, "(jdl 1 (proof p {step}))");
    if text.len() > 4_294_967_295 {
        return Err(ScriptRefusal::NoMemory);
    }
    parse_script(alloc, text.as_bytes())
}

fn tell_step(
    answer: &mut Answer,
    alloc: Global,
    task: &Task<'_>,
    rules: &TacletRule,
    sequent: &Sequent,
    step: &str,
)
    requires rows { map taclet rules.now.rows.items ≡ rule_rows }
    requires taken { IsSpelledSequent (names_of (task_view task.now)) (sequent_view sequent.now) }
{
    match &script(alloc, step) {
        Ok(proofs) => match step_of(proofs) {
            Some(step) => take(answer, alloc, task, rules, sequent, step),
            None => answer.put("no step"),
        },
        Err(ScriptRefusal::NoMemory) => answer.lack_memory(),
        Err(_) => answer.put("no step"),
    }
}

fn tell_match_of(
    answer: &mut Answer,
    alloc: Global,
    task: &Task<'_>,
    rules: &TacletRule,
    sequent: &Sequent,
    step: &str,
)
    requires rows { map taclet rules.now.rows.items ≡ rule_rows }
{
    match &script(alloc, step) {
        Ok(proofs) => match step_of(proofs) {
            Some(step) => tell_match(answer, alloc, task, rules, sequent, step),
            None => answer.put("no step"),
        },
        Err(ScriptRefusal::NoMemory) => answer.lack_memory(),
        Err(_) => answer.put("no step"),
    }
}

fn tell_in(
    answer: &mut Answer,
    alloc: Global,
    task: &Task<'_>,
    rules: &TacletRule,
    sequent: &Sequent,
    asked: &str,
)
    requires rows { map taclet rules.now.rows.items ≡ rule_rows }
    requires taken { IsSpelledSequent (names_of (task_view task.now)) (sequent_view sequent.now) }
{
    match asked.strip_prefix("match ") {
        Some(step) => tell_match_of(answer, alloc, task, rules, sequent, step),
        None => tell_step(answer, alloc, task, rules, sequent, asked),
    }
}

fn tell_at(
    answer: &mut Answer,
    alloc: Global,
    classes: &Classes,
    rules: &TacletRule,
    obligation: &Obligation,
    row: &str,
)
    requires classes { AreSomeTables classes.now }
    requires rows { map taclet rules.now.rows.items ≡ rule_rows }
{
    let (asked, text) = row.split_once(" on ").unwrap_or((row, ""));
    let contracts = contracts(alloc);
    let task = Task::of(classes, &contracts, obligation);
    match &sequent_of(alloc, &Names::of(&task), text) {
        Ok(Some(sequent)) => tell_in(answer, alloc, &task, rules, sequent, asked),
        Ok(None) => answer.put("no sequent"),
        Err(NoMemory) => answer.lack_memory(),
    }
}

/// What the row asks for.
pub(crate) fn tell(
    answer: &mut Answer,
    alloc: Global,
    classes: &Classes,
    rules: &TacletRule,
    row: &str,
)
    requires classes { AreSomeTables classes.now }
    requires rows { map taclet rules.now.rows.items ≡ rule_rows }
{
    match &obligation(alloc) {
        Ok(obligation) => tell_at(answer, alloc, classes, rules, obligation, row),
        Err(NoMemory) => answer.lack_memory(),
    }
}
