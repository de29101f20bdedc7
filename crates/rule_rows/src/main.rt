//! Rows of steps by the rules: a line `STEP on ((FORMULA ..) (FORMULA ..))` asks for the premises of the step, written as a script writes
//! it, at the sequent with these formulas on its left and right. `match STEP on (..)` asks what the row of the step's name finds at its place, and
//! where no row has the name what an example finds, with what its goals add. A line with `#` is printed as it stands.
//!
//! What is made stays in the `Result` that it came in and is looked at there, since to let go a value of many forms is dear to prove.
#![tactic(auto)]

ghost use Rattle.std.specs.Prelude.{◌≡◌, map};
ghost use Rattle.jd_schema_trees.specs.TacletViews.{taclet};
ghost use Rattle.jd_table_steps.specs.Tables.{rule_rows};
ghost use Rattle.jd_tparse.specs.Programs.{AreSomeTables};

mod matches;
mod sequents;
mod setting;
mod steps;

use crate::setting::{rules, tables};
use crate::steps::tell;
use jd_classes::Classes;
use jd_taclet_rules::TacletRule;
use row_text::Answer;
use std::alloc::Global;
use std::io;

fn print_row(
    rt: &impl Print,
    alloc: Global,
    classes: &Classes,
    rules: &TacletRule,
    row: &str,
) -> io::Result<()>
    requires classes { AreSomeTables classes.now }
    requires rows { map taclet rules.now.rows.items ≡ rule_rows }
{
    if row.starts_with('#') {
        return rt.println(row);
    }
    let mut answer = Answer::new(alloc);
    tell(&mut answer, alloc, classes, rules, row);
    answer.print(rt)
}

fn print_rows(
    rt: &impl Print,
    alloc: Global,
    classes: &Classes,
    rules: &TacletRule,
    text: &str,
) -> io::Result<()>
    requires classes { AreSomeTables classes.now }
    requires rows { map taclet rules.now.rows.items ≡ rule_rows }
{
    for row in text.lines() {
        print_row(rt, alloc, classes, rules, row)?;
    }
    Ok(())
}

fn main(rt: HostRuntime) -> io::Result<()> {
    let alloc = rt.alloc();
    let text = io::read_to_string(alloc, rt.reader())?;
    match (&tables(alloc, b"class C { void m() {} }"), &rules(alloc)) {
        (Ok(classes), Ok(rules)) => print_rows(&rt, alloc, classes, rules, text.as_str()),
        _ => rt.println("no memory"),
    }
}
