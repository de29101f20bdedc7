//! Rows of terms, formulas, code and sequents, as texts: what is read of each, and what the operations on them give.
//!
//! A line `java CLASSES` and the line `vars NAME:SORT ..` behind it say which names the rows below have. A row names a kind, an
//! operation on it, and its arguments; two texts have ` | ` between them. A line with `#` or nothing is passed over, and so is what
//! stands before the first line with classes.
//!
//! No function has a tree of its own to let go: what is made stays in the `Result` that it came in and is looked at there, since
//! to let go a value of many forms is dear to prove.
#![tactic(auto)]

mod formulas;
mod lines;
mod operations;
mod putting;
mod raising;
mod renaming;
mod replacing;
mod sequents;
mod setting;
mod stepping;
mod terms;
mod texts;

use crate::setting::{tables, variables};
use crate::texts::tell_same;
use jd_base::NoMemory;
use jd_syntax::VarDecl;
use jd_tparse::Names;
use row_text::{Answer, first_word};
use std::alloc::Global;
use std::io;

// What the row asks for.
fn tell(answer: &mut Answer, alloc: Global, names: &Names<'_>, row: &str) {
    let (kind, rest) = first_word(row);
    let (operation, text) = first_word(rest);
    match kind {
        "formula" => formulas::tell_closed(answer, alloc, names, operation, text),
        "open" => operations::tell(answer, alloc, names, operation, text),
        "term" => terms::tell(answer, alloc, names, operation, text),
        "sequent" => sequents::tell(answer, alloc, names, operation, text),
        "step" => stepping::tell(answer, alloc, names, operation, text),
        "lines" | "limits" => lines::tell(answer, alloc, names, kind, rest),
        "expression" => tell_same(answer, alloc, text),
        _ => answer.put("no such kind"),
    }
}

fn print_row(rt: &impl Print, alloc: Global, names: &Names<'_>, row: &str) -> io::Result<()> {
    let mut answer = Answer::new(alloc);
    tell(&mut answer, alloc, names, row);
    answer.print(rt)
}

fn print_rows(rt: &impl Print, alloc: Global, names: &Names<'_>, rows: &str) -> io::Result<()> {
    for row in rows.lines() {
        if !row.is_empty() && !row.starts_with('#') {
            print_row(rt, alloc, names, row)?;
        }
    }
    Ok(())
}

fn print_named(
    rt: &impl Print,
    alloc: Global,
    classes: &str,
    vars: &[VarDecl],
    rows: &str,
) -> io::Result<()> {
    match &tables(alloc, classes.as_bytes()) {
        Ok(classes) => print_rows(rt, alloc, &Names::new(classes, vars, &[]), rows),
        Err(_) => rt.println("no classes"),
    }
}

// What stands before the end of the line, and behind it.
fn first_line(text: &str) -> (&str, &str) {
    text.split_once('\n').unwrap_or((text, ""))
}

// The rows behind the line with the classes and that with the variables.
fn print_part(rt: &impl Print, alloc: Global, part: &str) -> io::Result<()> {
    let (classes, rest) = first_line(part);
    let (declared, rows) = first_line(rest);
    match &variables(alloc, declared) {
        Ok(vars) => print_named(rt, alloc, classes, vars, rows),
        Err(NoMemory) => rt.println("no memory"),
    }
}

fn print_parts(rt: &impl Print, alloc: Global, text: &str) -> io::Result<()> {
    for part in text.split("\njava ").skip(1) {
        print_part(rt, alloc, part)?;
    }
    Ok(())
}

fn main(rt: HostRuntime) -> io::Result<()> {
    let alloc = rt.alloc();
    let text = io::read_to_string(alloc, rt.reader())?;
    print_parts(&rt, alloc, text.as_str())
}
