//! Rows of texts in brackets, proof scripts and trees of steps. A row is an operation and a text; the answer to it is a line.
#![tactic(auto)]

mod brackets;
mod rows;
mod scripts;

use crate::rows::tell;
use row_text::Answer;
use std::alloc::Global;
use std::io;

fn print_row(rt: &impl Print, alloc: Global, row: &str) -> io::Result<()> {
    let mut answer = Answer::new(alloc);
    tell(&mut answer, alloc, row);
    answer.print(rt)
}

fn print_rows(rt: &impl Print, alloc: Global, rows: &str) -> io::Result<()> {
    for row in rows.lines() {
        if !row.is_empty() && !row.starts_with('#') {
            print_row(rt, alloc, row)?;
        }
    }
    Ok(())
}

fn main(rt: HostRuntime) -> io::Result<()> {
    let alloc = rt.alloc();
    let text = io::read_to_string(alloc, rt.reader())?;
    print_rows(&rt, alloc, text.as_str())
}
