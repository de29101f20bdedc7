//! Tries whole calls of `run` over files and a sink in memory. A line of the input sets what the calls behind it find,
//! or is a call: then a line of the output has the number of its status and what it wrote.
#![tactic(auto)]

mod outside;

use crate::outside::Outside;
use row_text::Answer;
use std::alloc::Global;
use std::io;

fn print_row(rt: &impl Print, alloc: Global, outside: &mut Outside, row: &str) -> io::Result<()> {
    let mut answer = Answer::new(alloc);
    if outside.take(&mut answer, alloc, row) {
        answer.print(rt)
    } else {
        Ok(())
    }
}

fn print_rows(rt: &impl Print, alloc: Global, rows: &str) -> io::Result<()> {
    let mut outside = Outside::new(alloc);
    for row in rows.lines() {
        print_row(rt, alloc, &mut outside, row)?;
    }
    Ok(())
}

fn main(rt: HostRuntime) -> io::Result<()> {
    let alloc = rt.alloc();
    let text = io::read_to_string(alloc, rt.reader())?;
    print_rows(&rt, alloc, text.as_str())
}
