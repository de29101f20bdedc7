//! Rows of JML: the clauses that a text has at a place, or why it has none, how they are printed, and the clauses of whole files.
#![tactic(auto)]

mod blocks;
mod files;
mod printing;
mod rows;

use crate::rows::tell;
use row_text::Answer;
use std::io;

fn main(rt: HostRuntime) -> io::Result<()> {
    let alloc = rt.alloc();
    let text = io::read_to_string(alloc, rt.reader())?;
    for line in text.as_str().lines() {
        if line.is_empty() || line.starts_with('#') {
            continue;
        }
        let mut answer = Answer::new(alloc);
        tell(&mut answer, alloc, line);
        answer.print(&rt)?;
    }
    Ok(())
}
