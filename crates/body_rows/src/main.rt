//! Rows of bodies: which token of the bodies of Java's methods is refused first, or that none is; and what bodies are resolved to.
#![tactic(auto)]

mod answers;
mod rows;

use crate::rows::Rows;
use row_text::Answer;
use std::io;

fn main(rt: HostRuntime) -> io::Result<()> {
    let alloc = rt.alloc();
    let text = io::read_to_string(alloc, rt.reader())?;
    let mut rows = Rows::new(alloc);
    for line in text.as_str().lines() {
        let mut answer = Answer::new(alloc);
        if rows.take(&mut answer, alloc, line) {
            answer.print(&rt)?;
        }
    }
    Ok(())
}
