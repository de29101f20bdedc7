//! Rows of Java texts: the tokens of a text, whether it is a file, and what the tables of the classes of files tell.
#![tactic(auto)]

mod refusals;
mod rows;
mod tables;
mod texts;
mod words;

use crate::rows::Rows;
use row_text::Answer;
use std::io;

fn main(rt: HostRuntime) -> io::Result<()> {
    let alloc = rt.alloc();
    let text = io::read_to_string(alloc, rt.reader())?;
    let mut rows = Rows::new(alloc);
    for line in text.as_str().lines() {
        let mut answer = Answer::new(alloc);
        if rows.take(&mut answer, alloc, line) {
            answer.print(&rt)?;
        }
    }
    Ok(())
}
