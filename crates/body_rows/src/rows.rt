//! Lines and what they ask.

use crate::answers::{Asked, ask};
use row_text::{Answer, first_word, unescaped};
use std::alloc::{AllocError, Global};

/// What lines set for those behind them: what stands before and behind each text, and the files before it.
#[derive(Drop)]
pub(crate) struct Rows {
    before: String,
    behind: String,
    files: Vec<Vec<u8>>,
}

impl Rows {
    pub(crate) fn new(alloc: Global) -> Rows {
        Rows {
            before: String::new(alloc),
            behind: String::new(alloc),
            files: Vec::new(alloc),
        }
    }

    fn set_around(&mut self, around: &str) -> Result<(), AllocError> {
        let (before, behind) = around.split_once('|').unwrap_or((around, ""));
        self.before.clear();
        self.before.push_str(before)?;
        self.behind.clear();
        self.behind.push_str(behind)?;
        Ok(())
    }

    // Adds a file; false where an escape is none.
    fn add_file(&mut self, alloc: Global, text: &str) -> Result<bool, AllocError> {
        match unescaped(alloc, text)? {
            Some(bytes) => self.files.push(bytes)?,
            None => return Ok(false),
        }
        Ok(true)
    }

    // Adds the last file, which stands between what is set.
    fn add_last(&mut self, alloc: Global, text: &str) -> Result<bool, AllocError> {
        let text = format!(in alloc; "{}{text}{}", self.before, self.behind)?;
        self.add_file(alloc, text.as_str())
    }

    // What a line sets, or whether its file is there.
    fn set(&mut self, alloc: Global, word: &str, rest: &str) -> Result<bool, AllocError> {
        match word {
            "around" => {
                self.set_around(rest)?;
                Ok(true)
            }
            "file" => self.add_file(alloc, rest),
            _ => self.add_last(alloc, rest),
        }
    }

    /// Takes a line: `around BEFORE|BEHIND`; `file TEXT` for a file before the next row's; or `body TEXT`, a row, whose text is the last file
    /// of a program, between BEFORE and BEHIND; `code TEXT` asks for the code of the bodies, `count TEXT` how many are made. Lines that are
    /// empty or begin with `#` are passed over. Whether there is an answer.
    pub(crate) fn take(&mut self, answer: &mut Answer, alloc: Global, line: &str) -> bool {
        if line.is_empty() || line.starts_with('#') {
            return false;
        }
        let (word, rest) = first_word(line);
        match self.set(alloc, word, rest) {
            Ok(true) => {}
            Ok(false) => answer.put("no text"),
            Err(_) => answer.lack_memory(),
        }
        let asked = match word {
            "body" => Asked::Refused,
            "code" => Asked::Code,
            "count" => Asked::Count,
            _ => return false,
        };
        ask(answer, alloc, &self.files, asked);
        self.files.clear();
        true
    }
}
