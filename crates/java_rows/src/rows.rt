//! Lines and what they ask.

ghost use Rattle.std.specs.Prelude.{◌≤◌, length, IsTrue};
ghost use Rattle.std.specs.List.{All};

use crate::refusals::put_files_refusal;
use crate::tables::tell;
use crate::texts::{GREATEST_LENGTH, tell_java, tell_source, tell_tokens};
use jd_files::classes_of;
use row_text::{Answer, first_word, unescaped};
use std::alloc::{AllocError, Global};

/// How many files there may be.
const GREATEST_COUNT: usize = 64;

/// What lines set for those behind them: what stands before and behind each text, and the files of a program.
#[derive(Drop)]
pub(crate) struct Rows {
    before: String,
    behind: String,
    files: Vec<Vec<u8>>,
}

fn are_short(files: &[Vec<u8>]) -> bool
    ensures { IsTrue result → All (λ f. length f.items ≤ 1048576) files.now }
{
    files.iter().all(|file| file.len() <= GREATEST_LENGTH)
}

// The answer of the tables of these files, or why there are none.
fn ask(answer: &mut Answer, alloc: Global, files: &[Vec<u8>], word: &str, rest: &str) {
    if files.len() > GREATEST_COUNT || !are_short(files) {
        return answer.put("too long");
    }
    match &classes_of(alloc, files) {
        Ok(classes) => tell(answer, alloc, classes, word, rest),
        Err(refusal) => put_files_refusal(answer, refusal),
    }
}

// What is asked of a text.
fn ask_text(answer: &mut Answer, alloc: Global, word: &str, text: &[u8]) {
    match word {
        "tokens" => tell_tokens(answer, alloc, text),
        "java" => tell_java(answer, alloc, text),
        _ => tell_source(answer, alloc, text),
    }
}

// A text so many times, each with its number in the place of `|`.
fn numbered(alloc: Global, row: &str) -> Result<String, AllocError> {
    let (count, text) = first_word(row);
    let (before, behind) = text.split_once('|').unwrap_or((text, ""));
    let mut all = String::new(alloc);
    for number in 0..count.parse::<u32>().unwrap_or(0) {
        write!(all, "{before}{number}{behind}")?;
    }
    Ok(all)
}

impl Rows {
    pub(crate) fn new(alloc: Global) -> Rows {
        Rows {
            before: String::new(alloc),
            behind: String::new(alloc),
            files: Vec::new(alloc),
        }
    }

    // The bytes of a text, where its escapes are ones.
    fn bytes_of(&self, alloc: Global, text: &str) -> Result<Option<Vec<u8>>, AllocError> {
        let text = format!(in alloc; "{}{text}{}", self.before, self.behind)?;
        unescaped(alloc, text.as_str())
    }

    fn set_around(&mut self, around: &str) -> Result<bool, AllocError> {
        let (before, behind) = around.split_once('|').unwrap_or((around, ""));
        self.before.clear();
        self.before.push_str(before)?;
        self.behind.clear();
        self.behind.push_str(behind)?;
        Ok(true)
    }

    fn forget_files(&mut self) -> Result<bool, AllocError> {
        self.files.clear();
        Ok(true)
    }

    // Adds the file; false where an escape is none.
    fn add_file(&mut self, alloc: Global, text: &str) -> Result<bool, AllocError> {
        match self.bytes_of(alloc, text)? {
            Some(bytes) => self.files.push(bytes)?,
            None => return Ok(false),
        }
        Ok(true)
    }

    fn add_numbered(&mut self, alloc: Global, row: &str) -> Result<bool, AllocError> {
        let text = numbered(alloc, row)?;
        self.add_file(alloc, text.as_str())
    }

    // Sets what a line says; whether it says that.
    fn set(&mut self, alloc: Global, word: &str, rest: &str) -> Result<bool, AllocError> {
        match word {
            "around" => self.set_around(rest),
            "files" => self.forget_files(),
            "file" => self.add_file(alloc, rest),
            "numbered" => self.add_numbered(alloc, rest),
            _ => Ok(false),
        }
    }

    // What a line asks that sets nothing.
    fn tell(&self, answer: &mut Answer, alloc: Global, word: &str, rest: &str) {
        if !matches!(word, "tokens" | "java" | "read") {
            return ask(answer, alloc, &self.files, word, rest);
        }
        match &self.bytes_of(alloc, rest) {
            Ok(Some(bytes)) => ask_text(answer, alloc, word, bytes),
            Ok(None) => answer.put("no text"),
            Err(_) => answer.lack_memory(),
        }
    }

    /// Takes a line: `around BEFORE|BEHIND`, `files` for none yet, `file TEXT` for one more, `numbered COUNT TEXT` for one
    /// more of that text so many times, and the rows `tokens TEXT`, `java TEXT`, `read TEXT` and those of tables. The texts between stand
    /// between BEFORE and BEHIND. Lines that are empty or begin with `#` are passed over. Whether there is an answer.
    pub(crate) fn take(&mut self, answer: &mut Answer, alloc: Global, line: &str) -> bool {
        if line.is_empty() || line.starts_with('#') {
            return false;
        }
        let (word, rest) = first_word(line);
        match self.set(alloc, word, rest) {
            Ok(true) => return false,
            Ok(false) => self.tell(answer, alloc, word, rest),
            Err(_) => answer.lack_memory(),
        }
        true
    }
}
