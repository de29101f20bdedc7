use jd_base::{MemoryLibrary, MemorySink, NoMemory};
use jdl::run;
use row_text::{Answer, first_word, unescaped};
use std::alloc::{AllocError, Global};
use std::str::from_utf8;

/// What the calls find.
#[derive(Drop)]
pub struct Outside {
    // the names of files and their texts
    files: Vec<(String, Vec<u8>)>,
    // the numbers of the reads and of the writes that fail
    failing_reads: Vec<u64>,
    failing_writes: Vec<u64>,
    // how many bytes the sink takes
    room: usize,
}

impl Outside {
    /// No files, no faults, and room for 4,096 bytes.
    pub fn new(alloc: Global) -> Outside {
        Outside {
            files: Vec::new(alloc),
            failing_reads: Vec::new(alloc),
            failing_writes: Vec::new(alloc),
            room: 4096,
        }
    }

    // Does what a line says that is no call; false where it says nothing that is known.
    fn set(&mut self, alloc: Global, command: &str, rest: &str) -> Result<bool, AllocError> {
        match command {
            "file" => self.put(alloc, rest),
            "add" => self.add(alloc, rest),
            "no-files" => {
                self.files.clear();
                Ok(true)
            }
            "read-fails" => {
                let numbers = numbers(alloc, rest)?;
                Ok(replaced(&mut self.failing_reads, numbers))
            }
            "write-fails" => {
                let numbers = numbers(alloc, rest)?;
                Ok(replaced(&mut self.failing_writes, numbers))
            }
            "room" => Ok(replaced(&mut self.room, rest.parse().ok())),
            _ => Ok(false),
        }
    }

    // `file NAME TEXT`: this is the only file of the name.
    fn put(&mut self, alloc: Global, rest: &str) -> Result<bool, AllocError> {
        let (name, text) = first_word(rest);
        let Some(bytes) = unescaped(alloc, text)? else {
            return Ok(false);
        };
        self.files.retain(|file| file.0.as_str() != name);
        self.files.push((String::from_str(alloc, name)?, bytes))?;
        Ok(true)
    }

    // `add NAME TEXT`: the file has this text too, at its end.
    fn add(&mut self, alloc: Global, rest: &str) -> Result<bool, AllocError> {
        let (name, text) = first_word(rest);
        let Some(more) = unescaped(alloc, text)? else {
            return Ok(false);
        };
        let mut added = false;
        for file in &mut self.files {
            if file.0.as_str() == name {
                file.1.extend_from_slice(&more)?;
                added = true;
            }
        }
        Ok(added)
    }

    // Tells the status and the report of the call with these words.
    fn call(&self, answer: &mut Answer, alloc: Global, words: &[String]) -> Result<(), NoMemory> {
        let mut library = MemoryLibrary::new(self.files.clone()?, self.failing_reads.clone()?);
        let mut sink = MemorySink::new(alloc, self.room, self.failing_writes.clone()?)?;
        let status = run(alloc, words, &mut library, &mut sink).code();
        answer.put_number(i128::from(status));
        if !sink.bytes().is_empty() {
            answer.put(" ");
            answer.put_bytes(sink.bytes());
        }
        Ok(())
    }

    fn tell_call(&self, answer: &mut Answer, alloc: Global, words: &[String]) {
        if self.call(answer, alloc, words).is_err() {
            answer.lack_memory();
        }
    }

    fn tell(&self, answer: &mut Answer, alloc: Global, words: &str) {
        match &words_of(alloc, words) {
            Ok(Some(words)) => self.tell_call(answer, alloc, words),
            Ok(None) => answer.put("no words"),
            Err(_) => answer.lack_memory(),
        }
    }

    /// Takes a line; whether there is an answer to it.
    pub fn take(&mut self, answer: &mut Answer, alloc: Global, line: &str) -> bool {
        let (command, rest) = first_word(line);
        if command.is_empty() || command.starts_with('#') {
            return false;
        }
        if command == "run" {
            self.tell(answer, alloc, rest);
            return true;
        }
        match self.set(alloc, command, rest) {
            Ok(true) => return false,
            Ok(false) => answer.put("no row"),
            Err(_) => answer.lack_memory(),
        }
        true
    }
}

// Puts what was read in its place; false where nothing was.
fn replaced<T: Drop>(place: &mut T, read: Option<T>) -> bool {
    match read {
        None => false,
        Some(value) => {
            *place = value;
            true
        }
    }
}

// The numbers of a line, one blank between two.
fn numbers(alloc: Global, text: &str) -> Result<Option<Vec<u64>>, AllocError> {
    let mut all = Vec::new(alloc);
    for word in text.split_whitespace() {
        let Ok(number) = word.parse() else {
            return Ok(None);
        };
        all.push(number)?;
    }
    Ok(Some(all))
}

// The words of a call, one blank between two.
fn words_of(alloc: Global, text: &str) -> Result<Option<Vec<String>>, AllocError> {
    let mut words = Vec::new(alloc);
    for piece in text.split_whitespace() {
        let Some(bytes) = unescaped(alloc, piece)? else {
            return Ok(None);
        };
        let Ok(lines) = from_utf8(&bytes) else {
            return Ok(None);
        };
        add_words(alloc, &mut words, lines)?;
    }
    Ok(Some(words))
}

// Adds a word, or several with a line feed between two. `""` is the empty word.
fn add_words(alloc: Global, words: &mut Vec<String>, lines: &str) -> Result<(), AllocError> {
    for word in lines.split('\n') {
        let word = if word == "\"\"" { "" } else { word };
        words.push(String::from_str(alloc, word)?)?;
    }
    Ok(())
}
