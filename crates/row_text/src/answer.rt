use std::alloc::{AllocError, Global};
use std::io;

/// The answer to a row, as far as it is written. That memory ran out is remembered and printed in its place, so that what
/// writes it need not ask.
#[derive(Drop)]
pub struct Answer {
    text: String,
    whole: bool,
}

impl Answer {
    /// Nothing yet.
    pub fn new(alloc: Global) -> Answer {
        Answer {
            text: String::new(alloc),
            whole: true,
        }
    }

    /// Writes a text as it stands.
    pub fn put(&mut self, text: &str) {
        let done = self.text.push_str(text);
        self.note(done);
    }

    /// Writes a number.
    pub fn put_number(&mut self, number: i128) {
        let done = write!(self.text, "{number}");
        self.note(done);
    }

    /// Writes bytes on one line: `\n`, `\r`, `\t`, `\\`, and `\xHH` for each other byte that is not printed.
    pub fn put_bytes(&mut self, bytes: &[u8]) {
        for byte in bytes {
            self.put_byte(*byte);
        }
    }

    /// Writes the bytes that were made, where there was memory for them.
    pub fn put_made<E: Drop>(&mut self, made: Result<Vec<u8>, E>) {
        match made {
            Ok(bytes) => self.put_bytes(&bytes),
            Err(_) => self.lack_memory(),
        }
    }

    /// Remembers that memory ran out.
    pub fn lack_memory(&mut self) {
        self.whole = false;
    }

    /// Prints it as a line.
    pub fn print(&self, rt: &impl Print) -> io::Result<()> {
        if self.whole {
            rt.println(self.text.as_str())
        } else {
            rt.println("no memory")
        }
    }

    fn put_byte(&mut self, byte: u8) {
        match byte {
            b'\n' => self.put("\\n"),
            b'\r' => self.put("\\r"),
            b'\t' => self.put("\\t"),
            b'\\' => self.put("\\\\"),
            b' '..=b'~' => {
                let done = self.text.push(char::from(byte));
                self.note(done);
            }
            _ => {
                let done = write!(self.text, "\\x{byte:02x}");
                self.note(done);
            }
        }
    }

    fn note(&mut self, done: Result<(), AllocError>) {
        if done.is_err() {
            self.lack_memory();
        }
    }
}
