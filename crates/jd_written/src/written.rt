ghost use Rattle.std.specs.Prelude.{◌≡◌, pos, [], ◌++◌, cond, codes, OnOk};
ghost use Rattle.jd_bracketed.specs.Tokens as tokens;
ghost use Rattle.jd_written.specs.Written.{empty_text, integer_text, number_text, write};

use itoa::Buffer;
use jd_base::NoMemory;
use std::alloc::Global;
use std::marker::Model;

/// Adds a number's decimal digits to a text.
pub fn add_number(text: &mut Vec<u8>, n: u64) -> Result<(), NoMemory>
    ensures { OnOk result (text.new.items ≡ text.old.items ++ number_text n) }
{
    let mut digits = Buffer::new();
    text.extend_from_slice(digits.format(n).as_bytes())?;
    Ok(())
}

/// A text of ASCII that is written token by token: one space between two tokens, none behind an opening bracket and none before a
/// closing one. Contracts see the bytes, and whether the next token follows without a space.
///
/// Where a call runs out of memory, part of its token may be written.
#[derive(Drop)]
pub struct Written {
    bytes: Vec<u8>,
    /// Whether the next token follows without a space: at the start, and behind an opening bracket.
    tight: bool,
}

impl Model for Written {
    ghost use Rattle.jd_written.specs.Written.{Text};

    ghost Value = { Text };

    ghost view = { λ w. (w.bytes.items, w.tight) };
}

impl Written {
    /// A text with no token.
    pub fn new(alloc: Global) -> Written
        ensures { result ≡ empty_text }
    {
        Written {
            bytes: Vec::new(alloc),
            tight: true,
        }
    }

    // Adds a token's text, behind a space where it takes one.
    fn add(&mut self, spaced: bool, text: &[u8], tight: bool) -> Result<(), NoMemory>
        ensures { OnOk result (self.new
            ≡ (self.old.0 ++ (cond spaced (codes " ") [] ++ text.now), tight)) }
    {
        if spaced {
            self.bytes.push(b' ')?;
        }
        self.bytes.extend_from_slice(text)?;
        self.tight = tight;
        Ok(())
    }

    /// Writes `(`.
    pub fn open(&mut self) -> Result<(), NoMemory>
        ensures { OnOk result (self.new ≡ write self.old tokens.Open) }
    {
        self.add(!self.tight, b"(", true)
    }

    /// Writes `)`.
    pub fn close(&mut self) -> Result<(), NoMemory>
        ensures { OnOk result (self.new ≡ write self.old tokens.Close) }
    {
        self.add(false, b")", false)
    }

    /// Writes `[`.
    pub fn open_square(&mut self) -> Result<(), NoMemory>
        ensures { OnOk result (self.new ≡ write self.old tokens.OpenSquare) }
    {
        self.add(!self.tight, b"[", true)
    }

    /// Writes `]`.
    pub fn close_square(&mut self) -> Result<(), NoMemory>
        ensures { OnOk result (self.new ≡ write self.old tokens.CloseSquare) }
    {
        self.add(false, b"]", false)
    }

    /// Writes a word.
    pub fn word(&mut self, word: &[u8]) -> Result<(), NoMemory>
        ensures { OnOk result (self.new ≡ write self.old (tokens.Word word.now)) }
    {
        self.add(!self.tight, word, false)
    }

    /// Writes an integer in decimal digits.
    pub fn integer(&mut self, n: i128) -> Result<(), NoMemory>
        ensures { OnOk result (self.new ≡ write self.old (tokens.Word (integer_text n))) }
    {
        let mut digits = Buffer::new();
        self.word(digits.format(n).as_bytes())
    }

    /// Writes a number in decimal digits.
    pub fn number(&mut self, n: u64) -> Result<(), NoMemory>
        ensures { OnOk result (self.new ≡ write self.old (tokens.Word (integer_text (pos n)))) }
    {
        self.integer(i128::from(n))
    }

    /// What is written.
    pub fn into_bytes(self) -> Vec<u8>
        ensures { result.items ≡ self.0 }
    {
        self.bytes
    }
}
