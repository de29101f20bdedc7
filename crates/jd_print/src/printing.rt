//! A text that is written token by token.

ghost use Rattle.std.specs.Prelude.{◌≡◌, ◌++◌, ◌||◌, ℕ, List, [], cond, codes, IfOk};
ghost use Rattle.jd_bracketed.specs.Tokens.{Open, Close, Word};
ghost use Rattle.jd_written.specs.Written.{Text, empty_text, integer_text, number_text, write};
ghost use Rattle.jd_tgrammar.specs.NameTables.{member_word};
ghost use Rattle.jd_tgrammar.specs.Words as plain;
ghost use Rattle.jd_print.specs.Writing as writing;
ghost use Rattle.jd_print.specs.Printings.{Holds};

use itoa::Buffer;
use jd_base::NoMemory;
use std::alloc::Global;

/// What is written so far. That memory ran out is remembered, so that what writes it need not ask.
#[derive(Drop)]
pub(crate) struct Printing {
    pub(crate) bytes: Result<Vec<u8>, NoMemory>,
    /// Whether the next token follows without a space.
    tight: bool,
}

// The bytes with a text behind them.
fn joined(bytes: Vec<u8>, tight: bool, text: &[u8]) -> Result<Vec<u8>, NoMemory>
    ensures { IfOk result (λ v. v.items ≡ bytes.items ++ (cond tight [] (codes " ") ++ text.now)) }
{
    let mut bytes = bytes;
    if !tight {
        bytes.push(b' ')?;
    }
    bytes.extend_from_slice(text)?;
    Ok(bytes)
}

impl Printing {
    /// Nothing yet.
    pub(crate) fn new(alloc: Global) -> Printing
        ensures { Holds result empty_text }
    {
        let bytes = Vec::new(alloc);
        Printing {
            bytes: Ok(bytes),
            tight: true,
        }
    }

    // Writes a text, which closes brackets or not, behind a space where it takes one.
    fn put(self, closes: bool, text: &[u8], tight: bool) -> Printing
        ensures { (t : Text) → Holds self t → Holds result (t.0 ++ (cond (t.1 || closes) [] (codes " ") ++ text.now), tight) }
    {
        let follows = self.tight || closes;
        match self.bytes {
            Ok(bytes) => Printing {
                bytes: joined(bytes, follows, text),
                tight,
            },
            Err(NoMemory) => Printing {
                bytes: Err(NoMemory),
                tight,
            },
        }
    }

    /// Writes `(`.
    pub(crate) fn open(self) -> Printing
        ensures { (t : Text) → Holds self t → Holds result (write t Open) }
    {
        self.put(false, b"(", true)
    }

    /// Writes `)`.
    pub(crate) fn close(self) -> Printing
        ensures { (t : Text) → Holds self t → Holds result (write t Close) }
    {
        self.put(true, b")", false)
    }

    /// Writes a word.
    pub(crate) fn word(self, word: &[u8]) -> Printing
        ensures { (t : Text) → Holds self t → Holds result (write t (Word word.now)) }
    {
        self.put(false, word, false)
    }

    // Writes more of a word.
    fn more(self, text: &[u8]) -> Printing
        ensures { (t : Text) (w : List ℕ) → Holds self (write t (Word w)) → Holds result (write t (Word (w ++ text.now))) }
    {
        match self.bytes {
            Ok(bytes) => Printing {
                bytes: joined(bytes, true, text),
                tight: false,
            },
            Err(NoMemory) => Printing {
                bytes: Err(NoMemory),
                tight: false,
            },
        }
    }

    /// Writes `(` and a word.
    pub(crate) fn begin(self, word: &[u8]) -> Printing
        ensures { (t : Text) → Holds self t → Holds result (writing.begin t word.now) }
    {
        self.open().word(word)
    }

    /// Writes an integer in decimal digits.
    pub(crate) fn integer(self, n: i128) -> Printing
        ensures { (t : Text) → Holds self t → Holds result (write t (Word (integer_text n))) }
    {
        let mut digits = Buffer::new();
        self.word(digits.format(n).as_bytes())
    }

    // Writes a word of a mark and a number.
    fn marked(self, mark: &[u8], n: u32) -> Printing
        ensures { (t : Text) → Holds self t → Holds result (write t (Word (mark.now ++ number_text n))) }
    {
        let mut digits = Buffer::new();
        self.word(mark).more(digits.format(n).as_bytes())
    }

    /// Writes a number in decimal digits.
    pub(crate) fn number(self, n: u32) -> Printing
        ensures { (t : Text) → Holds self t → Holds result (write t (Word (number_text n))) }
    {
        self.marked(b"", n)
    }

    /// Writes `%k`.
    pub(crate) fn bound(self, k: u32) -> Printing
        ensures { (t : Text) → Holds self t → Holds result (write t (Word (plain.bound_word k))) }
    {
        self.marked(b"%", k)
    }

    /// Writes `lN`.
    pub(crate) fn label(self, label: u32) -> Printing
        ensures { (t : Text) → Holds self t → Holds result (write t (Word (plain.label_word label))) }
    {
        self.marked(b"l", label)
    }

    /// Writes `C.m`.
    pub(crate) fn member(self, class: &[u8], name: &[u8]) -> Printing
        ensures { (t : Text) → Holds self t → Holds result (write t (Word (member_word class.now name.now))) }
    {
        self.word(class).more(b".").more(name)
    }
}
