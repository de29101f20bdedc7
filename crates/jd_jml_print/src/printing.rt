//! A text that is written token by token.

ghost use Rattle.std.specs.Prelude.{◌≡◌, ◌++◌, ◌∷◌, ℕ, List, [], codes, IfOk};
ghost use Rattle.std.specs.Fmt.{signed_decimal};
ghost use Rattle.jd_jml_print.specs.Writing as plain;
ghost use Rattle.jd_jml_print.specs.Writing.{Holds};

use itoa::Buffer;
use jd_base::NoMemory;
use std::alloc::Global;

/// What is written so far. That memory ran out is remembered, so that what writes it need not ask.
#[derive(Drop)]
pub(crate) struct Printing {
    pub(crate) bytes: Result<Vec<u8>, NoMemory>,
}

// The bytes with more behind them.
fn joined(bytes: Vec<u8>, mark: u8, more: &[u8]) -> Result<Vec<u8>, NoMemory>
    ensures { IfOk result (λ v. v.items ≡ bytes.items ++ mark ∷ more.now) }
{
    let mut bytes = bytes;
    bytes.push(mark)?;
    bytes.extend_from_slice(more)?;
    Ok(bytes)
}

impl Printing {
    /// Nothing yet.
    pub(crate) fn new(alloc: Global) -> Printing
        ensures { Holds result [] }
    {
        let bytes = Vec::new(alloc);
        Printing { bytes: Ok(bytes) }
    }

    /// Writes a byte and more behind it.
    pub(crate) fn put(self, mark: u8, more: &[u8]) -> Printing
        ensures { (w : List ℕ) → Holds self w → Holds result (w ++ mark ∷ more.now) }
    {
        match self.bytes {
            Ok(bytes) => Printing {
                bytes: joined(bytes, mark, more),
            },
            Err(NoMemory) => Printing {
                bytes: Err(NoMemory),
            },
        }
    }

    /// Writes tokens that are one text, behind a blank.
    pub(crate) fn word(self, text: &[u8]) -> Printing
        ensures { (w : List ℕ) → Holds self w → Holds result (plain.put w text.now) }
    {
        self.put(b' ', text)
    }

    /// Writes a number in decimal digits.
    pub(crate) fn integer(self, number: i128) -> Printing
        ensures { (w : List ℕ) → Holds self w → Holds result (plain.put w (signed_decimal number)) }
    {
        let mut digits = Buffer::new();
        self.word(digits.format(number).as_bytes())
    }

    /// Writes a comma where other things stand before.
    pub(crate) fn comma(self, more: bool) -> Printing
        ensures { (w : List ℕ) → Holds self w → Holds result (plain.comma more w) }
    {
        if more { self.word(b",") } else { self }
    }
}
