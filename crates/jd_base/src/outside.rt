ghost use Rattle.std.specs.Prelude.{◌≡◌, ◌<◌, ◌≤◌, ◌+◌, ◌++◌, ℕ, List, Option, length, take, drop, IfOk, OnOk, OnErr, IsOk};
ghost use Rattle.std.specs.Option.{ForSome};
ghost use Rattle.jd_base.specs.Faults.{Rose, SameCounts, NoCountFell, SameContents, StaySteady};

use std::error::Error;
use std::fmt;

/// A read or a write failed.
#[derive(Clone, Copy, PartialEq, Eq, Debug)]
pub struct Failed;

impl fmt::Display for Failed {
    fn fmt<W: fmt::Write>(&self, f: &mut fmt::Formatter<W>) -> fmt::Result {
        write!(f, "input or output failed")
    }
}

impl Error for Failed {}

/// Files by their names, and how often reading failed.
pub trait Library {
    // The bytes of the file of a name, where they are told.
    ghost contents: { Self → List ℕ → Option (List ℕ) };

    // For each name a count of faults, which never falls.
    ghost faults: { Self → List ℕ → ℕ };

    // The names at which reading does not fail, where it is known.
    ghost steady: { Self → List ℕ → Type 0 };

    /// Reads bytes of a file, from byte `at` on, to the beginning of `into`, and answers how many.
    ///
    /// # Errors
    ///
    /// `Failed` only where the name's count of faults rose.
    fn read(&mut self, name: &str, at: u64, into: &mut [u8]) -> Result<usize, Failed>
        ensures bound { IfOk result (λ n. n ≤ length into.old) }

        // Where the contents are told, the bytes are those from `at` on, and none only past the end.
        ensures bytes { IfOk result (λ n. ForSome (contents self.old name.now)
            (λ told. take n into.new ≡ take n (drop at told))) }
        ensures end { IfOk result (λ n. ForSome (contents self.old name.now)
            (λ told. length told ≤ at → n ≡ 0)) }
        ensures progress { IfOk result (λ n. ForSome (contents self.old name.now)
            (λ told. at < length told → 0 < length into.old → 0 < n)) }

        ensures no_fault { OnOk result (SameCounts (faults self.old) (faults self.new)) }
        ensures fault { OnErr result (Rose (faults self.old name.now) (faults self.new name.now)) }
        ensures counts { NoCountFell (faults self.old) (faults self.new) }
        ensures kept { SameContents (contents self.old) (contents self.new) }

        // Where reading does not fail it gives bytes, and no read changes where it does not.
        ensures steadily { steady self.old name.now → IsOk result }
        ensures still_steady { StaySteady (steady self.old) (steady self.new) };
}

/// A place to which bytes are written, and how often writing failed.
pub trait Sink {
    // The bytes that were written, where they are told.
    ghost bytes: { Self → Option (List ℕ) };

    // A count of faults, which never falls.
    ghost faults: { Self → ℕ };

    // How many bytes more are written without a failure, where it is known.
    ghost steady: { Self → ℕ → Type 0 };

    /// Adds bytes from the beginning of the piece, and answers how many.
    ///
    /// # Errors
    ///
    /// `Failed` only where the count of faults rose; then nothing was added.
    fn write(&mut self, piece: &[u8]) -> Result<usize, Failed>
        ensures bound { IfOk result (λ n. n ≤ length piece.now) }
        ensures progress { IfOk result (λ n. 0 < length piece.now → 0 < n) }
        ensures added { IfOk result (λ n. ForSome (bytes self.old)
            (λ told. bytes self.new ≡ Some (told ++ take n piece.now))) }
        ensures nothing_added { OnErr result (bytes self.new ≡ bytes self.old) }

        ensures no_fault { OnOk result (faults self.new ≡ faults self.old) }
        ensures fault { OnErr result (Rose (faults self.old) (faults self.new)) }
        ensures counts { faults self.old ≤ faults self.new }

        // A piece of that many bytes is written, and then as many more as were not taken from them.
        ensures steadily { steady self.old (length piece.now) → IsOk result }
        ensures still_steady { IfOk result (λ k. (n : ℕ) → steady self.old (k + n) → steady self.new n) };
}
