ghost use Rattle.std.specs.Prelude.{◌≡◌, ◌<◌, ◌≤◌, ◌+◌, ◌++◌, ℕ, length, take, vec_len, IfOk, OnOk, OnErr, IsOk, IsErr, IsErrOf};
ghost use Rattle.std.specs.Option.{ForSome};
ghost use Rattle.jd_base.specs.Faults.{Rose, SameCounts, NoCountFell, SameContents, StaySteady};
ghost use Rattle.jd_base.specs.declared.whole.ReadRefusal.TheVariants.{Fault, NoMemory as OutOfMemory};

use crate::memory::NoMemory;
use crate::outside::{Failed, Library, Sink};
use std::alloc::{AllocError, Global};
use std::error::Error;
use std::fmt;

/// How many bytes one read of `read_whole` asks for.
const PIECE: usize = 65536;

/// Why a file was not read.
#[derive(Clone, Copy, PartialEq, Eq, Debug)]
pub enum ReadRefusal {
    /// A read failed.
    Fault,
    /// The file is longer than the limit.
    TooLarge,
    /// Memory ran out.
    NoMemory,
}

impl fmt::Display for ReadRefusal {
    fn fmt<W: fmt::Write>(&self, f: &mut fmt::Formatter<W>) -> fmt::Result {
        match self {
            ReadRefusal::Fault => write!(f, "a read failed"),
            ReadRefusal::TooLarge => write!(f, "the file is too large"),
            ReadRefusal::NoMemory => write!(f, "memory ran out"),
        }
    }
}

impl Error for ReadRefusal {}

impl From<Failed> for ReadRefusal {
    ghost from_gives = { λ _ e. e ≡ Fault };

    fn from(_error: Failed) -> ReadRefusal {
        ReadRefusal::Fault
    }
}

impl From<NoMemory> for ReadRefusal {
    ghost from_gives = { λ _ e. e ≡ OutOfMemory };

    fn from(_error: NoMemory) -> ReadRefusal {
        ReadRefusal::NoMemory
    }
}

impl From<AllocError> for ReadRefusal {
    ghost from_gives = { λ _ e. e ≡ OutOfMemory };

    fn from(_error: AllocError) -> ReadRefusal {
        ReadRefusal::NoMemory
    }
}

/// Reads a whole file of at most `limit` bytes.
///
/// # Errors
///
/// `Fault` where a read failed; `TooLarge` where the file is longer than `limit` bytes, of which at
/// most one piece past the limit was read; `NoMemory`.
pub fn read_whole<L: Library>(
    alloc: Global,
    library: &mut L,
    name: &str,
    limit: u64,
) -> Result<Vec<u8>, ReadRefusal>
    ensures whole { IfOk result (λ v. ForSome (L.contents library.old name.now) (λ told. v.items ≡ told)) }
    ensures within { IfOk result (λ v. vec_len v ≤ limit) }

    // Too large is the answer only, and always but for a fault or want of memory, where it is so.
    ensures too_large { IsErrOf result ReadRefusal.TooLarge → ForSome (L.contents library.old name.now)
        (λ told. limit < length told) }
    ensures not_past_the_limit { ForSome (L.contents library.old name.now)
        (λ told. limit < length told → IsErr result) }

    ensures fault { IsErrOf result ReadRefusal.Fault
        → Rose (L.faults library.old name.now) (L.faults library.new name.now) }
    ensures always_fault { L.faults library.old name.now < L.faults library.new name.now
        → IsErrOf result ReadRefusal.Fault }
    ensures no_fault { OnOk result (SameCounts (L.faults library.old) (L.faults library.new)) }
    ensures too_large_no_fault { IsErrOf result ReadRefusal.TooLarge
        → SameCounts (L.faults library.old) (L.faults library.new) }
    ensures no_memory_no_fault { IsErrOf result ReadRefusal.NoMemory
        → SameCounts (L.faults library.old) (L.faults library.new) }

    ensures counts { NoCountFell (L.faults library.old) (L.faults library.new) }
    ensures kept { SameContents (L.contents library.old) (L.contents library.new) }

    // Where reading does not fail, neither does this, and no more does it after it.
    ensures steadily { L.steady library.old name.now → ¬ IsErrOf result ReadRefusal.Fault }
    ensures still_steady { StaySteady (L.steady library.old) (L.steady library.new) }
{
    let mut piece = vec![in alloc; 0u8; PIECE]?;
    let mut bytes = Vec::new(alloc);
    loop {
        let taken = library.read(name, bytes.len() as u64, &mut piece)?;
        if taken == 0 {
            return Ok(bytes);
        }
        if taken as u64 > limit - bytes.len() as u64 {
            return Err(ReadRefusal::TooLarge);
        }
        bytes.extend_from_slice(&piece[..taken])?;
    }
}

/// Writes all the bytes, in as many writes as it takes. Takes no memory.
///
/// # Errors
///
/// `Failed` where a write failed; a prefix of the bytes was then written.
pub fn write_all<S: Sink>(sink: &mut S, bytes: &[u8]) -> Result<(), Failed>
    ensures all { OnOk result (ForSome (S.bytes sink.old)
        (λ told. S.bytes sink.new ≡ Some (told ++ bytes.now))) }
    ensures prefix { OnErr result (ForSome (S.bytes sink.old)
        (λ told. (k : ℕ) × (k ≤ length bytes.now) × (S.bytes sink.new ≡ Some (told ++ take k bytes.now)))) }

    ensures no_fault { OnOk result (S.faults sink.new ≡ S.faults sink.old) }
    ensures fault { OnErr result (Rose (S.faults sink.old) (S.faults sink.new)) }
    ensures always_fault { S.faults sink.old < S.faults sink.new → IsErr result }
    ensures counts { S.faults sink.old ≤ S.faults sink.new }

    // Where so many bytes are written without a failure, all are, and then as many more as that leaves.
    ensures steadily { S.steady sink.old (length bytes.now) → IsOk result }
    ensures still_steady { OnOk result ((n : ℕ) → S.steady sink.old (length bytes.now + n) → S.steady sink.new n) }
{
    let mut written = 0;
    while written < bytes.len() {
        written += sink.write(&bytes[written..])?;
    }
    Ok(())
}
