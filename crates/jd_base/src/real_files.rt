ghost use Rattle.std.specs.Prelude.{◌≡◌, ◌≤◌, ℕ, length, IfOk, None};

use crate::outside::{Failed, Library, Sink};
use std::io::{Read, Seek, SeekFrom};
use std::marker::Model;
use std::rt::Files;
use std::{fs, io};

/// The files of the file system, by their paths. It tells no contents, and has one count of faults
/// for all names.
#[derive(Drop)]
pub struct FileLibrary<R> {
    runtime: R,
    faults: u64,
}

// It is seen as its count of faults.
impl<R> Model for FileLibrary<R> {
    ghost Value = { ℕ };

    ghost view = { λ files. files.faults };
}

impl<R: Files> FileLibrary<R> {
    /// The files that the runtime has.
    pub fn new(runtime: R) -> FileLibrary<R>
        ensures { result ≡ 0 }
    {
        FileLibrary { runtime, faults: 0 }
    }
}

impl<R: Files> Library for FileLibrary<R> {
    ghost contents = { λ _ _. None };

    ghost faults = { λ faults _. faults };

    ghost steady = { λ _ _. ⊥ };

    fn read(&mut self, name: &str, at: u64, into: &mut [u8]) -> Result<usize, Failed> {
        match read_file(&self.runtime, name, at, into) {
            Ok(count) => Ok(count),
            Err(_) => {
                self.faults = self.faults.saturating_add(1);
                Err(Failed)
            }
        }
    }
}

// Reads from byte `at` of a file on.
fn read_file<R: Files>(runtime: &R, name: &str, at: u64, into: &mut [u8]) -> io::Result<usize>
    ensures { IfOk result (λ n. n ≤ length into.old) }
{
    let mut file = fs::open(runtime, name)?;
    file.seek(SeekFrom::Start(at))?;
    file.read(into)
}

/// Standard output. It tells no bytes. A write goes to the system at once, without a buffer.
#[derive(Drop)]
pub struct StdSink<R> {
    runtime: R,
    faults: u64,
}

// It is seen as its count of faults.
impl<R> Model for StdSink<R> {
    ghost Value = { ℕ };

    ghost view = { λ sink. sink.faults };
}

impl<R: Print> StdSink<R> {
    /// The standard output that the runtime has.
    pub fn new(runtime: R) -> StdSink<R>
        ensures { result ≡ 0 }
    {
        StdSink { runtime, faults: 0 }
    }
}

impl<R: Print> Sink for StdSink<R> {
    ghost bytes = { λ _. None };

    ghost faults = { λ faults. faults };

    ghost steady = { λ _ _. ⊥ };

    fn write(&mut self, piece: &[u8]) -> Result<usize, Failed> {
        match self.runtime.write_some(piece) {
            // No progress counts as an error.
            Ok(count) if count > 0 || piece.is_empty() => Ok(count),
            _ => {
                self.faults = self.faults.saturating_add(1);
                Err(Failed)
            }
        }
    }
}
