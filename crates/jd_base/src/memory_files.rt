ghost use Rattle.std.specs.Prelude.{◌≡◌, ◌<◌, ◌≤◌, ◌-◌, ℕ, List, [], length, take, drop, min, map, IfOk, OnOk, OnErr, IsOk, IsErr, IsSome, IsNone};
ghost use Rattle.std.specs.Option.{ForSome, option_copied};
ghost use Rattle.jd_base.specs.Faults.{Rose, next_count, SameCounts, NoCountFell, SameContents, StaySteady};
ghost use Rattle.jd_base.specs.InMemory.{file_of, contents_of, faults_of, FailsNext, IsSteady};

use crate::outside::{Failed, Library};
use std::marker::Model;

/// Files in memory. Reads fail by their number, and at each name that is not held.
#[derive(Drop)]
pub struct MemoryLibrary {
    files: Vec<(String, Vec<u8>)>,
    fails: Vec<u64>,
    calls: u64,
    faults: u64,
    absent_faults: u64,
}

impl Model for MemoryLibrary {
    ghost use Rattle.std.specs.Prelude.{map};
    ghost use Rattle.jd_base.specs.InMemory.{Files, file_of};

    ghost Value = { Files };

    ghost view = { λ m. record {
      files = map file_of m.files.items;
      fails = m.fails.items;
      calls = m.calls;
      faults = m.faults;
      absent_faults = m.absent_faults;
    } };
}

impl MemoryLibrary {
    /// A library of these files, of which the first of a name counts. The calls of `read` are
    /// numbered from 1, and those that `fails` lists fail.
    pub fn new(files: Vec<(String, Vec<u8>)>, fails: Vec<u64>) -> MemoryLibrary
        ensures files { result.files ≡ map file_of files.items }
        ensures fails { result.fails ≡ fails.items }
        ensures calls { result.calls ≡ 0 }
        ensures no_fault { (name : List ℕ) → faults_of result name ≡ 0 }
    {
        MemoryLibrary {
            files,
            fails,
            calls: 0,
            faults: 0,
            absent_faults: 0,
        }
    }
}

impl Library for MemoryLibrary {
    ghost contents = { λ held. contents_of held.files };

    ghost faults = { faults_of };

    ghost steady = { IsSteady };

    fn read(&mut self, name: &str, at: u64, into: &mut [u8]) -> Result<usize, Failed>
        ensures bound { IfOk result (λ n. n ≤ length into.old) }
        ensures bytes { IfOk result (λ n. ForSome (contents_of self.old.files name.now)
            (λ told. take n into.new ≡ take n (drop at told))) }
        ensures end { IfOk result (λ n. ForSome (contents_of self.old.files name.now)
            (λ told. length told ≤ at → n ≡ 0)) }
        ensures progress { IfOk result (λ n. ForSome (contents_of self.old.files name.now)
            (λ told. at < length told → 0 < length into.old → 0 < n)) }
        ensures no_fault { OnOk result (SameCounts (faults_of self.old) (faults_of self.new)) }
        ensures fault { OnErr result (Rose (faults_of self.old name.now) (faults_of self.new name.now)) }
        ensures counts { NoCountFell (faults_of self.old) (faults_of self.new) }
        ensures kept { SameContents (contents_of self.old.files) (contents_of self.new.files) }
        ensures steadily { IsSteady self.old name.now → IsOk result }
        ensures still_steady { StaySteady (IsSteady self.old) (IsSteady self.new) }

        // A name that is not held always fails; one that is held fails where the list says so, and
        // else gives as many bytes as there are and fit.
        ensures absent { IsNone (contents_of self.old.files name.now) → IsErr result }
        ensures listed { IsSome (contents_of self.old.files name.now)
            → FailsNext self.old.fails self.old.calls → IsErr result }
        ensures given { ForSome (contents_of self.old.files name.now) (λ told.
            ¬ FailsNext self.old.fails self.old.calls
            → result ≡ Ok (min (length into.old) (length told - at))) }
        ensures unfailing { self.old.fails ≡ [] → IsSome (contents_of self.old.files name.now) → IsOk result }

        // Beside the number of calls only the name's count of faults changes, and only at a fault.
        ensures counted { OnOk result (self.new ≡ record self.old { calls = next_count self.old.calls }) }
        ensures absent_fault { IsNone (contents_of self.old.files name.now)
            → self.new ≡ record self.old { calls = next_count self.old.calls; absent_faults = next_count self.old.absent_faults } }
        ensures held_fault { IsSome (contents_of self.old.files name.now)
            → OnErr result (self.new ≡ record self.old { calls = next_count self.old.calls; faults = next_count self.old.faults }) }
    {
        self.calls = self.calls.saturating_add(1);
        let listed = self.fails.contains(&self.calls);
        match file_named(&self.files, name) {
            None => {
                self.absent_faults = self.absent_faults.saturating_add(1);
                Err(Failed)
            }
            Some(_) if listed => {
                self.faults = self.faults.saturating_add(1);
                Err(Failed)
            }
            Some(bytes) => Ok(copied_from(bytes, at, into)),
        }
    }
}

// The bytes of the first file of the name.
fn file_named<'a>(files: &'a [(String, Vec<u8>)], name: &str) -> Option<&'a [u8]>
    ensures { option_copied result ≡ contents_of (map file_of files.now) name.now }
{
    for (held, bytes) in files {
        if held.as_str() == name {
            return Some(bytes.as_slice());
        }
    }
    None
}

// Copies the bytes from a place on, as many as there are and fit.
fn copied_from(bytes: &[u8], at: u64, into: &mut [u8]) -> usize
    ensures count { result ≡ min (length into.old) (length bytes.now - at) }
    ensures copied { take result into.new ≡ take result (drop at bytes.now) }
{
    let from = at as usize;
    if from >= bytes.len() {
        return 0;
    }
    let count = into.len().min(bytes.len() - from);
    into[..count].copy_from_slice(&bytes[from..from + count]);
    count
}
