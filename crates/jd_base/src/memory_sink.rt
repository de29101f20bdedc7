ghost use Rattle.std.specs.Prelude.{◌≡◌, ◌<◌, ◌≤◌, ◌+◌, ◌-◌, ◌++◌, ℕ, [], length, take, min, Some, IfOk, OnOk, OnErr, IsOk, IsErr};
ghost use Rattle.std.specs.Option.{ForSome};
ghost use Rattle.jd_base.specs.Faults.{Rose, next_count};
ghost use Rattle.jd_base.specs.InMemory.{room_left, FailsNext, HasSteadyRoom};

use crate::memory::NoMemory;
use crate::outside::{Failed, Sink};
use std::alloc::Global;
use std::marker::Model;

/// Bytes that are written to memory, as many as have room. Writes fail by their number.
#[derive(Drop)]
pub struct MemorySink {
    written: Vec<u8>,
    room: usize,
    fails: Vec<u64>,
    calls: u64,
    faults: u64,
}

impl Model for MemorySink {
    ghost use Rattle.std.specs.Prelude.{◌≤◌, vec_len, vec_capacity};
    ghost use Rattle.jd_base.specs.InMemory.{Written};

    ghost Value = { Written };

    ghost view = { λ m. record {
      bytes = m.written.items;
      room = m.room;
      fails = m.fails.items;
      calls = m.calls;
      faults = m.faults;
    } };

    ghost invariant = { λ m. (vec_len m.written ≤ m.room) × (m.room ≤ vec_capacity m.written) };
}

impl MemorySink {
    /// An empty sink with room for `room` bytes, which it takes here: its writes take no memory. The
    /// calls of `write` are numbered from 1, and those that `fails` lists fail.
    pub fn new(alloc: Global, room: usize, fails: Vec<u64>) -> Result<MemorySink, NoMemory>
        ensures { IfOk result (λ sink. sink
            ≡ record { bytes = []; room = room; fails = fails.items; calls = 0; faults = 0 }) }
    {
        Ok(MemorySink {
            written: Vec::with_capacity(alloc, room)?,
            room,
            fails,
            calls: 0,
            faults: 0,
        })
    }

    /// The bytes that were written.
    pub fn bytes(&self) -> &[u8]
        ensures { result.now ≡ self.now.bytes }
    {
        self.written.as_slice()
    }
}

impl Sink for MemorySink {
    ghost bytes = { λ sink. Some sink.bytes };

    ghost faults = { λ sink. sink.faults };

    ghost steady = { HasSteadyRoom };

    fn write(&mut self, piece: &[u8]) -> Result<usize, Failed>
        ensures bound { IfOk result (λ n. n ≤ length piece.now) }
        ensures progress { IfOk result (λ n. 0 < length piece.now → 0 < n) }
        ensures added { IfOk result (λ n. ForSome (Some self.old.bytes)
            (λ told. Some self.new.bytes ≡ Some (told ++ take n piece.now))) }
        ensures nothing_added { OnErr result (Some self.new.bytes ≡ Some self.old.bytes) }
        ensures no_fault { OnOk result (self.new.faults ≡ self.old.faults) }
        ensures fault { OnErr result (Rose self.old.faults self.new.faults) }
        ensures counts { self.old.faults ≤ self.new.faults }
        ensures steadily { HasSteadyRoom self.old (length piece.now) → IsOk result }
        ensures still_steady { IfOk result (λ k. (n : ℕ) → HasSteadyRoom self.old (k + n) → HasSteadyRoom self.new n) }

        // A write fails where the list says so, and where it has bytes and there is room for none;
        // else it takes as many bytes as have room.
        ensures listed { FailsNext self.old.fails self.old.calls → IsErr result }
        ensures full { 0 < length piece.now → room_left self.old ≡ 0 → IsErr result }
        ensures taken { ¬ FailsNext self.old.fails self.old.calls
            → (0 < length piece.now → 0 < room_left self.old)
            → result ≡ Ok (min (length piece.now) (room_left self.old)) }
        ensures unfailing { self.old.fails ≡ []
            → (0 < length piece.now → 0 < room_left self.old) → IsOk result }

        ensures grown { IfOk result (λ n. self.new
            ≡ record self.old { bytes = self.old.bytes ++ take n piece.now; calls = next_count self.old.calls }) }
        ensures counted { OnErr result (self.new
            ≡ record self.old { calls = next_count self.old.calls; faults = next_count self.old.faults }) }
    {
        self.calls = self.calls.saturating_add(1);
        let left = self.room - self.written.len();
        let is_full = left == 0 && !piece.is_empty();
        if is_full || self.fails.contains(&self.calls) {
            self.faults = self.faults.saturating_add(1);
            return Err(Failed);
        }
        let count = piece.len().min(left);
        self.written.extend_from_slice(&piece[..count]).unwrap();
        Ok(count)
    }
}
