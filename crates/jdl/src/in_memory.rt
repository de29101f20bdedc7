ghost use Rattle.std.specs.Prelude.{◌≡◌, ◌≢◌, []};
ghost use Rattle.jd_base.specs.InMemory.{contents_of, room_left};
ghost use Rattle.jd_answer.specs.Words.{word_texts};
ghost use Rattle.jdl.specs.Completeness.{AreHeld, HasRoom};
ghost use Rattle.jdl.specs.Replay.{rule_leads, rule_causes};

use crate::{Status, run};
use jd_base::{MemoryLibrary, MemorySink};
use std::alloc::Global;

/// `run` over files and a sink in memory. Where no call of them is to fail, and the files that the words name are held, reading does
/// not fail; where the sink has room for the report, writing does not either.
pub fn run_in_memory(
    alloc: Global,
    words: &[String],
    library: &mut MemoryLibrary,
    sink: &mut MemorySink,
) -> Status
    ensures no_read_fault { library.old.fails ≡ [] → AreHeld (word_texts words.now) library.old.files
        → result ≢ Status.ReadFault }
    ensures no_write_fault { sink.old.fails ≡ [] → AreHeld (word_texts words.now) library.old.files
        → HasRoom rule_leads rule_causes (word_texts words.now) (contents_of library.old.files) (room_left sink.old)
        → result ≢ Status.WriteFault }
{
    run(alloc, words, library, sink)
}
