//! Replays proofs that Java methods meet their JML contracts.
#![tactic(auto)]

ghost use Rattle.std.specs.Prelude.{◌≡◌, ◌≢◌, ◌<◌, ◌≤◌, ◌++◌, ◌⊎◌, ℕ, IfOk, IsErrOf, Some, None, length, take};
ghost use Rattle.std.specs.Option.{ForSome};
ghost use Rattle.jd_base.specs.Faults.{Rose};
ghost use Rattle.jd_answer.specs.Words.{word_texts, command_words};
ghost use Rattle.jd_answer.specs.Answers.{IsAnswer, IsTold};
ghost use Rattle.jd_answer.specs.Statuses.{IsWritten};
ghost use Rattle.jd_answer.specs.ReadFaults.{IsReadFault, HasMoreFaults, NamesSteady};
ghost use Rattle.jdl.specs.Replay.{rule_leads, rule_causes};
ghost use Rattle.jdl.specs.KeptPrograms.{EachCaseIsKept};
ghost use Rattle.jdl.specs.Outcomes.{IsAnswered, IsCutShort, IsAccepted, IsNotAccepted, IsSourceRefused, IsScriptRefused, IsPastLimit};
ghost use Rattle.jdl.specs.Statuses.{MayEndUsage};
ghost use Rattle.jdl.specs.Completeness.{IsInOrder, NoCountRose, MayEndInOrder, FitsEachAnswer};

mod in_memory;

pub use in_memory::run_in_memory;
pub use jd_answer::Status;
use jd_answer::{Answer, Stop, answer_to};
use jd_base::write_all;
pub use jd_base::{Library, Sink};
use jd_files::one_refusal;
use jd_first_tasks::closed_first_tasks_are_kept;
use jd_rules::Base;
use jd_spelled_tasks::first_tasks_are_spelled;
use std::alloc::Global;

// What the words are answered with, by the rules.
fn answered<L: Library>(alloc: Global, words: &[String], library: &mut L) -> Result<Answer, Stop>
    ensures answer { IfOk result (λ a. IsTold (word_texts words.now) (L.contents library.old)
        → IsAnswer rule_leads rule_causes (word_texts words.now) (L.contents library.old) a.status a.text.items) }
    ensures usage { IfOk result (λ a. a.status ≡ Status.Usage → command_words (word_texts words.now) ≡ None) }
    ensures always_usage { IfOk result (λ a. command_words (word_texts words.now) ≡ None → a.status ≡ Status.Usage) }
    ensures written { IfOk result (λ a. IsWritten a.status) }
    ensures read_fault { IsErrOf result Stop.ReadFault
        → IsReadFault (word_texts words.now) (L.faults library.old) (L.faults library.new) }
    ensures always_read_fault { HasMoreFaults (word_texts words.now) (L.faults library.old) (L.faults library.new)
        → IsErrOf result Stop.ReadFault }
    ensures steadily { NamesSteady (word_texts words.now) (L.steady library.old) → ¬ IsErrOf result Stop.ReadFault }
{
    first_tasks_are_spelled();
    match Base::new(alloc) {
        Ok(rules) => answer_to(alloc, &rules, words, library),
        Err(_) => Err(Stop::NoMemory),
    }
}

// Writes the text of an answer.
fn write_answer<S: Sink>(sink: &mut S, answer: &Answer) -> Status
    ensures either { (result ≡ answer.now.status) ⊎ (result ≡ Status.WriteFault) }
    ensures whole { result ≢ Status.WriteFault → ForSome (S.bytes sink.old)
        (λ told. S.bytes sink.new ≡ Some (told ++ answer.now.text.items)) }
    ensures prefix { result ≡ Status.WriteFault → answer.now.status ≢ Status.WriteFault → ForSome (S.bytes sink.old)
        (λ told. (k : ℕ) × (k ≤ length answer.now.text.items) × (S.bytes sink.new ≡ Some (told ++ take k answer.now.text.items))) }
    ensures fault { result ≡ Status.WriteFault → answer.now.status ≢ Status.WriteFault
        → Rose (S.faults sink.old) (S.faults sink.new) }
    ensures always_fault { S.faults sink.old < S.faults sink.new → result ≡ Status.WriteFault }
    ensures steadily { S.steady sink.old (length answer.now.text.items) → result ≡ answer.now.status }
{
    match write_all(sink, &answer.text) {
        Ok(()) => answer.status,
        Err(_) => Status::WriteFault,
    }
}

/// Does what the words say with the files of a library, and writes the report to a sink: `replay
/// PROOF FILE+` replays a proof script for the program of Java files. Status 0 only where the
/// script derives the program's obligation with no goal left, and then each case of it is kept as JML says it.
pub fn run<L: Library, S: Sink>(
    alloc: Global,
    words: &[String],
    library: &mut L,
    sink: &mut S,
) -> Status
    // Status 0 of `replay` means that each case of each program that the Java files mean is kept as JML says it: from each state
    // that meets the case's entry, each run that ends meets its exit, and where the contract asks for it the run ends.
    ensures kept { result ≡ Status.Done → IsTold (word_texts words.now) (L.contents library.old)
        → EachCaseIsKept (word_texts words.now) (L.contents library.old) }

    // What is written: the whole answer, a first part of it, or nothing.
    ensures answer { IsWritten result → IsTold (word_texts words.now) (L.contents library.old)
        → IsAnswered rule_leads rule_causes (word_texts words.now) (L.contents library.old) (S.bytes sink.old) (S.bytes sink.new) result }
    ensures prefix { result ≡ Status.WriteFault → IsTold (word_texts words.now) (L.contents library.old)
        → IsCutShort rule_leads rule_causes (word_texts words.now) (L.contents library.old) (S.bytes sink.old) (S.bytes sink.new) }
    ensures unwritten { (result ≡ Status.ReadFault) ⊎ (result ≡ Status.NoMemory)
        → S.bytes sink.new ≡ S.bytes sink.old }

    // Words that are no command are answered so, and no others, unless the answer is not written.
    ensures usage { result ≡ Status.Usage → command_words (word_texts words.now) ≡ None }
    ensures always_usage { command_words (word_texts words.now) ≡ None → MayEndUsage result }

    // Faults of reading and of writing are never hidden, and never invented.
    ensures read_fault { result ≡ Status.ReadFault
        → IsReadFault (word_texts words.now) (L.faults library.old) (L.faults library.new) }
    ensures always_read_fault { HasMoreFaults (word_texts words.now) (L.faults library.old) (L.faults library.new)
        → result ≡ Status.ReadFault }
    ensures write_fault { result ≡ Status.WriteFault → Rose (S.faults sink.old) (S.faults sink.new) }
    ensures always_write_fault { S.faults sink.old < S.faults sink.new → result ≡ Status.WriteFault }

    // Where the library knows that reading does not fail, or the sink that as many bytes are written as each answer has, there is no fault.
    ensures never_read_fault { NamesSteady (word_texts words.now) (L.steady library.old) → result ≢ Status.ReadFault }
    ensures never_write_fault { IsTold (word_texts words.now) (L.contents library.old)
        → FitsEachAnswer rule_leads rule_causes (word_texts words.now) (L.contents library.old) (S.steady sink.old)
        → result ≢ Status.WriteFault }

    // A command of which nothing is refused and no limit is passed ends with its report, but for faults and want of memory.
    ensures complete { IsTold (word_texts words.now) (L.contents library.old)
        → IsInOrder rule_leads rule_causes (word_texts words.now) (L.contents library.old)
        → NoCountRose (word_texts words.now) (L.faults library.old) (L.faults library.new) (S.faults sink.old) (S.faults sink.new)
        → MayEndInOrder result }

    // What each status tells of the files.
    ensures accepted { result ≡ Status.Done → IsTold (word_texts words.now) (L.contents library.old)
        → IsAccepted rule_leads (word_texts words.now) (L.contents library.old) }
    ensures not_accepted { result ≡ Status.NotAccepted → IsTold (word_texts words.now) (L.contents library.old)
        → IsNotAccepted rule_leads (word_texts words.now) (L.contents library.old) }
    ensures refused_source { result ≡ Status.RefusedSource → IsTold (word_texts words.now) (L.contents library.old)
        → IsSourceRefused (word_texts words.now) (L.contents library.old) }
    ensures refused_script { result ≡ Status.RefusedScript → IsTold (word_texts words.now) (L.contents library.old)
        → IsScriptRefused (word_texts words.now) (L.contents library.old) }
    ensures limit { result ≡ Status.Limit → IsTold (word_texts words.now) (L.contents library.old)
        → IsPastLimit rule_leads rule_causes (word_texts words.now) (L.contents library.old) }
{
    one_refusal();
    first_tasks_are_spelled();
    closed_first_tasks_are_kept();
    match answered(alloc, words, library) {
        Ok(answer) => write_answer(sink, &answer),
        Err(Stop::ReadFault) => Status::ReadFault,
        Err(Stop::NoMemory) => Status::NoMemory,
    }
}
