ghost use Rattle.std.specs.Prelude.{◌≡◌, ◌<◌, ◌≤◌, ℕ, List, Option, length, Some, None, IfOk, IfSome, OnOk, IsErrOf, MatchOption, MatchResult, map, option_map};
ghost use Rattle.std.specs.List.{All};
ghost use Rattle.std.specs.Option.{ForSome};
ghost use Rattle.jd_base.specs.Faults.{Rose, SameCounts, SameContents, StaySteady};
ghost use Rattle.jd_sequent.specs.Obligations.{names_of};
ghost use Rattle.jd_sequent.specs.Trees.{tree_of};
ghost use Rattle.jd_sequent.specs.Steps.{node_view};
ghost use Rattle.jd_replay.specs.Verdicts.{IsVerdict};
ghost use Rattle.jd_files.specs.Files.{HaveTables, file_limit, files_limit};
ghost use Rattle.jd_made_tasks.specs.Answers.{made_view};
ghost use Rattle.jd_proofs.specs.Answers.{tree_view};
ghost use Rattle.jd_refusals.specs.Resolving.{AreResolved};
ghost use Rattle.jd_tparse.specs.Programs.{AreSomeTables};
ghost use Rattle.jd_answer.specs.Words.{asks_goals, command_words, word_texts};
ghost use Rattle.jd_answer.specs.Reports.{IsReport, goals_text, report_limit_text};
ghost use Rattle.jd_answer.specs.Answers.{AcceptsObligations, leads_of, proof_limit, report_limit, AreRead, AreTold, HaveBytes, HaveLongFile, IsAnswer, IsProofAnswer, SameAnswer, IsTold};
ghost use Rattle.jd_answer.specs.Statuses.{IsJudged, IsWritten};
ghost use Rattle.jd_answer.specs.FileAnswers.{IsRefusal};
ghost use Rattle.jd_answer.specs.ReadFaults.{AreSteady, IsReadFault, HasMoreFaults, HasRisen, NamesSteady};
ghost use Rattle.jd_answer.specs.Sources.{AreProgram, IsTaskOfFiles, obligation_name, obligation_sequent};
ghost use Rattle.jd_answer.specs.Understanding.{IsUnderstood};
ghost use Rattle.jd_answer.specs.declared.status.Status.{Status};
ghost use Rattle.jd_answer.specs.declared.answer.Stop.TheVariants.{NoMemory as OutOfMemory};

use crate::goals::said_of;
use crate::java::refused;
use crate::report::{missing, status_of, text_of};
use crate::script::{proof_of, unread};
use crate::status::Status;
use crate::text::{
    file_too_long, formula_too_large, proof_too_long, report_too_long, too_many_files, unbuilt,
    usage,
};
use crate::token::refused_token;
use crate::words::{ReplayFiles, replay_files};
use jd_base::{Library, NoMemory, ReadRefusal, copy_bytes, read_whole};
use jd_classes::Classes;
use jd_files::{classes_of, one_refusal};
use jd_first_tasks::one_first_task;
use jd_made_tasks::{FirstTask, Made, first_task};
use jd_refusals::{Resolved, one_refusal as one_token_refusal, resolve};
use jd_replay::{Verdict, replay};
use jd_sequent::{OfTask, RuleSet, ScriptTree, Task};
use jd_tparse::Names;
use std::alloc::{AllocFailed, Global};

/// The greatest number of Java files.
const FILES_LIMIT: usize = 64;

/// The greatest length of a proof file in bytes.
const PROOF_LIMIT: u64 = 16777216;

/// The greatest length of a Java file in bytes.
const FILE_LIMIT: u64 = 1048576;

/// The greatest length of a report in bytes.
const REPORT_LIMIT: usize = 67108864;

/// Why there is no answer.
#[derive(Clone, Copy, PartialEq, Eq)]
pub enum Stop {
    /// A file could not be read.
    ReadFault,
    /// Memory ran out.
    NoMemory,
}

impl From<NoMemory> for Stop {
    ghost from_gives = { λ _ e. e ≡ OutOfMemory };

    fn from(_error: NoMemory) -> Stop {
        Stop::NoMemory
    }
}

impl<T: Drop> From<AllocFailed<T>> for Stop {
    ghost from_gives = { λ _ e. e ≡ OutOfMemory };

    fn from(_error: AllocFailed<T>) -> Stop {
        Stop::NoMemory
    }
}

/// What is answered: a status, and the text that is written.
#[derive(Drop)]
pub struct Answer {
    /// How the call ends if the text is written.
    pub status: Status,
    /// The text.
    pub text: Vec<u8>,
}

// What a script's tree does to the sequent of the program's obligation.
fn verdict_of<R: RuleSet>(
    alloc: Global,
    rules: &R,
    classes: &Classes,
    made: &Made,
    tree: &ScriptTree,
) -> Result<Verdict, NoMemory>
    requires accepts { AcceptsObligations (R.accepts rules.now) }
    requires program { IsTaskOfFiles (made_view classes.now made.now) }
    requires tables { AreSomeTables classes.now }
    ensures { IfOk result
        (λ verdict. IsVerdict (leads_of (R.instance rules.now) (made_view classes.now made.now)) (R.cause rules.now (made_view classes.now made.now)) (tree_of (map node_view tree.now.nodes.items)) (obligation_sequent (made_view classes.now made.now)) verdict) }
{
    let task = Task::of(classes, &made.contracts, &made.obligation);
    replay(alloc, rules, &task, &made.obligation.sequent, tree)
}

// The report of a proof, if there is one, for the obligation of a program.
fn replayed<R: RuleSet>(
    alloc: Global,
    rules: &R,
    classes: &Classes,
    made: &Made,
    proof: Option<ScriptTree>,
    goals: bool,
) -> Result<Answer, NoMemory>
    requires accepts { AcceptsObligations (R.accepts rules.now) }
    requires program { IsTaskOfFiles (made_view classes.now made.now) }
    requires tables { AreSomeTables classes.now }
    ensures report { IfOk result
        (λ a. IsReport (leads_of (R.instance rules.now) (made_view classes.now made.now)) (R.cause rules.now (made_view classes.now made.now)) (goals_text goals (names_of (made_view classes.now made.now))) (obligation_name (made_view classes.now made.now)) (obligation_sequent (made_view classes.now made.now)) (option_map tree_view proof) a.status a.text.items) }
    ensures status { IfOk result (λ a. IsJudged a.status) }
{
    let name = made.obligation.name.as_slice();
    match proof {
        None => Ok(Answer {
            status: Status::NotAccepted,
            text: missing(alloc, name)?,
        }),
        Some(tree) => {
            let verdict = verdict_of(alloc, rules, classes, made, &tree)?;
            let task = Task::of(classes, &made.contracts, &made.obligation);
            let said = said_of(alloc, &Names::of(&task), goals, &verdict)?;
            Ok(Answer {
                status: status_of(&verdict),
                text: text_of(alloc, name, &said, &verdict)?,
            })
        }
    }
}

// The answer, or that its report is too long.
fn within_limit(alloc: Global, answer: Answer) -> Result<Answer, NoMemory>
    ensures long { IfOk result (λ a. report_limit < length answer.text.items
        → (a.status ≡ Status.Limit) × (a.text.items ≡ report_limit_text)) }
    ensures short { IfOk result (λ a. length answer.text.items ≤ report_limit
        → (a.status ≡ answer.status) × (a.text.items ≡ answer.text.items)) }
    ensures status { IfOk result (λ a. IsJudged answer.status → IsJudged a.status) }
{
    if answer.text.len() > REPORT_LIMIT {
        return Ok(Answer {
            status: Status::Limit,
            text: report_too_long(alloc)?,
        });
    }
    Ok(answer)
}

/// What the Java files are.
#[derive(Drop)]
pub enum Understood {
    /// A program with an obligation: its task, with the tables of its classes.
    Program(Made, Classes),
    /// None: the answer that tells why.
    Refused(Answer),
}

// The task of the program that the files of these names are, or the answer that tells why there is none.
fn task_of(
    alloc: Global,
    names: &[String],
    classes: &Classes,
    resolved: &Resolved,
) -> Result<Result<Made, Answer>, NoMemory>
    requires some { 0 < length names.now }
    requires tables { (files : List (List ℕ)) × (have : HaveTables files classes.now) × (length files ≡ length names.now) × AreResolved have.units resolved.now }
    ensures { (files : List (List ℕ)) (have : HaveTables files classes.now) → length files ≡ length names.now → AreResolved have.units resolved.now
        → IfOk result (λ r. MatchResult r (λ m. AreProgram files (made_view classes.now m)) (λ a. IsRefusal (word_texts names.now) files a.status a.text.items)) }
{
    match first_task(alloc, names.len(), classes, resolved)? {
        FirstTask::Task(made) => Ok(Ok(made)),
        FirstTask::OtherForm => Ok(Err(Answer {
            status: Status::RefusedSource,
            text: unbuilt(alloc, names[0].as_bytes())?,
        })),
        FirstTask::TooLarge => Ok(Err(Answer {
            status: Status::Limit,
            text: formula_too_large(alloc)?,
        })),
    }
}

// What the files of these names are, whose classes have these tables.
fn resolved(alloc: Global, names: &[String], classes: Classes) -> Result<Understood, NoMemory>
    requires some { 0 < length names.now }
    requires tables { (files : List (List ℕ)) × HaveTables files classes × (length files ≡ length names.now) }
    ensures { (files : List (List ℕ)) → HaveTables files classes → length files ≡ length names.now → IfOk result (IsUnderstood (word_texts names.now) files) }
{
    match resolve(alloc, &classes) {
        Err(refusal) => Ok(Understood::Refused(refused_token(alloc, names, refusal)?)),
        Ok(resolved) => match task_of(alloc, names, &classes, &resolved)? {
            Ok(made) => Ok(Understood::Program(made, classes)),
            Err(answer) => Ok(Understood::Refused(answer)),
        },
    }
}

// What the Java files of these names are.
fn understand(alloc: Global, names: &[String], files: &[Vec<u8>]) -> Result<Understood, NoMemory>
    requires some { 0 < length names.now }
    requires few { length names.now ≤ files_limit }
    requires each { length names.now ≡ length files.now }
    requires within { All (λ f. length f.items ≤ file_limit) files.now }
    ensures { IfOk result (IsUnderstood (word_texts names.now) (map (λ f. f.items) files.now)) }
{
    match classes_of(alloc, files) {
        Ok(classes) => resolved(alloc, names, classes),
        Err(refusal) => Ok(Understood::Refused(refused(alloc, names, refusal)?)),
    }
}

// The answer for a program and the bytes of the proof file.
fn answer_for<R: RuleSet>(
    alloc: Global,
    rules: &R,
    classes: &Classes,
    made: &Made,
    named: &ReplayFiles<'_>,
    proof: &[u8],
) -> Result<Answer, NoMemory>
    requires accepts { AcceptsObligations (R.accepts rules.now) }
    requires program { IsTaskOfFiles (made_view classes.now made.now) }
    requires tables { AreSomeTables classes.now }
    requires within { length proof.now ≤ proof_limit }
    ensures answer { IfOk result (λ a. IsProofAnswer (leads_of (R.instance rules.now) (made_view classes.now made.now)) (R.cause rules.now (made_view classes.now made.now)) (goals_text named.now.goals (names_of (made_view classes.now made.now))) (made_view classes.now made.now) named.now.proof.now proof.now a.status a.text.items) }
    ensures status { IfOk result (λ a. IsJudged a.status) }
{
    let obligation = copy_bytes(alloc, &made.obligation.name)?;
    let proof = match proof_of(alloc, obligation, proof) {
        Err(refusal) => return unread(alloc, named.proof.as_bytes(), &refusal),
        Ok(proof) => proof,
    };
    let report = replayed(alloc, rules, classes, made, proof, named.goals)?;
    let answer = within_limit(alloc, report)?;
    Ok(answer)
}

// The answer for the bytes of all files.
fn judged<R: RuleSet>(
    alloc: Global,
    rules: &R,
    named: &ReplayFiles<'_>,
    proof: &[u8],
    files: &[Vec<u8>],
) -> Result<Answer, NoMemory>
    requires accepts { AcceptsObligations (R.accepts rules.now) }
    requires some { 0 < length named.now.files.now }
    requires few { length named.now.files.now ≤ files_limit }
    requires each { length named.now.files.now ≡ length files.now }
    requires within { All (λ f. length f.items ≤ file_limit) files.now }
    requires proof_within { length proof.now ≤ proof_limit }
    ensures answer { IfOk result (λ a. (words : List (List ℕ)) (contents : List ℕ → Option (List ℕ)) → named.now.goals ≡ asks_goals words
        → AreRead words contents named.now.proof.now (word_texts named.now.files.now) proof.now (map (λ f. f.items) files.now)
        → IsAnswer (leads_of (R.instance rules.now)) (R.cause rules.now) words contents a.status a.text.items) }
    ensures status { IfOk result (λ a. IsJudged a.status) }
{
    match understand(alloc, named.files, files)? {
        Understood::Refused(answer) => Ok(answer),
        Understood::Program(made, classes) => {
            answer_for(alloc, rules, &classes, &made, named, proof)
        }
    }
}

// The bytes of a file; none where it is longer than the limit.
fn read_within<L: Library>(
    alloc: Global,
    library: &mut L,
    name: &str,
    limit: u64,
) -> Result<Option<Vec<u8>>, Stop>
    ensures read { IfOk result (λ r. ForSome (L.contents library.old name.now)
        (λ told. MatchOption r (limit < length told) (λ v. (v.items ≡ told) × (length told ≤ limit)))) }
    ensures within { IfOk result (λ r. IfSome r (λ v. length v.items ≤ limit)) }
    ensures kept { SameContents (L.contents library.old) (L.contents library.new) }

    ensures fault { IsErrOf result Stop.ReadFault
        → Rose (L.faults library.old name.now) (L.faults library.new name.now) }
    ensures no_fault { OnOk result (SameCounts (L.faults library.old) (L.faults library.new)) }
    ensures no_memory_no_fault { IsErrOf result Stop.NoMemory
        → SameCounts (L.faults library.old) (L.faults library.new) }

    ensures steadily { L.steady library.old name.now → ¬ IsErrOf result Stop.ReadFault }
    ensures still_steady { StaySteady (L.steady library.old) (L.steady library.new) }
{
    match read_whole(alloc, library, name, limit) {
        Ok(bytes) => Ok(Some(bytes)),
        Err(ReadRefusal::TooLarge) => Ok(None),
        Err(ReadRefusal::Fault) => Err(Stop::ReadFault),
        Err(ReadRefusal::NoMemory) => Err(Stop::NoMemory),
    }
}

// The bytes of files; none where one of them is longer than the limit.
fn read_files<L: Library>(
    alloc: Global,
    library: &mut L,
    names: &[String],
) -> Result<Option<Vec<Vec<u8>>>, Stop>
    ensures read { IfOk result (λ r. AreTold (L.contents library.old) (word_texts names.now)
        → MatchOption r (HaveLongFile (L.contents library.old) (word_texts names.now))
        (λ v. HaveBytes (L.contents library.old) (word_texts names.now) (map (λ f. f.items) v.items))) }
    ensures each { IfOk result (λ r. IfSome r (λ v. length names.now ≡ length v.items)) }
    ensures within { IfOk result (λ r. IfSome r (λ v. All (λ f. length f.items ≤ file_limit) v.items)) }

    ensures fault { IsErrOf result Stop.ReadFault
        → HasRisen (word_texts names.now) (L.faults library.old) (L.faults library.new) }
    ensures no_fault { OnOk result (SameCounts (L.faults library.old) (L.faults library.new)) }
    ensures no_memory_no_fault { IsErrOf result Stop.NoMemory
        → SameCounts (L.faults library.old) (L.faults library.new) }
    ensures steadily { AreSteady (word_texts names.now) (L.steady library.old) → ¬ IsErrOf result Stop.ReadFault }
{
    let mut files = Vec::new(alloc);
    for name in names {
        let Some(bytes) = read_within(alloc, library, name.as_str(), FILE_LIMIT)? else {
            return Ok(None);
        };
        files.push(bytes)?;
    }
    Ok(Some(files))
}

/// The answer for the words of a call.
///
/// # Errors
///
/// `ReadFault` where a file that the words name could not be read; `NoMemory`.
pub fn answer_to<R: RuleSet, L: Library>(
    alloc: Global,
    rules: &R,
    words: &[String],
    library: &mut L,
) -> Result<Answer, Stop>
    requires accepts { AcceptsObligations (R.accepts rules.now) }
    ensures answer { IfOk result (λ a. IsTold (word_texts words.now) (L.contents library.old)
        → IsAnswer (leads_of (R.instance rules.now)) (R.cause rules.now) (word_texts words.now) (L.contents library.old) a.status a.text.items) }

    // Words that are no command are answered so, and no others.
    ensures usage { IfOk result (λ a. a.status ≡ Status.Usage → command_words (word_texts words.now) ≡ None) }
    ensures always_usage { IfOk result (λ a. command_words (word_texts words.now) ≡ None → a.status ≡ Status.Usage) }
    ensures written { IfOk result (λ a. IsWritten a.status) }

    ensures read_fault { IsErrOf result Stop.ReadFault
        → IsReadFault (word_texts words.now) (L.faults library.old) (L.faults library.new) }
    ensures always_read_fault { HasMoreFaults (word_texts words.now) (L.faults library.old) (L.faults library.new)
        → IsErrOf result Stop.ReadFault }
    ensures steadily { NamesSteady (word_texts words.now) (L.steady library.old) → ¬ IsErrOf result Stop.ReadFault }
{
    let Some(named) = replay_files(words) else {
        return Ok(Answer {
            status: Status::Usage,
            text: usage(alloc)?,
        });
    };
    if named.files.len() > FILES_LIMIT {
        return Ok(Answer {
            status: Status::Limit,
            text: too_many_files(alloc)?,
        });
    }
    let Some(proof) = read_within(alloc, library, named.proof, PROOF_LIMIT)? else {
        return Ok(Answer {
            status: Status::Limit,
            text: proof_too_long(alloc)?,
        });
    };
    let Some(files) = read_files(alloc, library, named.files)? else {
        return Ok(Answer {
            status: Status::Limit,
            text: file_too_long(alloc)?,
        });
    };
    Ok(judged(alloc, rules, &named, &proof, &files)?)
}

/// Words and contents have one answer, up to the place of a Java file that is none, or that nests too deep.
pub fn one_answer<R: RuleSet>(_rules: &R)
    ensures { (words : List (List ℕ)) (contents : List ℕ → Option (List ℕ)) (status other : Status) (text another : List ℕ)
        → IsAnswer (leads_of (R.instance _rules.now)) (R.cause _rules.now) words contents status text
        → IsAnswer (leads_of (R.instance _rules.now)) (R.cause _rules.now) words contents other another
        → SameAnswer status text other another }
{
    one_refusal();
    one_token_refusal();
    one_first_task();
}
