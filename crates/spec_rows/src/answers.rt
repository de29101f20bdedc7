//! What files are answered with.

ghost use Rattle.std.specs.Prelude.{◌≤◌, length, List, IsTrue};
ghost use Rattle.std.specs.List.{All};
ghost use Rattle.jd_classes.specs.Tables.{AreTables};
ghost use Rattle.jd_syntax.specs.JavaTrees.{JavaUnit};

use jd_classes::Classes;
use jd_files::classes_of;
use jd_jml_refusals::{Refused, first_refused};
use jd_specifications::SpecCause;
use row_text::Answer;
use std::alloc::Global;

/// How many files there may be, and how long each.
const GREATEST_COUNT: usize = 64;

const GREATEST_LENGTH: usize = 1048576;

fn are_short(files: &[Vec<u8>]) -> bool
    ensures { IsTrue result → All (λ f. length f.items ≤ 1048576) files.now }
{
    files.iter().all(|file| file.len() <= GREATEST_LENGTH)
}

fn cause_word(cause: SpecCause) -> &'static str {
    match cause {
        SpecCause::UnknownName => "UnknownName",
        SpecCause::TypeMismatch => "TypeMismatch",
        SpecCause::ResultHere => "ResultHere",
        SpecCause::OldHere => "OldHere",
        SpecCause::InvariantRecursion => "InvariantRecursion",
        SpecCause::CallInSpec => "CallInSpec",
        SpecCause::BadClause => "BadClause",
    }
}

// The cause, the file's number where it is not the first, and the place.
fn put_refused(answer: &mut Answer, refused: Refused) {
    answer.put(cause_word(refused.fault.cause));
    if refused.file > 0 {
        answer.put(" in ");
        answer.put_number(i128::from(refused.file));
    }
    answer.put(" at ");
    answer.put_number(i128::from(refused.fault.at));
}

fn tell(answer: &mut Answer, alloc: Global, classes: &Classes)
    requires { (units : List JavaUnit) × AreTables units classes.now }
{
    match first_refused(alloc, classes) {
        Ok(Some(refused)) => put_refused(answer, refused),
        Ok(None) => answer.put("fine"),
        Err(_) => answer.lack_memory(),
    }
}

/// The first refused token in the JML of these files.
pub(crate) fn ask(answer: &mut Answer, alloc: Global, files: &[Vec<u8>]) {
    if files.len() > GREATEST_COUNT || !are_short(files) {
        return answer.put("too long");
    }
    match &classes_of(alloc, files) {
        Ok(classes) => tell(answer, alloc, classes),
        Err(_) => answer.put("no program"),
    }
}
