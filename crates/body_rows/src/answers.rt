//! What files are answered with.

ghost use Rattle.std.specs.Prelude.{◌≤◌, length, List, IsTrue};
ghost use Rattle.std.specs.List.{All};
ghost use Rattle.jd_classes.specs.Tables.{AreTables};
ghost use Rattle.jd_syntax.specs.JavaTrees.{JavaUnit};

use jd_bodies::Cause;
use jd_check::{Body, CheckRefusal, Refused, check_bodies, first_refused};
use jd_classes::Classes;
use jd_files::classes_of;
use jd_print::print_formula;
use jd_term::{Formula, Modality, modal};
use jd_tparse::Names;
use row_text::Answer;
use std::alloc::Global;

/// What is asked of files.
#[derive(Clone, Copy)]
pub(crate) enum Asked {
    /// The first refused token of the bodies.
    Refused,
    /// What each body is resolved to.
    Code,
    /// How many bodies are made.
    Count,
}

/// How many files there may be, and how long each.
const GREATEST_COUNT: usize = 64;

const GREATEST_LENGTH: usize = 1048576;

fn are_short(files: &[Vec<u8>]) -> bool
    ensures { IsTrue result → All (λ f. length f.items ≤ 1048576) files.now }
{
    files.iter().all(|file| file.len() <= GREATEST_LENGTH)
}

fn cause_word(cause: Cause) -> &'static str {
    match cause {
        Cause::UnknownName => "UnknownName",
        Cause::UnknownClass => "UnknownClass",
        Cause::UnknownMethod => "UnknownMethod",
        Cause::TypeMismatch => "TypeMismatch",
        Cause::WrongArity => "WrongArity",
        Cause::BadTarget => "BadTarget",
        Cause::BadLabel => "BadLabel",
        Cause::Redeclared => "Redeclared",
    }
}

// The cause, the file's number where it is not the first, and the place.
fn put_refused(answer: &mut Answer, refused: Refused) {
    answer.put(cause_word(refused.fault.cause));
    if refused.file > 0 {
        answer.put(" in ");
        answer.put_number(i128::from(refused.file));
    }
    answer.put(" at ");
    answer.put_number(i128::from(refused.fault.at));
}

fn tell(answer: &mut Answer, alloc: Global, classes: &Classes)
    requires { (units : List JavaUnit) × AreTables units classes.now }
{
    match first_refused(alloc, classes) {
        Ok(Some(refused)) => put_refused(answer, refused),
        Ok(None) => answer.put("fine"),
        Err(_) => answer.lack_memory(),
    }
}

// The code of a body, as that of a diamond before `true`.
fn put_body(answer: &mut Answer, alloc: Global, classes: &Classes, body: &Body)
    requires { (units : List JavaUnit) × AreTables units classes.now }
{
    let names = Names::new(classes, &body.vars, &[]);
    let shown = modal(
        alloc,
        Modality::Possibility,
        body.code.copy(alloc),
        Ok(Formula::TrueFormula),
    );
    match &shown {
        Ok(f) => answer.put_made(print_formula(alloc, f, &names)),
        Err(_) => answer.lack_memory(),
    }
}

// Those of all bodies, by their numbers; or how many there are.
fn put_bodies(
    answer: &mut Answer,
    alloc: Global,
    classes: &Classes,
    bodies: &[Body],
    are_counted: bool,
)
    requires { (units : List JavaUnit) × AreTables units classes.now }
{
    if are_counted {
        return answer.put_number(bodies.len() as i128);
    }
    for body in bodies {
        put_body(answer, alloc, classes, body);
        answer.put(";");
    }
}

fn tell_made(answer: &mut Answer, alloc: Global, classes: &Classes, are_counted: bool)
    requires { (units : List JavaUnit) × AreTables units classes.now }
{
    match &check_bodies(alloc, classes) {
        Ok(bodies) => put_bodies(answer, alloc, classes, &bodies.bodies, are_counted),
        Err(CheckRefusal::Refused(refused)) => put_refused(answer, *refused),
        Err(CheckRefusal::NoMemory) => answer.lack_memory(),
    }
}

/// What is asked of these files: the first refused token in their bodies, the code of each body, or how many bodies are made.
pub(crate) fn ask(answer: &mut Answer, alloc: Global, files: &[Vec<u8>], asked: Asked) {
    if files.len() > GREATEST_COUNT || !are_short(files) {
        return answer.put("too long");
    }
    match &classes_of(alloc, files) {
        Ok(classes) => match asked {
            Asked::Refused => tell(answer, alloc, classes),
            Asked::Code => tell_made(answer, alloc, classes, false),
            Asked::Count => tell_made(answer, alloc, classes, true),
        },
        Err(_) => answer.put("no program"),
    }
}
