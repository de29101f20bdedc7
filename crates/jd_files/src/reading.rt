//! The trees of files, one file after the other.

ghost use Rattle.std.specs.Prelude.{◌≡◌, ◌≤◌, IfErr, IfOk, length, map, is_none};
ghost use Rattle.std.specs.List.{All};
ghost use Rattle.jd_source.specs.Sources.{reason_of};
ghost use Rattle.jd_syntax.specs.JavaTrees.{unit_view};
ghost use Rattle.jd_files.specs.Files.{AreTrees, file_limit};
ghost use Rattle.jd_files.specs.Readings.{HasMisfitToo, HasTreeToo, IsRefusedToo, ReadsMore};
ghost use Rattle.jd_files.specs.Refusals.{RefusesFiles};

use crate::refusal::FilesRefusal;
use jd_base::NoMemory;
use jd_jparse::ParseRefusal;
use jd_lex::LexRefusal;
use jd_source::{SourceRefusal, read_source};
use jd_syntax::Unit;
use std::alloc::Global;

// What is known of files that all have tokens.
#[derive(Drop)]
enum Reading {
    // All are files, with these trees.
    Trees(Vec<Unit>),
    // One has the tokens of no file: the number of the first such one, and why.
    Misfit(u32, SourceRefusal),
}

// What is known with one file more.
#[derive(Drop)]
enum More {
    // It has tokens.
    Tokens(Reading),
    // It has none, and why.
    Faulty(SourceRefusal),
}

// Whether memory ran out.
fn ran_out(refusal: &SourceRefusal) -> bool
    ensures { result ≡ is_none (reason_of refusal.now) }
{
    match refusal {
        SourceRefusal::Lexical(LexRefusal::NoMemory)
        | SourceRefusal::Grammatical(ParseRefusal::NoMemory) => true,
        _ => false,
    }
}

// One more file that is one.
fn with_tree(so_far: Reading, unit: Unit) -> Result<Reading, NoMemory>
    ensures { IfOk result (HasTreeToo so_far (unit_view unit)) }
{
    match so_far {
        Reading::Trees(mut units) => {
            units.push(unit)?;
            Ok(Reading::Trees(units))
        }
        Reading::Misfit(number, refusal) => Ok(Reading::Misfit(number, refusal)),
    }
}

// One more file that has the tokens of none.
fn with_misfit(so_far: Reading, number: u32, refusal: SourceRefusal) -> Reading
    ensures { HasMisfitToo so_far number refusal result }
{
    match so_far {
        Reading::Trees(_) => Reading::Misfit(number, refusal),
        Reading::Misfit(first, why) => Reading::Misfit(first, why),
    }
}

// One more file that is refused.
fn with_refused(so_far: Reading, number: u32, refusal: SourceRefusal) -> More
    ensures { IsRefusedToo so_far number refusal result }
{
    match refusal {
        SourceRefusal::Lexical(refusal) => More::Faulty(SourceRefusal::Lexical(refusal)),
        SourceRefusal::Grammatical(refusal) => {
            let refusal = SourceRefusal::Grammatical(refusal);
            More::Tokens(with_misfit(so_far, number, refusal))
        }
    }
}

// One file more.
fn read_more(alloc: Global, so_far: Reading, number: u32, bytes: &[u8]) -> Result<More, NoMemory>
    requires { length bytes.now ≤ file_limit }
    ensures { IfOk result (ReadsMore so_far number bytes.now) }
{
    match read_source(alloc, bytes) {
        Ok(unit) => Ok(More::Tokens(with_tree(so_far, unit)?)),
        Err(refusal) => {
            if ran_out(&refusal) {
                return Err(NoMemory);
            }
            Ok(with_refused(so_far, number, refusal))
        }
    }
}

/// The trees of files, each of at most 1 MiB.
pub(crate) fn trees_of(alloc: Global, files: &[Vec<u8>]) -> Result<Vec<Unit>, FilesRefusal>
    requires few { length files.now ≤ 4294967295 }
    requires within { All (λ f. length f.items ≤ file_limit) files.now }
    ensures trees { IfOk result (λ v. AreTrees (map (λ f. f.items) files.now) (map unit_view v.items)) }
    ensures refused { IfErr result (RefusesFiles (map (λ f. f.items) files.now)) }
{
    let mut so_far = Reading::Trees(Vec::new(alloc));
    for (number, bytes) in files.iter().enumerate() {
        match read_more(alloc, so_far, number as u32, bytes)? {
            More::Tokens(more) => so_far = more,
            More::Faulty(refusal) => return Err(FilesRefusal::File(number as u32, refusal)),
        }
    }
    match so_far {
        Reading::Trees(units) => Ok(units),
        Reading::Misfit(number, refusal) => Err(FilesRefusal::File(number, refusal)),
    }
}
