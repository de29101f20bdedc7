//! The classes of a program, of the files of the program.

ghost use Rattle.std.specs.Prelude.{◌≤◌, IfErr, IfOk, length, map};
ghost use Rattle.std.specs.List.{All};
ghost use Rattle.jd_files.specs.Files.{HaveTables, file_limit, files_limit};
ghost use Rattle.jd_files.specs.Refusals.{RefusesFiles};

use crate::reading::trees_of;
use crate::refusal::FilesRefusal;
use jd_classes::Classes;
use jd_jsizes::files_are_small;
use std::alloc::Global;

/// The tables of the classes of these files, at most 64 of at most 1 MiB each: all are split into tokens, then their
/// grammar is asked, then their classes.
///
/// # Errors
///
/// The first file whose text has a fault; else the first that is none for its tokens; else what is wrong with the classes
/// of all. Want of memory.
pub fn classes_of(alloc: Global, files: &[Vec<u8>]) -> Result<Classes, FilesRefusal>
    requires few { length files.now ≤ files_limit }
    requires within { All (λ f. length f.items ≤ file_limit) files.now }
    ensures tables { IfOk result (HaveTables (map (λ f. f.items) files.now)) }
    ensures refused { IfErr result (RefusesFiles (map (λ f. f.items) files.now)) }
{
    files_are_small();
    let units = trees_of(alloc, files)?;
    match Classes::build(alloc, units) {
        Ok(classes) => Ok(classes),
        Err(refusal) => Err(FilesRefusal::Classes(refusal)),
    }
}
