//! What names stand for.

ghost use Rattle.std.specs.Prelude.{IfOk};
ghost use Rattle.jd_tparse.specs.Programs.{AreSomeTables};

use crate::texts::{add, sort_in};
use jd_base::{NoMemory, copy_bytes};
use jd_classes::Classes;
use jd_files::classes_of;
use jd_syntax::{VarDecl, VarId};
use row_text::first_word;
use std::alloc::Global;

/// The tables of these classes; none where they are refused.
pub(crate) fn tables(alloc: Global, text: &[u8]) -> Result<Classes, NoMemory>
    ensures { IfOk result AreSomeTables }
{
    if text.len() > 1000 {
        return Err(NoMemory);
    }
    let files = vec![in alloc; text.to_vec(alloc)?]?;
    match classes_of(alloc, &files) {
        Ok(classes) => Ok(classes),
        Err(_) => Err(NoMemory),
    }
}

/// The variable `NAME:SORT`.
pub(crate) fn variable(alloc: Global, word: &str) -> Result<VarId, NoMemory> {
    let (name, sort) = word.split_once(':').unwrap_or((word, ""));
    let name = copy_bytes(alloc, name.as_bytes())?;
    let sort = sort_in(sort);
    Ok(VarId { name, sort })
}

fn declaration(alloc: Global, word: &str) -> Result<VarDecl, NoMemory> {
    let VarId { name, sort } = variable(alloc, word)?;
    let class = None;
    VarDecl { name, sort, class }.copy(alloc)
}

/// The variables of the line `vars NAME:SORT ..`.
pub(crate) fn variables(alloc: Global, line: &str) -> Result<Vec<VarDecl>, NoMemory> {
    let mut declared = Vec::new(alloc);
    for word in first_word(line).1.split_whitespace() {
        add(&mut declared, declaration(alloc, word))?;
    }
    Ok(declared)
}
