//! Blocks of labels.

ghost use Rattle.std.specs.Prelude.{List};
ghost use Rattle.jd_bodies.specs.Bodies as plain;
ghost use Rattle.jd_bodies.specs.Variables.{Progress};
ghost use Rattle.jd_code_makers.specs.Held.{Holds, Works};
ghost use Rattle.jd_code_makers.specs.Makers.{GivesNumber, GivesStmts};
ghost use Rattle.jd_syntax.specs.Codes as code;

use jd_base::NoMemory;
use jd_code_makers as makers;
use jd_code_makers::{block, one_stmt};
use jd_syntax::CodeStmt;
use std::alloc::Global;

/// A new label, if one is asked for; the number of the last one.
///
/// # Errors
///
/// `NoMemory`.
pub fn label_if(p: &mut makers::Progress, wanted: bool) -> Result<u32, NoMemory>
    ensures progress { (q : Progress) → Holds p.old q → Holds p.new (plain.label_if wanted q) }
    ensures number { (q : Progress) → Holds p.old q → GivesNumber result (plain.label_if wanted q).labels }
    ensures works { Works p.new → Works p.old }
{
    if wanted { p.label() } else { p.labels() }
}

/// The statements, in the block of the number if one is asked for.
///
/// # Errors
///
/// `NoMemory`.
pub fn block_if(
    alloc: Global,
    wanted: bool,
    number: u32,
    stmts: Result<Vec<CodeStmt>, NoMemory>,
) -> Result<Vec<CodeStmt>, NoMemory>
    ensures { (ss : List code.Stmt) → GivesStmts stmts ss → GivesStmts result (plain.block_if wanted number ss) }
{
    if wanted {
        one_stmt(alloc, block(Ok(number), stmts))
    } else {
        stmts
    }
}
