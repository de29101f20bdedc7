//! The clauses of JML put into the tree of a file.

ghost use Rattle.std.specs.Prelude.{◌≡◌, IfOk, IfErr};
ghost use Rattle.jd_lex.specs.View.{tokens_view};
ghost use Rattle.jd_syntax.specs.JavaTrees.{unit_view};
ghost use Rattle.jd_jmlparse.specs.Filled.{Fills, IsNotFilled, bare, blocks_of};
ghost use Rattle.jd_jmlparse.specs.Filling.{Goes, refusal_of};

mod blocks;
mod members;
mod refused;
mod statements;

use jd_jparse::ParseRefusal;
use jd_lex::Token;
use jd_syntax::Unit;
use members::fill_classes;
use refused::Cause;
use std::alloc::Global;

// The refusal that tells why a block is refused.
fn refusal_for(cause: Cause) -> ParseRefusal
    ensures { result ≡ refusal_of cause }
{
    match cause {
        Cause::Syntax(at) => ParseRefusal::Syntax { file: 0, at },
        Cause::TooDeep(at) => ParseRefusal::TooDeep { file: 0, at },
        Cause::NoMemory => ParseRefusal::NoMemory,
    }
}

// Puts the clauses of a file's JML in, up to the first block that is refused.
fn fill_unit(alloc: Global, unit: &mut Unit, tokens: &[Token]) -> Option<Cause>
    ensures same { bare (unit_view unit.new) ≡ bare (unit_view unit.old) }
    ensures goes { Goes (tokens_view tokens.now) None (blocks_of (unit_view unit.new)) result }
{
    fill_classes(alloc, &mut unit.classes, tokens, None)
}

/// The file with the clauses of each block of JML put in, from the tokens of the file; clauses that were there go. The first block in
/// the order of the tree, which is that of the text, that `parse_spec` refuses gives the refusal.
pub fn fill_specs(alloc: Global, unit: Unit, tokens: &[Token]) -> Result<Unit, ParseRefusal>
    ensures filled { IfOk result (λ filled. Fills (tokens_view tokens.now) (unit_view unit) (unit_view filled)) }
    ensures refused { IfErr result (λ e. IsNotFilled (tokens_view tokens.now) (unit_view unit) e) }
{
    let mut unit = unit;
    match fill_unit(alloc, &mut unit, tokens) {
        None => Ok(unit),
        Some(cause) => Err(refusal_for(cause)),
    }
}
