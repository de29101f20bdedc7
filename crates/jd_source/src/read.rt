ghost use Rattle.std.specs.Prelude.{◌≤◌, length, IfOk, IfErr};
ghost use Rattle.jd_lex.specs.Lexing.{Spells};
ghost use Rattle.jd_lex.specs.View.{tokens_view};
ghost use Rattle.jd_jparse.specs.Parses.{Reads};
ghost use Rattle.jd_syntax.specs.JavaTrees.{unit_view};
ghost use Rattle.jd_source.specs.Laws.{OneSource};
ghost use Rattle.jd_source.specs.Sources.{IsRefused, IsSource};

use jd_jmlparse::{fill_specs, one_filling};
use jd_jparse::{ParseRefusal, one_answer as one_parse, parse_unit};
use jd_lex::{LexRefusal, Token, one_answer as one_lexing, tokens, tokens_are_slices};
use jd_syntax::Unit;
use std::alloc::Global;

/// Why bytes are no Java file.
#[derive(Drop)]
pub enum SourceRefusal {
    /// They spell no tokens.
    Lexical(LexRefusal),
    /// Their tokens are no file's, or those of its JML are none's of its place.
    Grammatical(ParseRefusal),
}

// The file of the tokens of these bytes, whose Java is read.
fn read_specs(
    alloc: Global,
    bytes: &[u8],
    tokens: &[Token],
    java: Unit,
) -> Result<Unit, SourceRefusal>
    requires spelled { Spells bytes.now (tokens_view tokens.now) }
    requires read { Reads (tokens_view tokens.now) (unit_view java) }
    ensures read { IfOk result (λ u. IsSource bytes.now (unit_view u)) }
    ensures refused { IfErr result (λ e. IsRefused bytes.now e) }
{
    tokens_are_slices();
    match fill_specs(alloc, java, tokens) {
        Ok(unit) => Ok(unit),
        Err(e) => Err(SourceRefusal::Grammatical(e)),
    }
}

// The file of the tokens of these bytes.
fn read_tokens(alloc: Global, bytes: &[u8], tokens: &[Token]) -> Result<Unit, SourceRefusal>
    requires within { length bytes.now ≤ 1048576 }
    requires spelled { Spells bytes.now (tokens_view tokens.now) }
    ensures read { IfOk result (λ u. IsSource bytes.now (unit_view u)) }
    ensures refused { IfErr result (λ e. IsRefused bytes.now e) }
{
    tokens_are_slices();
    match parse_unit(alloc, tokens) {
        Ok(java) => read_specs(alloc, bytes, tokens, java),
        Err(e) => Err(SourceRefusal::Grammatical(e)),
    }
}

/// The tree of a Java file of at most 1 MiB (JLS 7.3), with the clauses of the JML at its places (JML Reference Manual, appendix A).
///
/// # Errors
///
/// The first fault of the text; else the first token outside JML that is not supported; else that no file has the tokens;
/// else that something nests too deep; else, of the first JML that is none of its place or nests too deep, which of both. Want of memory.
pub fn read_source(alloc: Global, bytes: &[u8]) -> Result<Unit, SourceRefusal>
    requires { length bytes.now ≤ 1048576 }
    ensures read { IfOk result (λ u. IsSource bytes.now (unit_view u)) }
    ensures refused { IfErr result (λ e. IsRefused bytes.now e) }
{
    match tokens(alloc, bytes) {
        Ok(found) => read_tokens(alloc, bytes, &found),
        Err(e) => Err(SourceRefusal::Lexical(e)),
    }
}

/// Bytes are the file of one tree at most, and what is read is not refused but for want of memory.
pub fn one_source()
    ensures { OneSource }
{
    one_lexing();
    one_parse();
    one_filling();
}
