//! The clauses of a block put in.

ghost use Rattle.std.specs.Prelude.{◌≡◌, [], ◌∷◌, List, None, map, option_map};
ghost use Rattle.std.specs.Option.{option_to_list};
ghost use Rattle.jd_lex.specs.Parts as lexed;
ghost use Rattle.jd_lex.specs.View.{tokens_view};
ghost use Rattle.jd_syntax.specs.SpecTrees.{spec_block_view};
ghost use Rattle.jd_syntax.specs.declared.spec.SpecPlace.{SpecPlace};
ghost use Rattle.jd_jmlparse.specs.Filled.{bare_block, tokens_from};
ghost use Rattle.jd_jmlparse.specs.Filling.{Goes, refusal_of};
ghost use Rattle.jd_jmlparse.specs.Parses.{Refuses};

use super::refused::Cause;
use crate::parse::parse_spec;
use jd_jparse::ParseRefusal;
use jd_lex::Token;
use jd_syntax::SpecBlock;
use std::alloc::Global;

// The tokens from that number to before the other, those of them that there are.
fn tokens_between(tokens: &[Token], from: usize, to: usize) -> &[Token]
    ensures { tokens_view result.now ≡ tokens_from (tokens_view tokens.now) from to }
{
    let (_, behind) = tokens.split_at(from.min(tokens.len()));
    let (between, _) = behind.split_at(to.saturating_sub(from).min(behind.len()));
    between
}

// Why a block is refused.
fn cause_of(refusal: ParseRefusal) -> Cause
    ensures { (place : SpecPlace) (ts : List lexed.Token) → Refuses place ts refusal → Refuses place ts (refusal_of result) }
{
    match refusal {
        ParseRefusal::Syntax { at, .. } => Cause::Syntax(at),
        ParseRefusal::TooDeep { at, .. } => Cause::TooDeep(at),
        other => {
            discard(other);
            Cause::NoMemory
        }
    }
}

// Lets a value go.
pub(super) fn discard<T: Drop>(_value: T) {}

// Puts the clauses of a block in, behind blocks that are all read.
fn read_block(alloc: Global, block: &mut SpecBlock, tokens: &[Token]) -> Option<Cause>
    ensures same { bare_block (spec_block_view block.new) ≡ bare_block (spec_block_view block.old) }
    ensures goes { Goes (tokens_view tokens.now) None (spec_block_view block.new ∷ []) result }
{
    let found = tokens_between(tokens, block.from as usize, block.to as usize);
    match parse_spec(alloc, block.place, found) {
        Ok(clauses) => {
            block.clauses = clauses;
            None
        }
        Err(refusal) => Some(cause_of(refusal)),
    }
}

// Puts the clauses of a block in, if none before it is refused.
fn fill_block(
    alloc: Global,
    block: &mut SpecBlock,
    tokens: &[Token],
    first: Option<Cause>,
) -> Option<Cause>
    ensures same { bare_block (spec_block_view block.new) ≡ bare_block (spec_block_view block.old) }
    ensures goes { Goes (tokens_view tokens.now) first (spec_block_view block.new ∷ []) result }
{
    match first {
        Some(cause) => Some(cause),
        None => read_block(alloc, block, tokens),
    }
}

// Puts the clauses of optional JML in.
#[tactic(auto, using(crate::proofs::Going::going))]
pub(super) fn fill_optional(
    alloc: Global,
    block: &mut Option<SpecBlock>,
    tokens: &[Token],
    first: Option<Cause>,
) -> Option<Cause>
    ensures same { option_map bare_block (option_map spec_block_view block.new) ≡ option_map bare_block (option_map spec_block_view block.old) }
    ensures goes { Goes (tokens_view tokens.now) first (option_to_list (option_map spec_block_view block.new)) result }
{
    match block {
        Some(block) => fill_block(alloc, block, tokens, first),
        None => first,
    }
}

// Puts the clauses of blocks in.
#[tactic(auto, using(crate::proofs::Going::going))]
pub(super) fn fill_blocks(
    alloc: Global,
    blocks: &mut [SpecBlock],
    tokens: &[Token],
    first: Option<Cause>,
) -> Option<Cause>
    ensures same { map bare_block (map spec_block_view blocks.new) ≡ map bare_block (map spec_block_view blocks.old) }
    ensures goes { Goes (tokens_view tokens.now) first (map spec_block_view blocks.new) result }
{
    let mut first = first;
    for i in 0..blocks.len() {
        first = fill_block(alloc, &mut blocks[i], tokens, first);
    }
    first
}
