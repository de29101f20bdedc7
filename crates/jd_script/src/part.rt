//! A step, up to its trees, token by token.

ghost use Rattle.std.specs.Prelude.{◌≡◌, IfOk, option_map};
ghost use Rattle.jd_sequent.specs.Steps.{step_view};
ghost use Rattle.jd_bracketed.specs.TokenViews.{kind_view};
ghost use Rattle.jd_scripts.specs.Machine as machine;
ghost use Rattle.jd_script.specs.PartViews.{part_view};

use crate::draft::{Draft, Part};
use crate::place::read_place;
use jd_base::{NoMemory, copy_bytes};
use jd_bracketed::{Kind, Reading};
use std::alloc::Global;

// The rule of a step.
fn rule_read(alloc: Global, draft: &mut Draft, kind: Kind<'_>) -> Result<Option<Part>, NoMemory>
    ensures { IfOk result (λ r. option_map (part_view draft.new) r ≡ machine.rule_read (kind_view kind.entry)) }
{
    match kind {
        Kind::Word(word) => {
            draft.step.rule = copy_bytes(alloc, word)?;
            Ok(Some(Part::PlaceNext))
        }
        Kind::Open | Kind::Close | Kind::OpenSquare | Kind::CloseSquare | Kind::Bad => Ok(None),
    }
}

// The place of a step, behind its rule.
fn placed(alloc: Global, draft: &mut Draft, kind: Kind<'_>) -> Result<Option<Part>, NoMemory>
    ensures { IfOk result (λ r. option_map (part_view draft.new) r ≡ machine.placed draft.old.step.rule.items (kind_view kind.entry)) }
{
    match kind {
        Kind::Word(word) => match read_place(alloc, word)? {
            None => Ok(None),
            Some(place) => {
                draft.step.place = place;
                draft.step.assumes = Vec::new(alloc);
                draft.step.insts = Vec::new(alloc);
                Ok(Some(Part::AssumesNext))
            }
        },
        Kind::Open | Kind::Close | Kind::OpenSquare | Kind::CloseSquare | Kind::Bad => Ok(None),
    }
}

// An assumed place, or the bracket behind them.
fn assumed(alloc: Global, draft: &mut Draft, kind: Kind<'_>) -> Result<Option<Part>, NoMemory>
    ensures { IfOk result (λ r. option_map (part_view draft.new) r ≡ machine.assumed (step_view draft.old.step) (kind_view kind.entry)) }
{
    match kind {
        Kind::Word(word) => match read_place(alloc, word)? {
            None => Ok(None),
            Some(place) => {
                draft.step.assumes.push(place)?;
                Ok(Some(Part::AssumedNext))
            }
        },
        Kind::CloseSquare => Ok(Some(Part::InstsNext)),
        Kind::Open | Kind::Close | Kind::OpenSquare | Kind::Bad => Ok(None),
    }
}

fn if_open_square(kind: Kind<'_>, part: Part) -> Option<Part>
    ensures { (d : Draft) → option_map (part_view d) result ≡ machine.if_open_square (kind_view kind.entry) (part_view d part) }
{
    match kind {
        Kind::OpenSquare => Some(part),
        Kind::Open | Kind::Close | Kind::CloseSquare | Kind::Word(_) | Kind::Bad => None,
    }
}

// The name of an instantiation.
fn inst_named(alloc: Global, draft: &mut Draft, kind: Kind<'_>) -> Result<Option<Part>, NoMemory>
    ensures { IfOk result (λ r. option_map (part_view draft.new) r ≡ machine.inst_named (step_view draft.old.step) (kind_view kind.entry)) }
{
    match kind {
        Kind::Word(word) => {
            draft.inst = copy_bytes(alloc, word)?;
            draft.reading = Reading::Before;
            Ok(Some(Part::InstBody))
        }
        Kind::Open | Kind::Close | Kind::OpenSquare | Kind::CloseSquare | Kind::Bad => Ok(None),
    }
}

/// A token of a step that neither opens a tree nor an instantiation nor ends one.
pub(crate) fn part_step(
    alloc: Global,
    draft: &mut Draft,
    part: Part,
    kind: Kind<'_>,
) -> Result<Option<Part>, NoMemory>
    ensures { IfOk result (λ r. option_map (part_view draft.new) r ≡ machine.part_step (part_view draft.old part) (kind_view kind.entry)) }
{
    match part {
        Part::RuleNext => rule_read(alloc, draft, kind),
        Part::PlaceNext => placed(alloc, draft, kind),
        Part::AssumesNext => Ok(if_open_square(kind, Part::AssumedNext)),
        Part::AssumedNext => assumed(alloc, draft, kind),
        Part::InstsNext => Ok(if_open_square(kind, Part::InstNext)),
        Part::InstName => inst_named(alloc, draft, kind),
        Part::TreeNext | Part::InstNext | Part::InstBody | Part::TreeEnd => Ok(None),
    }
}
