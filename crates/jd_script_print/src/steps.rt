//! The text of steps.

ghost use Rattle.std.specs.Prelude.{◌≡◌, OnOk, map};
ghost use Rattle.jd_syntax.specs.Sxs.{bracketed_list, sx_view};
ghost use Rattle.jd_sequent.specs.Steps.{step_view};
ghost use Rattle.jd_script_print.specs.Writing as writing;

use crate::places::{write_place, write_places};
use jd_base::NoMemory;
use jd_sequent::Step;
use jd_syntax::Sx;
use jd_written::Written;
use std::alloc::Global;

#[cycle(write_sx)]
#[tactic(auto, using(jd_syntax::proofs::SxLemmas::lists))]
fn write_sx(out: &mut Written, x: &Sx) -> Result<(), NoMemory>
    ensures { OnOk result (out.new ≡ writing.put_sx out.old (sx_view x.now)) }
{
    match x {
        Sx::Atom(word) => out.word(word),
        Sx::List(parts) => {
            out.open()?;
            write_parts(out, parts)?;
            out.close()
        }
    }
}

#[cycle(write_sx)]
#[tactic(auto, using(jd_syntax::proofs::Lists::rest))]
fn write_parts(out: &mut Written, parts: &[Sx]) -> Result<(), NoMemory>
    ensures { OnOk result (out.new ≡ writing.put_all out.old (bracketed_list (map sx_view parts.now))) }
{
    for part in parts {
        write_sx(out, part)?;
    }
    Ok(())
}

#[tactic(auto, using(jd_syntax::proofs::Lists::rest))]
fn write_insts(out: &mut Written, insts: &[(Vec<u8>, Sx)]) -> Result<(), NoMemory>
    ensures { OnOk result (out.new ≡ writing.put_insts out.old (map (λ p. (p.0.items, sx_view p.1)) insts.now)) }
{
    for inst in insts {
        out.open()?;
        out.word(&inst.0)?;
        write_sx(out, &inst.1)?;
        out.close()?;
    }
    Ok(())
}

// A step, up to its trees.
pub(crate) fn write_step(alloc: Global, out: &mut Written, step: &Step) -> Result<(), NoMemory>
    ensures { OnOk result (out.new ≡ writing.put_step out.old (step_view step.now)) }
{
    out.open()?;
    out.word(&step.rule)?;
    write_place(alloc, out, &step.place)?;
    out.open_square()?;
    write_places(alloc, out, &step.assumes)?;
    out.close_square()?;
    out.open_square()?;
    write_insts(out, &step.insts)?;
    out.close_square()
}
