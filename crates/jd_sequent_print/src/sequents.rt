ghost use Rattle.std.specs.Prelude.{◌≡◌, ◌++◌, IfOk, OnOk, map};
ghost use Rattle.jd_term.specs.Formulas.{formula_view};
ghost use Rattle.jd_model.specs.Sequents.{sequent_view};
ghost use Rattle.jd_sequent_print.specs.Lines.{line, lines, sequent_text};

use jd_base::NoMemory;
use jd_model::Sequent;
use jd_print::{NameTexts, print_formula};
use jd_term::Formula;
use jd_written::add_number;
use std::alloc::Global;

// Adds `L1 F` and a line feed.
fn add_line<N: NameTexts>(
    alloc: Global,
    out: &mut Vec<u8>,
    names: &N,
    letter: u8,
    index: u64,
    formula: &Formula,
) -> Result<(), NoMemory>
    ensures { OnOk result (out.new.items ≡ out.old.items ++ line (N.table names.now) letter index (formula_view formula.now)) }
{
    let text = print_formula(alloc, formula, names)?;
    out.push(letter)?;
    add_number(out, index)?;
    out.push(b' ')?;
    out.extend_from_slice(&text)?;
    out.push(b'\n')?;
    Ok(())
}

// Adds a line for each formula, numbered from 1.
#[tactic(auto, using(jd_syntax::proofs::Lists::rest))]
fn add_lines<N: NameTexts>(
    alloc: Global,
    out: &mut Vec<u8>,
    names: &N,
    letter: u8,
    formulas: &[Formula],
) -> Result<(), NoMemory>
    ensures { OnOk result (out.new.items ≡ out.old.items ++ lines (N.table names.now) letter 1 (map formula_view formulas.now)) }
{
    for i in 0..formulas.len() {
        add_line(alloc, out, names, letter, i as u64 + 1, &formulas[i])?;
    }
    Ok(())
}

/// The text of a sequent: a line `L1 F`, `L2 F`, .. for each formula on the left, then a line `R1 F`, .. for each on the right,
/// each ended by a line feed.
///
/// # Errors
///
/// `NoMemory` if memory runs out.
pub fn print_sequent<N: NameTexts>(
    alloc: Global,
    sequent: &Sequent,
    names: &N,
) -> Result<Vec<u8>, NoMemory>
    ensures { IfOk result (λ v. v.items ≡ sequent_text (N.table names.now) (sequent_view sequent.now)) }
{
    let mut out = Vec::new(alloc);
    add_lines(alloc, &mut out, names, b'L', &sequent.left)?;
    add_lines(alloc, &mut out, names, b'R', &sequent.right)?;
    Ok(out)
}
