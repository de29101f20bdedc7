//! Sequents as texts, whose formulas the grammar spells.

ghost use Rattle.std.specs.Prelude.{IfOk, IfSome, map, option_map};
ghost use Rattle.jd_model.specs.Sequents.{sequent_view};
ghost use Rattle.jd_spelled_trees.specs.Places.{AreSpelled, IsSpelledSequent};
ghost use Rattle.jd_term.specs.Formulas.{formula_view};
ghost use Rattle.jd_spelled_trees.specs.Spelled.{IsSpelled};
ghost use Rattle.jd_tgrammar.specs.NameTables.{NameTable};
ghost use Rattle.jd_tparse.specs.Names.{table_of};

use jd_base::{NoMemory, both};
use jd_lists::with;
use jd_model::Sequent;
use jd_syntax::Sx;
use jd_term::Formula;
use jd_tparse::{Names, SxRefusal, TermRefusal, parse_formula, read_sx};
use std::alloc::Global;

/// The expression that a text is.
pub(crate) fn expression(alloc: Global, text: &str) -> Result<Option<Sx>, NoMemory> {
    let bytes = text.as_bytes();
    if bytes.len() > 4_294_967_295 {
        return Ok(None);
    }
    match read_sx(alloc, bytes) {
        Ok(x) => Ok(Some(x)),
        Err(SxRefusal::NoMemory) => Err(NoMemory),
        Err(_) => Ok(None),
    }
}

// The formulas with what was read behind them; what is no formula is left out.
fn and_formula(
    made: Result<Vec<Formula>, NoMemory>,
    read: Result<Formula, TermRefusal>,
) -> Result<Vec<Formula>, NoMemory>
    ensures { (q : NameTable) → IfOk made (λ v. AreSpelled q (map formula_view v.items)) → IfOk read (λ f. IsSpelled q (formula_view f))
        → IfOk result (λ v. AreSpelled q (map formula_view v.items)) }
{
    match read {
        Ok(formula) => with(made?, formula),
        Err(TermRefusal::NoMemory) => Err(NoMemory),
        Err(_) => made,
    }
}

// The formula that the expression is.
fn read_formula(alloc: Global, names: &Names<'_>, part: &Sx) -> Result<Formula, TermRefusal>
    ensures { IfOk result (λ f. IsSpelled (table_of names.now) (formula_view f)) }
{
    parse_formula(alloc, part, names)
}

// The formulas of a list; those that are none are left out.
fn formulas_in(alloc: Global, names: &Names<'_>, parts: &[Sx]) -> Result<Vec<Formula>, NoMemory>
    ensures { IfOk result (λ v. AreSpelled (table_of names.now) (map formula_view v.items)) }
{
    let mut formulas = Ok(Vec::new(alloc));
    for part in parts {
        formulas = and_formula(formulas, read_formula(alloc, names, part));
    }
    formulas
}

fn sequent_in(alloc: Global, names: &Names<'_>, x: &Sx) -> Result<Option<Sequent>, NoMemory>
    ensures { IfOk result (λ o. IfSome (option_map sequent_view o) (IsSpelledSequent (table_of names.now))) }
{
    let Sx::List(sides) = x else {
        return Ok(None);
    };
    let [Sx::List(left), Sx::List(right)] = sides.as_slice() else {
        return Ok(None);
    };
    let left = formulas_in(alloc, names, left);
    let (left, right) = both(left, formulas_in(alloc, names, right))?;
    Ok(Some(Sequent { left, right }))
}

/// The sequent that is written so.
pub(crate) fn sequent_of(
    alloc: Global,
    names: &Names<'_>,
    text: &str,
) -> Result<Option<Sequent>, NoMemory>
    ensures { IfOk result (λ o. IfSome (option_map sequent_view o) (IsSpelledSequent (table_of names.now))) }
{
    match &expression(alloc, text) {
        Ok(Some(x)) => sequent_in(alloc, names, x),
        Ok(None) => Ok(None),
        Err(NoMemory) => Err(NoMemory),
    }
}
