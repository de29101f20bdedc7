//! The pairs of updates, read from bracketed expressions.

ghost use Rattle.std.specs.Prelude.{◌≡◌, IfOk, map, option_map};
ghost use Rattle.jd_syntax.specs.Sxs.{bracketed_list, sx_view};
ghost use Rattle.jd_term.specs.Formulas.{pair_view, update_view};
ghost use Rattle.jd_tforms.specs.Reading as plain;

use crate::terms::read_term;
use jd_base::{NoMemory, Sort};
use jd_syntax::Sx;
use jd_tcode::{Part, Reader, both_there, variable_in};
use jd_term::{Elementary, Update};
use jd_twords::NameMeanings;
use std::alloc::Global;

// A variable and a term, in brackets.
#[tactic(auto, using(jd_tcode::proofs::Ends::not_two))]
fn pair_behind<N: NameMeanings>(
    alloc: Global,
    names: &N,
    binders: &[Sort],
    parts: &[Sx],
) -> Result<Option<Elementary>, NoMemory>
    ensures { IfOk result (λ o. option_map pair_view o ≡ plain.pair_of (N.table names.now) binders.now (plain.reads (N.table names.now) (bracketed_list (map sx_view parts.now)))) }
{
    if parts.len() != 2 {
        return Ok(None);
    }
    let [variable, value] = parts else {
        return Ok(None)
    };
    let at = Reader {
        alloc,
        names,
        binders,
    };
    match both_there(variable_in(alloc, names, variable), read_term(&at, value))? {
        None => Ok(None),
        Some((variable, value)) => Ok(Some(Elementary { variable, value })),
    }
}

// The same.
fn read_pair<N: NameMeanings>(
    alloc: Global,
    names: &N,
    binders: &[Sort],
    x: &Sx,
) -> Result<Option<Elementary>, NoMemory>
    ensures { IfOk result (λ o. option_map pair_view o ≡ (plain.read (N.table names.now) (sx_view x.now)).pair binders.now) }
{
    match x {
        Sx::Atom(_) => Ok(None),
        Sx::List(parts) => pair_behind(alloc, names, binders, parts),
    }
}

// Pairs one after the other.
fn read_pairs<N: NameMeanings>(
    alloc: Global,
    names: &N,
    binders: &[Sort],
    parts: &[Sx],
) -> Result<Option<Vec<Elementary>>, NoMemory>
    ensures { IfOk result (λ o. option_map (λ v. map pair_view v.items) o ≡ plain.all_pairs (N.table names.now) binders.now (plain.reads (N.table names.now) (bracketed_list (map sx_view parts.now)))) }
{
    let mut pairs = Vec::with_capacity(alloc, parts.len())?;
    for part in parts {
        let Some(pair) = read_pair(alloc, names, binders, part)? else {
            return Ok(None)
        };
        pairs.push(pair)?;
    }
    Ok(Some(pairs))
}

// The same, of which there is one at least.
fn pairs_behind<N: NameMeanings>(
    alloc: Global,
    names: &N,
    binders: &[Sort],
    parts: &[Sx],
) -> Result<Option<Update>, NoMemory>
    ensures { IfOk result (λ o. option_map update_view o ≡ plain.pairs_of (N.table names.now) binders.now (plain.reads (N.table names.now) (bracketed_list (map sx_view parts.now)))) }
{
    match parts {
        [] => Ok(None),
        [_, ..] => match read_pairs(alloc, names, binders, parts)? {
            None => Ok(None),
            Some(pairs) => Ok(Some(Update { pairs })),
        },
    }
}

// An update.
pub(crate) fn read_update<N: NameMeanings>(at: &Reader<'_, N>, x: &Sx) -> Part<Update>
    ensures { IfOk result (λ o. option_map update_view o ≡ (plain.read (N.table at.now.names.now) (sx_view x.now)).pairs at.now.binders.now) }
{
    match x {
        Sx::Atom(_) => Ok(None),
        Sx::List(parts) => pairs_behind(at.alloc, at.names, at.binders, parts),
    }
}
