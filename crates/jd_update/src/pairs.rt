//! Lists of pairs: in the order of names, and those that matter before a modality.

ghost use Rattle.jd_syntax.specs.CodeNames.{same_name};
ghost use Rattle.jd_syntax.specs.CodeViews.{code_view};
ghost use Rattle.jd_syntax.specs.Names.{var_view};
ghost use Rattle.jd_term.specs.Formulas.{formula_view, pair_view};
ghost use Rattle.jd_update.specs.Fits.{JoinFits};
ghost use Rattle.jd_update.specs.Places.{place_of};
ghost use Rattle.jd_update.specs.Push.{in_order, insert_pair, is_itself, joined, kept, live, matters, name_order, sort_rank};
ghost use Rattle.std.specs.Prelude.{◌≡◌, IfOk, [], map};

use crate::replace::replace_term;
use jd_base::{NoMemory, Sort};
use jd_syntax::{Code, VarId};
use jd_term::{Elementary, Formula, Term, occurs_var};
use std::alloc::Global;
use std::cmp::Ordering;

// `equals`, by its test.
pub(crate) fn is_same(v: &VarId, w: &VarId) -> bool
    ensures { result ≡ same_name (var_view v.now) (var_view w.now) }
{
    v.equals(w)
}

fn sort_rank(s: Sort) -> u8
    ensures { result ≡ sort_rank s }
{
    match s {
        Sort::Int => 0,
        Sort::Bool => 1,
        Sort::Ref => 2,
        Sort::Heap => 3,
        Sort::Field => 4,
    }
}

fn name_order(x: &VarId, y: &VarId) -> Ordering
    ensures { result ≡ name_order (var_view x.now) (var_view y.now) }
{
    x.name
        .cmp(&y.name)
        .then(sort_rank(x.sort).cmp(&sort_rank(y.sort)))
}

fn copy_pairs(alloc: Global, q: &[Elementary]) -> Result<Vec<Elementary>, NoMemory>
    ensures { IfOk result (λ v. map pair_view v.items ≡ map pair_view q.now) }
{
    let mut copies = Vec::with_capacity(alloc, q.len())?;
    for p in q {
        copies.push(p.copy(alloc)?)?;
    }
    Ok(copies)
}

// The update after the replacement, the newest pair first.
#[tactic(auto, using(jd_syntax::proofs::Lists::rest))]
pub(crate) fn joined(
    alloc: Global,
    old: &[Elementary],
    update: &[Elementary],
) -> Result<Vec<Elementary>, NoMemory>
    requires { JoinFits (map pair_view old.now) (map pair_view update.now) }
    ensures { IfOk result
        (λ v. map pair_view v.items ≡ joined (map pair_view old.now) (map pair_view update.now) (map pair_view old.now)) }
{
    let mut pairs = copy_pairs(alloc, old)?;
    for p in update {
        let variable = p.variable.copy(alloc)?;
        let value = replace_term(alloc, old, &p.value)?;
        pairs.insert(0, Elementary { variable, value })?;
    }
    Ok(pairs)
}

// Where the variable's pair is to stand in the order, if none is there yet.
#[tactic(auto, using(jd_syntax::proofs::Lists::rest))]
fn place_of(done: &[Elementary], x: &VarId) -> Option<usize>
    ensures { result ≡ place_of (map pair_view done.now) (var_view x.now) 0 }
{
    for (i, p) in done.iter().enumerate() {
        match name_order(x, &p.variable) {
            Ordering::Less => return Some(i),
            Ordering::Equal => return None,
            Ordering::Greater => continue,
        }
    }
    Some(done.len())
}

fn insert_pair(alloc: Global, done: &mut Vec<Elementary>, p: &Elementary) -> Result<(), NoMemory>
    ensures { IfOk result
        (λ _. map pair_view done.new.items ≡ insert_pair (pair_view p.now) (map pair_view done.old.items)) }
{
    match place_of(done, &p.variable) {
        None => Ok(()),
        Some(i) => {
            let pair = p.copy(alloc)?;
            done.insert(i, pair)?;
            Ok(())
        }
    }
}

// One pair for each variable, in the order of names.
#[tactic(auto, using(jd_syntax::proofs::Lists::rest))]
fn in_order(alloc: Global, q: &[Elementary]) -> Result<Vec<Elementary>, NoMemory>
    ensures { IfOk result (λ v. map pair_view v.items ≡ in_order (map pair_view q.now) []) }
{
    let mut done = Vec::new(alloc);
    for p in q {
        insert_pair(alloc, &mut done, p)?;
    }
    Ok(done)
}

fn is_itself(p: &Elementary) -> bool
    ensures { result ≡ is_itself (pair_view p.now) }
{
    match &p.value {
        Term::ProgramVariable(y) => is_same(&p.variable, y),
        _ => false,
    }
}

fn matters(c: &Code, a: &Formula, p: &Elementary) -> bool
    ensures { result ≡ matters (code_view c.now) (formula_view a.now) (pair_view p.now) }
{
    (c.mentions(&p.variable) || occurs_var(a, &p.variable)) && !is_itself(p)
}

// The pairs that matter before a modality, in the order of names.
pub(crate) fn kept(
    alloc: Global,
    q: &[Elementary],
    c: &Code,
    a: &Formula,
) -> Result<Vec<Elementary>, NoMemory>
    ensures { IfOk result
        (λ v. map pair_view v.items ≡ kept (map pair_view q.now) (code_view c.now) (formula_view a.now)) }
{
    let ordered = in_order(alloc, q)?;
    let mut kept = Vec::new(alloc);
    for p in &ordered {
        if matters(c, a, p) {
            kept.push(p.copy(alloc)?)?;
        }
    }
    Ok(kept)
}

// The pairs whose variables occur in the formula.
pub(crate) fn live(
    alloc: Global,
    update: &[Elementary],
    f: &Formula,
) -> Result<Vec<Elementary>, NoMemory>
    ensures { IfOk result
        (λ v. map pair_view v.items ≡ live (formula_view f.now) (map pair_view update.now)) }
{
    let mut alive = Vec::new(alloc);
    for p in update {
        if occurs_var(f, &p.variable) {
            alive.push(p.copy(alloc)?)?;
        }
    }
    Ok(alive)
}
