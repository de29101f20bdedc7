//! Whether a term may be put for the index 0 of a formula.

ghost use Rattle.std.specs.Prelude.{◌≡◌, ◌||◌, Bool, IfOk, map, option_map, suc};
ghost use Rattle.jd_taclet_stages.specs.Steadiness.{any_variable, has_variable, index_in, index_in_loc, index_in_pairs, index_in_term, is_outside, is_steady};
ghost use Rattle.jd_term.specs.Formulas.{formula_view, pair_view};
ghost use Rattle.jd_term.specs.TermViews.{loc_view, term_view};
ghost use Rattle.jd_told_tables.specs.Asked.{Tells};
ghost use Rattle.jd_told_tables.specs.Lent.{formula_or, term_or};

use jd_base::NoMemory;
use jd_syntax::{Code, VarId};
use jd_term::{Elementary, Formula, Gather, Loc, Term, counted, fold_term};

#[derive(Clone, Copy)]
struct AnyVariable;

impl Gather for AnyVariable {
    type Out = bool;

    ghost gathers = { λ s. any_variable };

    fn none(&self) -> bool {
        false
    }

    fn join(&self, a: bool, b: bool) -> bool {
        a || b
    }

    fn term(&self, t: &Term, inside: bool) -> bool {
        match t {
            Term::ProgramVariable(_) => true,
            _ => inside,
        }
    }

    fn loc(&self, _l: &Loc, inside: bool) -> bool {
        inside
    }

    fn formula(&self, _f: &Formula, inside: bool) -> bool {
        inside
    }

    fn pair(&self, _x: &VarId, _inside: bool) -> bool {
        true
    }

    fn code(&self, _c: &Code) -> bool {
        true
    }
}

// Whether a program variable stands in the term.
fn has_variable(t: &Term) -> bool
    ensures { result ≡ has_variable (term_view t.now) }
{
    fold_term(&AnyVariable, t)
}

// The index below one more binder; `NoMemory` past 64 bits.
fn below(index: u64) -> Result<u64, NoMemory>
    ensures { IfOk result (λ n. n ≡ suc index) }
{
    counted(index)
}

// Whether one of two is so.
fn of_two(a: Result<bool, NoMemory>, b: Result<bool, NoMemory>) -> Result<bool, NoMemory>
    ensures { (x y : Bool) → Tells a x → Tells b y → Tells result (x || y) }
{
    Ok(a? || b?)
}

// Whether one of three is so.
fn of_three(
    a: Result<bool, NoMemory>,
    b: Result<bool, NoMemory>,
    c: Result<bool, NoMemory>,
) -> Result<bool, NoMemory>
    ensures { (x y z : Bool) → Tells a x → Tells b y → Tells c z → Tells result (x || y || z) }
{
    Ok(a? || b? || c?)
}

// Whether one of four is so.
fn of_four(
    a: Result<bool, NoMemory>,
    b: Result<bool, NoMemory>,
    c: Result<bool, NoMemory>,
    d: Result<bool, NoMemory>,
) -> Result<bool, NoMemory>
    ensures { (x y z w : Bool) → Tells a x → Tells b y → Tells c z → Tells d w → Tells result (x || y || z || w) }
{
    Ok(a? || b? || c? || d?)
}

// Whether the index stands in the term below one more binder.
#[cycle(index_in_term)]
fn index_below(index: u64, t: &Box<Term>) -> Result<bool, NoMemory>
    ensures { Tells result (index_in_term (suc index) (term_view t.now.value)) }
{
    index_in_term(below(index)?, t)
}

// Whether the index stands in the term.
#[cycle(index_in_term)]
fn index_in_term(index: u64, t: &Term) -> Result<bool, NoMemory>
    ensures { Tells result (index_in_term index (term_view t.now)) }
{
    match t {
        Term::Number(_)
        | Term::Boolean(_)
        | Term::NullTerm
        | Term::ProgramVariable(_)
        | Term::Constant(_)
        | Term::NamedField(_)
        | Term::CreatedField => Ok(false),
        Term::Bound(k, _) => Ok(u64::from(*k) == index),
        Term::Negation(a) | Term::Wrap(a) | Term::Length(a) | Term::ElementField(a) =>
            index_in_term(index, a),
        Term::Arithmetic(_, a, b) => of_two(index_in_term(index, a), index_in_term(index, b)),
        Term::Create(a, b) => of_two(index_in_term(index, a), index_in_term(index, b)),
        Term::Select(_, a, b, c) => of_three(
            index_in_term(index, a),
            index_in_term(index, b),
            index_in_term(index, c),
        ),
        Term::Sum(a, b, c) => of_three(
            index_in_term(index, a),
            index_in_term(index, b),
            index_below(index, c),
        ),
        Term::Store(a, b, c, d) => of_four(
            index_in_term(index, a),
            index_in_term(index, b),
            index_in_term(index, c),
            index_in_term(index, d),
        ),
        Term::Anon(a, l, b) => of_three(
            index_in_term(index, a),
            index_in_loc(index, l),
            index_in_term(index, b),
        ),
    }
}

// The same of a location set.
#[cycle(index_in_term)]
fn index_in_loc(index: u64, l: &Loc) -> Result<bool, NoMemory>
    ensures { Tells result (index_in_loc index (loc_view l.now)) }
{
    match l {
        Loc::NoLocations | Loc::AllLocations => Ok(false),
        Loc::ObjectFields(a) | Loc::ArrayElements(a) => index_in_term(index, a),
        Loc::Single(a, b) => of_two(index_in_term(index, a), index_in_term(index, b)),
        Loc::ElementRange(a, b, c) => of_three(
            index_in_term(index, a),
            index_in_term(index, b),
            index_in_term(index, c),
        ),
        Loc::Union(a, b) => of_two(index_in_loc(index, a), index_in_loc(index, b)),
    }
}

// The same of an update's right sides.
#[tactic(auto, using(jd_syntax::proofs::Lists::rest))]
fn index_in_pairs(index: u64, pairs: &[Elementary]) -> Result<bool, NoMemory>
    ensures { IfOk result (λ b. b ≡ index_in_pairs index (map pair_view pairs.now)) }
{
    for p in pairs {
        if index_in_term(index, &p.value)? {
            return Ok(true);
        }
    }
    Ok(false)
}

// The same of two terms.
fn index_in_terms(index: u64, a: &Term, b: &Term) -> Result<bool, NoMemory>
    ensures { Tells result (index_in_term index (term_view a.now) || index_in_term index (term_view b.now)) }
{
    Ok(index_in_term(index, a)? || index_in_term(index, b)?)
}

// The same of a location and a location set.
fn index_in_location(index: u64, a: &Term, b: &Term, l: &Loc) -> Result<bool, NoMemory>
    ensures { Tells result (index_in_term index (term_view a.now) || index_in_term index (term_view b.now) || index_in_loc index (loc_view l.now)) }
{
    Ok(index_in_term(index, a)? || index_in_term(index, b)? || index_in_loc(index, l)?)
}

// The same of a formula.
fn index_in(index: u64, f: &Formula) -> Result<bool, NoMemory>
    ensures { IfOk result (λ b. b ≡ index_in index (formula_view f.now)) }
{
    match f {
        Formula::TrueFormula | Formula::FalseFormula => Ok(false),
        Formula::Not(a) | Formula::Modal(_, _, a) => index_in(index, a),
        Formula::And(a, b) | Formula::Or(a, b) | Formula::Implies(a, b) | Formula::Iff(a, b) => Ok(
            index_in(index, a)? || index_in(index, b)?,
        ),
        Formula::Equal(a, b)
        | Formula::Less(a, b)
        | Formula::LessOrEqual(a, b)
        | Formula::Invariant(a, b) => index_in_terms(index, a, b),
        Formula::Forall(_, a) | Formula::Exists(_, a) => index_in(below(index)?, a),
        Formula::Updated(u, a) => Ok(index_in_pairs(index, &u.pairs)? || index_in(index, a)?),
        Formula::InLocations(a, b, l) => index_in_location(index, a, b, l),
        Formula::InInt(a)
        | Formula::WellFormed(a)
        | Formula::IsInstance(_, a)
        | Formula::IsExactInstance(_, a) => index_in_term(index, a),
    }
}

// Whether no place of the index lies in an update's body or a modality's formula.
fn is_outside(index: u64, f: &Formula) -> Result<bool, NoMemory>
    ensures { IfOk result (λ b. b ≡ is_outside index (formula_view f.now)) }
{
    match f {
        Formula::Not(a) => is_outside(index, a),
        Formula::And(a, b) | Formula::Or(a, b) | Formula::Implies(a, b) | Formula::Iff(a, b) => Ok(
            is_outside(index, a)? && is_outside(index, b)?,
        ),
        Formula::Forall(_, a) | Formula::Exists(_, a) => is_outside(below(index)?, a),
        Formula::Updated(_, a) | Formula::Modal(_, _, a) => Ok(!index_in(index, a)?),
        Formula::TrueFormula
        | Formula::FalseFormula
        | Formula::Equal(_, _)
        | Formula::Less(_, _)
        | Formula::LessOrEqual(_, _)
        | Formula::InLocations(_, _, _)
        | Formula::InInt(_)
        | Formula::WellFormed(_)
        | Formula::Invariant(_, _)
        | Formula::IsInstance(_, _)
        | Formula::IsExactInstance(_, _) => Ok(true),
    }
}

// The same of a term and a formula that are there.
fn is_steady_in(t: &Term, f: &Formula) -> Result<bool, NoMemory>
    ensures { IfOk result (λ b. b ≡ is_steady (term_view t.now) (formula_view f.now)) }
{
    if !has_variable(t) {
        return Ok(true);
    }
    is_outside(0, f)
}

/// Whether the term may be put for the index 0 of the formula: it has no program variable, or the index stands in no update's body and in no
/// modality's formula. Nothing stands for `null` and for `true`, where it may.
pub fn is_steady(t: Option<&Term>, f: Option<&Formula>) -> Result<bool, NoMemory>
    ensures { IfOk result (λ b. b ≡ is_steady (term_or (option_map (λ t. term_view t.now) t.entry)) (formula_or (option_map (λ a. formula_view a.now) f.entry))) }
{
    match t {
        Some(t) => match f {
            Some(f) => is_steady_in(t, f),
            None => Ok(true),
        },
        None => Ok(true),
    }
}
