//! What the parts of a tree give together: one recursion for sizes, depths and what occurs.

ghost use Rattle.jd_syntax.specs.CodeViews.{code_view};
ghost use Rattle.jd_syntax.specs.Names.{var_view};
ghost use Rattle.jd_term.specs.Folds.{Gathering, fold_formula, fold_loc, fold_pairs, fold_term};
ghost use Rattle.jd_term.specs.Formulas.{formula_view, pair_view};
ghost use Rattle.jd_term.specs.TermViews.{loc_view, term_view};
ghost use Rattle.std.specs.Prelude.{◌≡◌, map};

use crate::formula::{Elementary, Formula};
use crate::term::{Loc, Term};
use jd_syntax::{Code, VarId};

/// What the parts of a tree give together, and what the tree makes of it.
pub trait Gather {
    /// A small value.
    type Out: Copy;

    ghost gathers: { Self → Gathering Self.Out };

    /// What no part gives.
    fn none(&self) -> Self::Out
        ensures { result ≡ (gathers self.now).none };

    /// What two parts give.
    fn join(&self, a: Self::Out, b: Self::Out) -> Self::Out
        ensures { result ≡ (gathers self.now).join a b };

    /// What a term gives whose parts gave `inside`.
    fn term(&self, t: &Term, inside: Self::Out) -> Self::Out
        ensures { result ≡ (gathers self.now).term (term_view t.now) inside };

    /// The same of a location set.
    fn loc(&self, l: &Loc, inside: Self::Out) -> Self::Out
        ensures { result ≡ (gathers self.now).loc (loc_view l.now) inside };

    /// The same of a formula.
    fn formula(&self, f: &Formula, inside: Self::Out) -> Self::Out
        ensures { result ≡ (gathers self.now).formula (formula_view f.now) inside };

    /// What a pair of an update gives whose right side gave `inside`.
    fn pair(&self, x: &VarId, inside: Self::Out) -> Self::Out
        ensures { result ≡ (gathers self.now).pair (var_view x.now) inside };

    /// What code gives.
    fn code(&self, c: &Code) -> Self::Out
        ensures { result ≡ (gathers self.now).code (code_view c.now) };
}

/// What the term's parts give together.
#[cycle(fold_term)]
pub fn fold_term<G: Gather>(g: &G, t: &Term) -> G::Out
    ensures { result ≡ fold_term (G.gathers g.now) (term_view t.now) }
{
    let inside = match t {
        Term::Number(_)
        | Term::Boolean(_)
        | Term::NullTerm
        | Term::ProgramVariable(_)
        | Term::Constant(_)
        | Term::Bound(_, _)
        | Term::NamedField(_)
        | Term::CreatedField => g.none(),
        Term::Negation(a) | Term::Wrap(a) | Term::Length(a) | Term::ElementField(a) => fold_term(
            g, a,
        ),
        Term::Arithmetic(_, a, b) | Term::Create(a, b) => g.join(fold_term(g, a), fold_term(g, b)),
        Term::Select(_, a, b, c) | Term::Sum(a, b, c) => g.join(
            g.join(fold_term(g, a), fold_term(g, b)),
            fold_term(g, c),
        ),
        Term::Store(a, b, c, d) => g.join(
            g.join(g.join(fold_term(g, a), fold_term(g, b)), fold_term(g, c)),
            fold_term(g, d),
        ),
        Term::Anon(a, l, b) => g.join(g.join(fold_term(g, a), fold_loc(g, l)), fold_term(g, b)),
    };
    g.term(t, inside)
}

/// What the location set's parts give together.
#[cycle(fold_term)]
pub fn fold_loc<G: Gather>(g: &G, l: &Loc) -> G::Out
    ensures { result ≡ fold_loc (G.gathers g.now) (loc_view l.now) }
{
    let inside = match l {
        Loc::NoLocations | Loc::AllLocations => g.none(),
        Loc::ObjectFields(a) | Loc::ArrayElements(a) => fold_term(g, a),
        Loc::Single(a, b) => g.join(fold_term(g, a), fold_term(g, b)),
        Loc::ElementRange(a, b, c) => g.join(
            g.join(fold_term(g, a), fold_term(g, b)),
            fold_term(g, c),
        ),
        Loc::Union(a, b) => g.join(fold_loc(g, a), fold_loc(g, b)),
    };
    g.loc(l, inside)
}

/// What the pairs of an update give together.
pub fn fold_pairs<G: Gather>(g: &G, pairs: &[Elementary]) -> G::Out
    ensures { result ≡ fold_pairs (G.gathers g.now) (map pair_view pairs.now) }
{
    let mut out = g.none();
    for place in (0..pairs.len()).rev() {
        let p = &pairs[place];
        out = g.join(g.pair(&p.variable, fold_term(g, &p.value)), out);
    }
    out
}

/// What the formula's parts give together.
pub fn fold_formula<G: Gather>(g: &G, f: &Formula) -> G::Out
    ensures { result ≡ fold_formula (G.gathers g.now) (formula_view f.now) }
{
    let inside = match f {
        Formula::TrueFormula | Formula::FalseFormula => g.none(),
        Formula::Not(a) | Formula::Forall(_, a) | Formula::Exists(_, a) => fold_formula(g, a),
        Formula::And(a, b) | Formula::Or(a, b) | Formula::Implies(a, b) | Formula::Iff(a, b) =>
            g.join(fold_formula(g, a), fold_formula(g, b)),
        Formula::Equal(a, b)
        | Formula::Less(a, b)
        | Formula::LessOrEqual(a, b)
        | Formula::Invariant(a, b) => g.join(fold_term(g, a), fold_term(g, b)),
        Formula::InInt(a)
        | Formula::WellFormed(a)
        | Formula::IsInstance(_, a)
        | Formula::IsExactInstance(_, a) => fold_term(g, a),
        Formula::Updated(u, a) => g.join(fold_pairs(g, &u.pairs), fold_formula(g, a)),
        Formula::Modal(_, c, a) => g.join(g.code(c), fold_formula(g, a)),
        Formula::InLocations(a, b, l) => g.join(
            g.join(fold_term(g, a), fold_term(g, b)),
            fold_loc(g, l),
        ),
    };
    g.formula(f, inside)
}
