//! Equality of terms, location sets and formulas.

ghost use Rattle.jd_term.specs.Formulas.{formula_view, pair_view, update_view};
ghost use Rattle.jd_term.specs.TermViews.{const_view, loc_view, term_view};
ghost use Rattle.std.specs.Prelude.{◌≡◌, ◌↔◌, IsTrue, map};

use crate::formula::{Elementary, Formula, Update};
use crate::term::{ConstId, Loc, Term};

impl ConstId {
    /// Whether name and sort agree.
    pub fn equals(&self, other: &ConstId) -> bool
        ensures { IsTrue result ↔ const_view self.now ≡ const_view other.now }
    {
        self.sort == other.sort && self.name.as_slice() == other.name.as_slice()
    }
}

impl Term {
    /// Whether the terms are equal, with all their parts.
    #[cycle(equal_term)]
    pub fn equals(&self, other: &Term) -> bool
        ensures { IsTrue result ↔ term_view self.now ≡ term_view other.now }
    {
        match (self, other) {
            (Term::Number(m), Term::Number(n)) => *m == *n,
            (Term::Boolean(a), Term::Boolean(b)) => *a == *b,
            (Term::NullTerm, Term::NullTerm) | (Term::CreatedField, Term::CreatedField) => true,
            (Term::ProgramVariable(x), Term::ProgramVariable(y)) => x.equals(y),
            (Term::Constant(c), Term::Constant(d)) => c.equals(d),
            (Term::Bound(i, s), Term::Bound(k, t)) => *i == *k && *s == *t,
            (Term::Arithmetic(o, a, b), Term::Arithmetic(p, c, d)) => *o == *p
                && a.equals(c)
                && b.equals(d),
            (Term::Negation(a), Term::Negation(b)) => a.equals(b),
            (Term::Wrap(a), Term::Wrap(b)) => a.equals(b),
            (Term::Length(a), Term::Length(b)) => a.equals(b),
            (Term::Select(s, a, b, c), Term::Select(t, d, e, f)) => *s == *t
                && a.equals(d)
                && b.equals(e)
                && c.equals(f),
            (Term::Sum(a, b, c), Term::Sum(d, e, f)) => a.equals(d) && b.equals(e) && c.equals(f),
            (Term::Store(a, b, c, d), Term::Store(e, f, g, h)) => a.equals(e)
                && b.equals(f)
                && c.equals(g)
                && d.equals(h),
            (Term::Create(a, b), Term::Create(c, d)) => a.equals(c) && b.equals(d),
            (Term::Anon(a, l, b), Term::Anon(c, m, d)) => a.equals(c) && l.equals(m) && b.equals(d),
            (Term::NamedField(f), Term::NamedField(g)) => f.0 == g.0,
            (Term::ElementField(a), Term::ElementField(b)) => a.equals(b),
            _ => false,
        }
    }
}

impl Loc {
    /// Whether the location sets are equal, with all their parts.
    #[cycle(equal_term)]
    pub fn equals(&self, other: &Loc) -> bool
        ensures { IsTrue result ↔ loc_view self.now ≡ loc_view other.now }
    {
        match (self, other) {
            (Loc::NoLocations, Loc::NoLocations) | (Loc::AllLocations, Loc::AllLocations) => true,
            (Loc::Single(a, b), Loc::Single(c, d)) => a.equals(c) && b.equals(d),
            (Loc::ObjectFields(a), Loc::ObjectFields(b)) => a.equals(b),
            (Loc::ArrayElements(a), Loc::ArrayElements(b)) => a.equals(b),
            (Loc::ElementRange(a, b, c), Loc::ElementRange(d, e, f)) => a.equals(d)
                && b.equals(e)
                && c.equals(f),
            (Loc::Union(l, m), Loc::Union(p, q)) => l.equals(p) && m.equals(q),
            _ => false,
        }
    }
}

impl Elementary {
    /// Whether variable and value agree.
    pub fn equals(&self, other: &Elementary) -> bool
        ensures { IsTrue result ↔ pair_view self.now ≡ pair_view other.now }
    {
        self.variable.equals(&other.variable) && self.value.equals(&other.value)
    }
}

#[tactic(auto, using(jd_syntax::proofs::Lists::at_each))]
fn equal_pairs(a: &[Elementary], b: &[Elementary]) -> bool
    ensures { IsTrue result ↔ map pair_view a.now ≡ map pair_view b.now }
{
    if a.len() != b.len() {
        return false;
    }
    for i in 0..a.len() {
        if !a[i].equals(&b[i]) {
            return false;
        }
    }
    true
}

impl Update {
    /// Whether the elementary updates are equal, one by one.
    pub fn equals(&self, other: &Update) -> bool
        ensures { IsTrue result ↔ update_view self.now ≡ update_view other.now }
    {
        equal_pairs(&self.pairs, &other.pairs)
    }
}

impl Formula {
    /// Whether the formulas are equal, with all their parts.
    pub fn equals(&self, other: &Formula) -> bool
        ensures { IsTrue result ↔ formula_view self.now ≡ formula_view other.now }
    {
        match (self, other) {
            (Formula::TrueFormula, Formula::TrueFormula)
            | (Formula::FalseFormula, Formula::FalseFormula) => true,
            (Formula::Not(a), Formula::Not(b)) => a.equals(b),
            (Formula::And(a, b), Formula::And(c, d)) => a.equals(c) && b.equals(d),
            (Formula::Or(a, b), Formula::Or(c, d)) => a.equals(c) && b.equals(d),
            (Formula::Implies(a, b), Formula::Implies(c, d)) => a.equals(c) && b.equals(d),
            (Formula::Iff(a, b), Formula::Iff(c, d)) => a.equals(c) && b.equals(d),
            (Formula::Equal(a, b), Formula::Equal(c, d)) => a.equals(c) && b.equals(d),
            (Formula::Less(a, b), Formula::Less(c, d)) => a.equals(c) && b.equals(d),
            (Formula::LessOrEqual(a, b), Formula::LessOrEqual(c, d)) => a.equals(c) && b.equals(d),
            (Formula::Forall(s, a), Formula::Forall(t, b)) => *s == *t && a.equals(b),
            (Formula::Exists(s, a), Formula::Exists(t, b)) => *s == *t && a.equals(b),
            (Formula::Updated(u, a), Formula::Updated(v, b)) => u.equals(v) && a.equals(b),
            (Formula::Modal(m, c, a), Formula::Modal(n, d, b)) => *m == *n
                && c.equals(d)
                && a.equals(b),
            (Formula::InLocations(a, b, l), Formula::InLocations(c, d, m)) => a.equals(c)
                && b.equals(d)
                && l.equals(m),
            (Formula::InInt(a), Formula::InInt(b)) => a.equals(b),
            (Formula::WellFormed(a), Formula::WellFormed(b)) => a.equals(b),
            (Formula::Invariant(a, b), Formula::Invariant(c, d)) => a.equals(c) && b.equals(d),
            (Formula::IsInstance(k, a), Formula::IsInstance(l, b)) => k.equals(l) && a.equals(b),
            (Formula::IsExactInstance(k, a), Formula::IsExactInstance(l, b)) => k.equals(l)
                && a.equals(b),
            _ => false,
        }
    }
}
