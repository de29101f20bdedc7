use crate::code::SCode;
use crate::heads::{SKind, SModality, SName, SSort};
use crate::term::{SLoc, STerm};
use jd_lists::discard;

/// A pattern of formulas. A schema variable goes by its name. Terms are in boxes, so that the type has few parts.
pub enum SFormula {
    /// `A`: any formula.
    Any(Vec<u8>),
    /// `A[t]`: the variable's formula with t for `%0`.
    Put(Vec<u8>, Box<STerm>),
    /// The variable's formula below one more binder.
    Lifted(Vec<u8>),
    /// `true`
    TrueFormula,
    /// `false`
    FalseFormula,
    /// `(not A)`
    Not(Box<SFormula>),
    /// `(and A A)`
    And(Box<SFormula>, Box<SFormula>),
    /// `(or A A)`
    Or(Box<SFormula>, Box<SFormula>),
    /// `(imp A A)`
    Implies(Box<SFormula>, Box<SFormula>),
    /// `(iff A A)`
    Iff(Box<SFormula>, Box<SFormula>),
    /// `(eq t t)`
    Equal(Box<STerm>, Box<STerm>),
    /// `(lt t t)`
    Less(Box<STerm>, Box<STerm>),
    /// `(le t t)`
    LessOrEqual(Box<STerm>, Box<STerm>),
    /// `(forall S A)`
    Forall(SSort, Box<SFormula>),
    /// `(exists S A)`
    Exists(SSort, Box<SFormula>),
    /// `(upd ((x t)) A)`
    Updated(SName, Box<STerm>, Box<SFormula>),
    /// `{s..}`: a modality whose code has these statements at its focus. The modality and what is around the focus are variables.
    Focus(Vec<u8>, Vec<u8>, SCode, Box<SFormula>),
    /// `(M (s..) A)`: a modality over just this code.
    Modal(SModality, SCode, Box<SFormula>),
    /// `(in o f L)`
    InLocations(Box<STerm>, Box<STerm>, Box<SLoc>),
    /// `(inInt t)`
    InInt(Box<STerm>),
    /// `(wf h)`
    WellFormed(Box<STerm>),
    /// `(inv h o)`
    Invariant(Box<STerm>, Box<STerm>),
    /// `(inst K o)`
    IsInstance(SKind, Box<STerm>),
    /// `(exact K o)`
    IsExactInstance(SKind, Box<STerm>),
}

#[cycle(drop_formula_pattern)]
#[inline(never)]
fn let_go(a: Box<SFormula>) {
    let _inside = Box::into_inner(a);
}

// Written out, so that it is proved here alone, and not in each crate that lets a pattern go.
impl Drop for SFormula {
    #[cycle(drop_formula_pattern)]
    fn drop(self) {
        match self {
            SFormula::TrueFormula | SFormula::FalseFormula => {}
            SFormula::Any(n) | SFormula::Lifted(n) => discard(n),
            SFormula::Put(n, t) => {
                discard(n);
                discard(t);
            }
            SFormula::Not(a) => let_go(a),
            SFormula::And(a, b)
            | SFormula::Or(a, b)
            | SFormula::Implies(a, b)
            | SFormula::Iff(a, b) => {
                let_go(a);
                let_go(b);
            }
            SFormula::Forall(s, a) | SFormula::Exists(s, a) => {
                discard(s);
                let_go(a);
            }
            SFormula::Equal(t, u)
            | SFormula::Less(t, u)
            | SFormula::LessOrEqual(t, u)
            | SFormula::Invariant(t, u) => {
                discard(t);
                discard(u);
            }
            SFormula::Updated(x, t, a) => {
                discard(x);
                discard(t);
                let_go(a);
            }
            SFormula::Focus(m, k, c, a) => {
                discard(m);
                discard(k);
                discard(c);
                let_go(a);
            }
            SFormula::Modal(m, c, a) => {
                discard(m);
                discard(c);
                let_go(a);
            }
            SFormula::InLocations(o, f, l) => {
                discard(o);
                discard(f);
                discard(l);
            }
            SFormula::InInt(t) | SFormula::WellFormed(t) => discard(t),
            SFormula::IsInstance(k, t) | SFormula::IsExactInstance(k, t) => {
                discard(k);
                discard(t);
            }
        }
    }
}
