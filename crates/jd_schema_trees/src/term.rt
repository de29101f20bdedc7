use crate::heads::{SName, SSort};
use jd_base::Sort;
use jd_lists::discard;
use jd_term::ArithmeticOp;

/// A pattern of terms. A schema variable goes by its name.
#[cycle(term_pattern)]
pub enum STerm {
    /// `s`: any term.
    Any(Vec<u8>),
    /// `i`, `o`, `h`: any term of the sort.
    OfSort(Sort, Vec<u8>),
    /// `m`: any literal.
    Literal(Vec<u8>),
    /// `C.f`: any named field.
    Field(Vec<u8>),
    /// `s[t]`: the variable's term with t for `%0`.
    Put(Vec<u8>, Box<STerm>),
    /// The variable's term below one more binder.
    Lifted(Vec<u8>),
    /// A simple expression's variable, as a term.
    OfSimple(Vec<u8>),
    /// A program variable.
    ProgramVariable(SName),
    /// A constant.
    Constant(SName),
    /// This literal.
    Number(i128),
    /// `true`, `false`
    Boolean(bool),
    /// `null`
    NullTerm,
    /// `%k`, of the sort.
    Bound(u32, Sort),
    /// `created`
    CreatedField,
    /// `(neg t)`
    Negation(Box<STerm>),
    /// `(wrap t)`
    Wrap(Box<STerm>),
    /// `(len o)`
    Length(Box<STerm>),
    /// `(idx t)`
    ElementField(Box<STerm>),
    /// `(add t t)` and the like
    Arithmetic(ArithmeticOp, Box<STerm>, Box<STerm>),
    /// `(selX h o f)`
    Select(SSort, Box<STerm>, Box<STerm>, Box<STerm>),
    /// `(bsum t t t)`
    Sum(Box<STerm>, Box<STerm>, Box<STerm>),
    /// `(store h o f t)`
    Store(Box<STerm>, Box<STerm>, Box<STerm>, Box<STerm>),
    /// `(create h o)`
    Create(Box<STerm>, Box<STerm>),
    /// `(anon h L h)`
    Anon(Box<STerm>, Box<SLoc>, Box<STerm>),
}

/// A pattern of location sets.
#[cycle(term_pattern)]
pub enum SLoc {
    /// `L`: any locations.
    Any(Vec<u8>),
    /// The variable's locations below one more binder.
    Lifted(Vec<u8>),
    /// `none`
    NoLocations,
    /// `all`
    AllLocations,
    /// `(loc o f)`
    Single(Box<STerm>, Box<STerm>),
    /// `(obj o)`
    ObjectFields(Box<STerm>),
    /// `(arrall o)`
    ArrayElements(Box<STerm>),
    /// `(arr o t t)`
    ElementRange(Box<STerm>, Box<STerm>, Box<STerm>),
    /// `(union L L)`
    Union(Box<SLoc>, Box<SLoc>),
}

#[cycle(drop_term_pattern)]
#[inline(never)]
fn let_go(t: Box<STerm>) {
    let _inside = Box::into_inner(t);
}

#[cycle(drop_term_pattern)]
#[inline(never)]
fn let_go_loc(l: Box<SLoc>) {
    let _inside = Box::into_inner(l);
}

// Written out, so that it is proved here alone, and not in each crate that lets a pattern go.
impl Drop for STerm {
    #[cycle(drop_term_pattern)]
    fn drop(self) {
        match self {
            STerm::Number(_)
            | STerm::Boolean(_)
            | STerm::NullTerm
            | STerm::Bound(_, _)
            | STerm::CreatedField => {}
            STerm::Any(n)
            | STerm::OfSort(_, n)
            | STerm::Literal(n)
            | STerm::Field(n)
            | STerm::Lifted(n)
            | STerm::OfSimple(n) => discard(n),
            STerm::ProgramVariable(x) | STerm::Constant(x) => discard(x),
            STerm::Put(n, a) => {
                discard(n);
                let_go(a);
            }
            STerm::Negation(a) | STerm::Wrap(a) | STerm::Length(a) | STerm::ElementField(a) =>
                let_go(a),
            STerm::Arithmetic(_, a, b) | STerm::Create(a, b) => {
                let_go(a);
                let_go(b);
            }
            STerm::Sum(a, b, c) => {
                let_go(a);
                let_go(b);
                let_go(c);
            }
            STerm::Select(s, a, b, c) => {
                discard(s);
                let_go(a);
                let_go(b);
                let_go(c);
            }
            STerm::Store(a, b, c, d) => {
                let_go(a);
                let_go(b);
                let_go(c);
                let_go(d);
            }
            STerm::Anon(a, l, b) => {
                let_go(a);
                let_go_loc(l);
                let_go(b);
            }
        }
    }
}

impl Drop for SLoc {
    #[cycle(drop_term_pattern)]
    fn drop(self) {
        match self {
            SLoc::NoLocations | SLoc::AllLocations => {}
            SLoc::Any(n) | SLoc::Lifted(n) => discard(n),
            SLoc::ObjectFields(a) | SLoc::ArrayElements(a) => let_go(a),
            SLoc::Single(a, b) => {
                let_go(a);
                let_go(b);
            }
            SLoc::ElementRange(a, b, c) => {
                let_go(a);
                let_go(b);
                let_go(c);
            }
            SLoc::Union(a, b) => {
                let_go_loc(a);
                let_go_loc(b);
            }
        }
    }
}
