//! Equality of variables, code and bracketed expressions.

ghost use Rattle.jd_syntax.specs.CodeViews.{code_view, expr_view, kind_view, stmt_view};
ghost use Rattle.jd_syntax.specs.Names.{var_view};
ghost use Rattle.jd_syntax.specs.Sxs.{sx_view};
ghost use Rattle.std.specs.Prelude.{◌≡◌, ◌↔◌, IsTrue, map, option_map};

use crate::code::{Code, CodeExpr, CodeStmt, Kind};
use crate::sx::Sx;
use crate::variable::VarId;

impl VarId {
    /// Whether name and sort agree.
    pub fn equals(&self, other: &VarId) -> bool
        ensures { IsTrue result ↔ var_view self.now ≡ var_view other.now }
    {
        self.sort == other.sort && self.name.as_slice() == other.name.as_slice()
    }
}

impl Kind {
    /// Whether both are `int[]`, or one class.
    pub fn equals(&self, other: &Kind) -> bool
        ensures { IsTrue result ↔ kind_view self.now ≡ kind_view other.now }
    {
        match (self, other) {
            (Kind::Class(c), Kind::Class(d)) => c.0 == d.0,
            (Kind::IntArray, Kind::IntArray) => true,
            _ => false,
        }
    }
}

fn equal_results(a: &Option<VarId>, b: &Option<VarId>) -> bool
    ensures { IsTrue result ↔ option_map var_view a.now ≡ option_map var_view b.now }
{
    match (a, b) {
        (None, None) => true,
        (Some(a), Some(b)) => a.equals(b),
        _ => false,
    }
}

impl Code {
    /// Whether the statements are equal, one by one.
    #[cycle(equal_code)]
    #[tactic(auto, using(crate::proofs::CodeLemmas::rows))]
    pub fn equals(&self, other: &Code) -> bool
        ensures { IsTrue result ↔ code_view self.now ≡ code_view other.now }
    {
        equal_stmts(&self.stmts, &other.stmts)
    }
}

#[cycle(equal_code)]
#[tactic(auto, using(crate::proofs::Lists::at_each))]
fn equal_stmts(a: &[CodeStmt], b: &[CodeStmt]) -> bool
    ensures { IsTrue result ↔ map stmt_view a.now ≡ map stmt_view b.now }
{
    if a.len() != b.len() {
        return false;
    }
    for i in 0..a.len() {
        if !a[i].equals(&b[i]) {
            return false;
        }
    }
    true
}

#[cycle(equal_code)]
#[tactic(auto, using(crate::proofs::Lists::at_each))]
fn equal_exprs(a: &[CodeExpr], b: &[CodeExpr]) -> bool
    ensures { IsTrue result ↔ map expr_view a.now ≡ map expr_view b.now }
{
    if a.len() != b.len() {
        return false;
    }
    for i in 0..a.len() {
        if !a[i].equals(&b[i]) {
            return false;
        }
    }
    true
}

impl CodeStmt {
    /// Whether the statements are equal, with all their parts.
    #[cycle(equal_code)]
    pub fn equals(&self, other: &CodeStmt) -> bool
        ensures { IsTrue result ↔ stmt_view self.now ≡ stmt_view other.now }
    {
        match (self, other) {
            (CodeStmt::Set(v, a), CodeStmt::Set(w, b)) => v.equals(w) && a.equals(b),
            (CodeStmt::WriteField(a, f, b), CodeStmt::WriteField(d, g, e)) => a.equals(d)
                && f.0 == g.0
                && b.equals(e),
            (CodeStmt::WriteElement(a, b, c), CodeStmt::WriteElement(d, e, f)) => a.equals(d)
                && b.equals(e)
                && c.equals(f),
            (CodeStmt::Evaluate(a), CodeStmt::Evaluate(b)) => a.equals(b),
            (CodeStmt::If(a, c, d), CodeStmt::If(b, e, f)) => a.equals(b)
                && c.equals(e)
                && d.equals(f),
            (CodeStmt::While(k, a, c), CodeStmt::While(l, b, d)) => *k == *l
                && a.equals(b)
                && c.equals(d),
            (CodeStmt::Block(l, c), CodeStmt::Block(m, d)) => *l == *m && c.equals(d),
            (CodeStmt::Break(l), CodeStmt::Break(m)) => *l == *m,
            (CodeStmt::Catch(c, v, d), CodeStmt::Catch(e, w, f)) => c.equals(e)
                && v.equals(w)
                && d.equals(f),
            (CodeStmt::Finally(c, d), CodeStmt::Finally(e, f)) => c.equals(e) && d.equals(f),
            (CodeStmt::Throw(a), CodeStmt::Throw(b)) => a.equals(b),
            (CodeStmt::ThrowUnchecked(a), CodeStmt::ThrowUnchecked(b)) => a.equals(b),
            (CodeStmt::Return(a), CodeStmt::Return(b)) => a.equals(b),
            (CodeStmt::ReturnVoid, CodeStmt::ReturnVoid) => true,
            (CodeStmt::Frame(r, c), CodeStmt::Frame(s, d)) => equal_results(r, s) && c.equals(d),
            (CodeStmt::Raise(c), CodeStmt::Raise(d)) => c.0 == d.0,
            (CodeStmt::AllocObject(v, c), CodeStmt::AllocObject(w, d)) => v.equals(w) && c.0 == d.0,
            (CodeStmt::AllocArray(v, a), CodeStmt::AllocArray(w, b)) => v.equals(w) && a.equals(b),
            (CodeStmt::NewArray(v, a), CodeStmt::NewArray(w, b)) => v.equals(w) && a.equals(b),
            (CodeStmt::Stop, CodeStmt::Stop) => true,
            _ => false,
        }
    }
}

impl CodeExpr {
    /// Whether the expressions are equal, with all their parts.
    #[cycle(equal_code)]
    #[tactic(auto, using(crate::proofs::CodeLemmas::calls))]
    pub fn equals(&self, other: &CodeExpr) -> bool
        ensures { IsTrue result ↔ expr_view self.now ≡ expr_view other.now }
    {
        match (self, other) {
            (CodeExpr::IntLiteral(m), CodeExpr::IntLiteral(n)) => *m == *n,
            (CodeExpr::BoolLiteral(a), CodeExpr::BoolLiteral(b)) => *a == *b,
            (CodeExpr::NullLiteral, CodeExpr::NullLiteral) => true,
            (CodeExpr::Variable(v), CodeExpr::Variable(w)) => v.equals(w),
            (CodeExpr::Unary(o, a), CodeExpr::Unary(p, b)) => *o == *p && a.equals(b),
            (CodeExpr::Binary(o, a, b), CodeExpr::Binary(p, c, d)) => *o == *p
                && a.equals(c)
                && b.equals(d),
            (CodeExpr::AndAlso(a, b), CodeExpr::AndAlso(c, d)) => a.equals(c) && b.equals(d),
            (CodeExpr::OrElse(a, b), CodeExpr::OrElse(c, d)) => a.equals(c) && b.equals(d),
            (CodeExpr::Conditional(a, b, c), CodeExpr::Conditional(d, e, f)) => a.equals(d)
                && b.equals(e)
                && c.equals(f),
            (CodeExpr::ReadField(a, f), CodeExpr::ReadField(b, g)) => a.equals(b) && f.0 == g.0,
            (CodeExpr::ReadElement(a, b), CodeExpr::ReadElement(c, d)) => a.equals(c)
                && b.equals(d),
            (CodeExpr::LengthOf(a), CodeExpr::LengthOf(b)) => a.equals(b),
            (CodeExpr::Cast(k, a), CodeExpr::Cast(l, b)) => k.equals(l) && a.equals(b),
            (CodeExpr::InstanceOf(k, a), CodeExpr::InstanceOf(l, b)) => k.equals(l) && a.equals(b),
            (CodeExpr::VirtualCall(c, m, a, es), CodeExpr::VirtualCall(d, n, b, fs)) => c.0 == d.0
                && (m.0 == n.0 && (a.equals(b) && equal_exprs(es, fs))),
            (CodeExpr::StaticCall(m, es), CodeExpr::StaticCall(n, fs)) => m.0 == n.0
                && equal_exprs(es, fs),
            (CodeExpr::ConstructorCall(m, a, es), CodeExpr::ConstructorCall(n, b, fs)) => m.0 == n.0
                && (a.equals(b) && equal_exprs(es, fs)),
            (CodeExpr::DoThen(c, a), CodeExpr::DoThen(d, b)) => c.equals(d) && a.equals(b),
            _ => false,
        }
    }
}

impl Sx {
    /// Whether both are one token, or equal part by part.
    #[cycle(equal_sx)]
    #[tactic(auto, using(crate::proofs::SxLemmas::lists))]
    pub fn equals(&self, other: &Sx) -> bool
        ensures { IsTrue result ↔ sx_view self.now ≡ sx_view other.now }
    {
        match (self, other) {
            (Sx::Atom(a), Sx::Atom(b)) => a.as_slice() == b.as_slice(),
            (Sx::List(a), Sx::List(b)) => equal_parts(a, b),
            _ => false,
        }
    }
}

#[cycle(equal_sx)]
#[tactic(auto, using(crate::proofs::Lists::at_each))]
fn equal_parts(a: &[Sx], b: &[Sx]) -> bool
    ensures { IsTrue result ↔ map sx_view a.now ≡ map sx_view b.now }
{
    if a.len() != b.len() {
        return false;
    }
    for i in 0..a.len() {
        if !a[i].equals(&b[i]) {
            return false;
        }
    }
    true
}
