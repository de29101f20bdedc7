use crate::heads::{SClass, SKind, SName, SResult};
use jd_base::Sort;
use jd_lists::discard;
use jd_syntax::{BinaryOp, UnaryOp};

/// A pattern of expressions of code. A schema variable goes by its name.
pub enum SExpr {
    /// `s`: any simple expression.
    Simple(Vec<u8>),
    /// `i`, `o`: any simple expression of the sort.
    SimpleOf(Sort, Vec<u8>),
    /// A variable.
    Variable(SName),
    /// `(neg X)`, `(not X)`
    Unary(UnaryOp, Box<SExpr>),
    /// `(add X X)` and the like
    Binary(BinaryOp, Box<SExpr>, Box<SExpr>),
    /// `(get X C.f)`, of any field
    ReadField(Box<SExpr>, Vec<u8>),
    /// `(aget X X)`
    ReadElement(Box<SExpr>, Box<SExpr>),
    /// `(len X)`
    LengthOf(Box<SExpr>),
    /// `(cast K X)`
    Cast(SKind, Box<SExpr>),
    /// `(inst K X)`
    InstanceOf(SKind, Box<SExpr>),
}

/// A pattern of statements of code.
#[cycle(code_pattern)]
pub enum SStmt {
    /// `R`: a `return` of a simple expression or of no value.
    AnyReturn(Vec<u8>),
    /// `(set x X)`
    Set(SName, SExpr),
    /// `(put X C.f X)`, of any field
    WriteField(SExpr, Vec<u8>, SExpr),
    /// `(aput X X X)`
    WriteElement(SExpr, SExpr, SExpr),
    /// `(eval X)`
    Evaluate(SExpr),
    /// `(if X (s..) (s..))`
    If(SExpr, Box<SCode>, Box<SCode>),
    /// `(block l (s..))`
    Block(Vec<u8>, Box<SCode>),
    /// `(block l ((break k) s..))`, where k is not l.
    BlockPast(Vec<u8>, Vec<u8>, Box<SCode>),
    /// `(break l)`
    Break(Vec<u8>),
    /// `(catch (s..) x (s..))`
    Catch(Box<SCode>, SName, Box<SCode>),
    /// `(finally (s..) (s..))`
    Finally(Box<SCode>, Box<SCode>),
    /// `(throw X)`
    Throw(SExpr),
    /// `(throwx X)`
    ThrowUnchecked(SExpr),
    /// `(return X)`
    Return(SExpr),
    /// `(return)`
    ReturnVoid,
    /// `(frame r (s..))`
    Frame(SResult, Box<SCode>),
    /// `(raise C)`
    Raise(SClass),
    /// `(alloc x C)`
    AllocObject(SName, SClass),
    /// `(alloc x (arr X))`
    AllocArray(SName, SExpr),
    /// `(allocarr x X)`
    NewArray(SName, SExpr),
    /// `(stop)`
    Stop,
}

/// A pattern of lists of statements.
#[cycle(code_pattern)]
pub enum SCode {
    /// No statement.
    Done,
    /// A statement, and others behind it.
    Then(Box<SStmt>, Box<SCode>),
    /// Any statements in a row, and others behind them. In what a row finds none are, so they are the rest of the list.
    AnyThen(Vec<u8>, Box<SCode>),
}

#[cycle(drop_expr_pattern)]
#[inline(never)]
fn let_go(e: Box<SExpr>) {
    let _inside = Box::into_inner(e);
}

// Written out, so that it is proved here alone, and not in each crate that lets a pattern go.
impl Drop for SExpr {
    #[cycle(drop_expr_pattern)]
    fn drop(self) {
        match self {
            SExpr::Simple(n) | SExpr::SimpleOf(_, n) => discard(n),
            SExpr::Variable(x) => discard(x),
            SExpr::Unary(_, a) | SExpr::LengthOf(a) => let_go(a),
            SExpr::Binary(_, a, b) | SExpr::ReadElement(a, b) => {
                let_go(a);
                let_go(b);
            }
            SExpr::ReadField(a, n) => {
                let_go(a);
                discard(n);
            }
            SExpr::Cast(k, a) | SExpr::InstanceOf(k, a) => {
                discard(k);
                let_go(a);
            }
        }
    }
}

#[cycle(drop_code_pattern)]
#[inline(never)]
fn let_go_stmt(s: Box<SStmt>) {
    let _inside = Box::into_inner(s);
}

#[cycle(drop_code_pattern)]
#[inline(never)]
fn let_go_code(c: Box<SCode>) {
    let _inside = Box::into_inner(c);
}

impl Drop for SStmt {
    #[cycle(drop_code_pattern)]
    fn drop(self) {
        match self {
            SStmt::ReturnVoid | SStmt::Stop => {}
            SStmt::AnyReturn(n) | SStmt::Break(n) => discard(n),
            SStmt::Set(x, e) | SStmt::AllocArray(x, e) | SStmt::NewArray(x, e) => {
                discard(x);
                discard(e);
            }
            SStmt::WriteField(e, n, f) => {
                discard(e);
                discard(n);
                discard(f);
            }
            SStmt::WriteElement(e, f, g) => {
                discard(e);
                discard(f);
                discard(g);
            }
            SStmt::Evaluate(e) | SStmt::Throw(e) | SStmt::ThrowUnchecked(e) | SStmt::Return(e) =>
                discard(e),
            SStmt::If(e, c, d) => {
                discard(e);
                let_go_code(c);
                let_go_code(d);
            }
            SStmt::Block(n, c) => {
                discard(n);
                let_go_code(c);
            }
            SStmt::BlockPast(n, m, c) => {
                discard(n);
                discard(m);
                let_go_code(c);
            }
            SStmt::Catch(c, x, d) => {
                let_go_code(c);
                discard(x);
                let_go_code(d);
            }
            SStmt::Finally(c, d) => {
                let_go_code(c);
                let_go_code(d);
            }
            SStmt::Frame(r, c) => {
                discard(r);
                let_go_code(c);
            }
            SStmt::Raise(k) => discard(k),
            SStmt::AllocObject(x, k) => {
                discard(x);
                discard(k);
            }
        }
    }
}

impl Drop for SCode {
    #[cycle(drop_code_pattern)]
    fn drop(self) {
        match self {
            SCode::Done => {}
            SCode::Then(s, c) => {
                let_go_stmt(s);
                let_go_code(c);
            }
            SCode::AnyThen(n, c) => {
                discard(n);
                let_go_code(c);
            }
        }
    }
}
