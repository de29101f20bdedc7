//! The variables that occur in code.

ghost use Rattle.jd_syntax.specs.CodeNames.{expr_has_loop, exprs_have_loop, has_loop, heap_name, is_empty, is_result, is_special, named_in_code, named_in_expr, named_in_exprs, named_in_stmt, occurs_in_code, same_name, stmt_has_loop};
ghost use Rattle.jd_syntax.specs.CodeViews.{code_view, expr_view, stmt_view};
ghost use Rattle.jd_syntax.specs.Codes.{exprs_of, stmts_of};
ghost use Rattle.jd_syntax.specs.Names.{var_view};
ghost use Rattle.std.specs.Prelude.{◌≡◌, map, option_map};

use crate::code::{Code, CodeExpr, CodeStmt};
use crate::variable::VarId;
use jd_base::Sort;

// `equals`, by its test.
fn is_same(v: &VarId, w: &VarId) -> bool
    ensures { result ≡ same_name (var_view v.now) (var_view w.now) }
{
    v.equals(w)
}

fn is_heap(v: &VarId) -> bool
    ensures { result ≡ same_name (var_view v.now) heap_name }
{
    v.sort == Sort::Heap && v.name.as_slice() == b"@heap".as_slice()
}

fn is_special(v: &VarId) -> bool
    ensures { result ≡ is_special (var_view v.now) }
{
    match v.name.as_slice() {
        [b'@', ..] => true,
        _ => false,
    }
}

impl Code {
    /// Whether the variable occurs: it is named; or it is the heap, and the code is not empty; or the code has a loop,
    /// and the variable's name does not begin with `@`.
    pub fn mentions(&self, v: &VarId) -> bool
        ensures { result ≡ occurs_in_code (var_view v.now) (code_view self.now) }
    {
        if is_heap(v) && !self.is_empty() {
            return true;
        }
        if !is_special(v) && self.has_loop() {
            return true;
        }
        self.names(v)
    }

    #[tactic(auto, using(crate::proofs::CodeLemmas::empty))]
    fn is_empty(&self) -> bool
        ensures { result ≡ is_empty (code_view self.now) }
    {
        match self.stmts.as_slice() {
            [] => true,
            [_, ..] => false,
        }
    }

    #[cycle(names)]
    fn names(&self, v: &VarId) -> bool
        ensures { result ≡ named_in_code (var_view v.now) (code_view self.now) }
    {
        named_in_stmts(&self.stmts, v)
    }

    #[cycle(loops)]
    fn has_loop(&self) -> bool
        ensures { result ≡ has_loop (code_view self.now) }
    {
        stmts_have_loop(&self.stmts)
    }
}

#[cycle(names)]
#[tactic(auto, using(crate::proofs::Lists::rest))]
fn named_in_stmts(stmts: &[CodeStmt], v: &VarId) -> bool
    ensures { result ≡ named_in_code (var_view v.now) (stmts_of (map stmt_view stmts.now)) }
{
    for s in stmts {
        if s.names(v) {
            return true;
        }
    }
    false
}

#[cycle(names)]
#[tactic(auto, using(crate::proofs::Lists::rest))]
fn named_in_exprs(exprs: &[CodeExpr], v: &VarId) -> bool
    ensures { result ≡ named_in_exprs (var_view v.now) (exprs_of (map expr_view exprs.now)) }
{
    for e in exprs {
        if e.names(v) {
            return true;
        }
    }
    false
}

fn takes_result(r: &Option<VarId>, v: &VarId) -> bool
    ensures { result ≡ is_result (var_view v.now) (option_map var_view r.now) }
{
    match r {
        None => false,
        Some(w) => is_same(v, w),
    }
}

#[cycle(loops)]
#[tactic(auto, using(crate::proofs::Lists::rest))]
fn stmts_have_loop(stmts: &[CodeStmt]) -> bool
    ensures { result ≡ has_loop (stmts_of (map stmt_view stmts.now)) }
{
    for s in stmts {
        if s.has_loop() {
            return true;
        }
    }
    false
}

#[cycle(loops)]
#[tactic(auto, using(crate::proofs::Lists::rest))]
fn exprs_have_loop(exprs: &[CodeExpr]) -> bool
    ensures { result ≡ exprs_have_loop (exprs_of (map expr_view exprs.now)) }
{
    for e in exprs {
        if e.has_loop() {
            return true;
        }
    }
    false
}

impl CodeStmt {
    #[cycle(names)]
    fn names(&self, v: &VarId) -> bool
        ensures { result ≡ named_in_stmt (var_view v.now) (stmt_view self.now) }
    {
        match self {
            CodeStmt::Break(_) | CodeStmt::ReturnVoid | CodeStmt::Raise(_) | CodeStmt::Stop =>
                false,
            CodeStmt::Evaluate(a)
            | CodeStmt::Throw(a)
            | CodeStmt::ThrowUnchecked(a)
            | CodeStmt::Return(a) => a.names(v),
            CodeStmt::Set(w, a) => is_same(v, w) || a.names(v),
            CodeStmt::AllocArray(w, a) | CodeStmt::NewArray(w, a) => is_same(v, w) || a.names(v),
            CodeStmt::AllocObject(w, _) => is_same(v, w),
            CodeStmt::WriteField(a, _, b) => a.names(v) || b.names(v),
            CodeStmt::WriteElement(a, b, c) => a.names(v) || b.names(v) || c.names(v),
            CodeStmt::If(a, c, d) => a.names(v) || c.names(v) || d.names(v),
            CodeStmt::While(_, a, c) => a.names(v) || c.names(v),
            CodeStmt::Block(_, c) => c.names(v),
            CodeStmt::Catch(c, w, d) => c.names(v) || is_same(v, w) || d.names(v),
            CodeStmt::Finally(c, d) => c.names(v) || d.names(v),
            CodeStmt::Frame(r, c) => takes_result(r, v) || c.names(v),
        }
    }

    #[cycle(loops)]
    fn has_loop(&self) -> bool
        ensures { result ≡ stmt_has_loop (stmt_view self.now) }
    {
        match self {
            CodeStmt::Break(_)
            | CodeStmt::ReturnVoid
            | CodeStmt::Raise(_)
            | CodeStmt::AllocObject(_, _)
            | CodeStmt::Stop => false,
            CodeStmt::While(_, _, _) => true,
            CodeStmt::Set(_, a)
            | CodeStmt::Evaluate(a)
            | CodeStmt::Throw(a)
            | CodeStmt::ThrowUnchecked(a)
            | CodeStmt::Return(a)
            | CodeStmt::AllocArray(_, a)
            | CodeStmt::NewArray(_, a) => a.has_loop(),
            CodeStmt::WriteField(a, _, b) => a.has_loop() || b.has_loop(),
            CodeStmt::WriteElement(a, b, c) => a.has_loop() || b.has_loop() || c.has_loop(),
            CodeStmt::If(a, c, d) => a.has_loop() || c.has_loop() || d.has_loop(),
            CodeStmt::Block(_, c) | CodeStmt::Frame(_, c) => c.has_loop(),
            CodeStmt::Catch(c, _, d) | CodeStmt::Finally(c, d) => c.has_loop() || d.has_loop(),
        }
    }
}

impl CodeExpr {
    #[cycle(names)]
    fn names(&self, v: &VarId) -> bool
        ensures { result ≡ named_in_expr (var_view v.now) (expr_view self.now) }
    {
        match self {
            CodeExpr::IntLiteral(_) | CodeExpr::BoolLiteral(_) | CodeExpr::NullLiteral => false,
            CodeExpr::Variable(w) => is_same(v, w),
            CodeExpr::Unary(_, a)
            | CodeExpr::ReadField(a, _)
            | CodeExpr::LengthOf(a)
            | CodeExpr::Cast(_, a)
            | CodeExpr::InstanceOf(_, a) => a.names(v),
            CodeExpr::Binary(_, a, b)
            | CodeExpr::AndAlso(a, b)
            | CodeExpr::OrElse(a, b)
            | CodeExpr::ReadElement(a, b) => a.names(v) || b.names(v),
            CodeExpr::Conditional(a, b, c) => a.names(v) || b.names(v) || c.names(v),
            CodeExpr::VirtualCall(_, _, a, es) | CodeExpr::ConstructorCall(_, a, es) => a.names(v)
                || named_in_exprs(es, v),
            CodeExpr::StaticCall(_, es) => named_in_exprs(es, v),
            CodeExpr::DoThen(c, a) => c.names(v) || a.names(v),
        }
    }

    #[cycle(loops)]
    fn has_loop(&self) -> bool
        ensures { result ≡ expr_has_loop (expr_view self.now) }
    {
        match self {
            CodeExpr::IntLiteral(_)
            | CodeExpr::BoolLiteral(_)
            | CodeExpr::NullLiteral
            | CodeExpr::Variable(_) => false,
            CodeExpr::Unary(_, a)
            | CodeExpr::ReadField(a, _)
            | CodeExpr::LengthOf(a)
            | CodeExpr::Cast(_, a)
            | CodeExpr::InstanceOf(_, a) => a.has_loop(),
            CodeExpr::Binary(_, a, b)
            | CodeExpr::AndAlso(a, b)
            | CodeExpr::OrElse(a, b)
            | CodeExpr::ReadElement(a, b) => a.has_loop() || b.has_loop(),
            CodeExpr::Conditional(a, b, c) => a.has_loop() || b.has_loop() || c.has_loop(),
            CodeExpr::VirtualCall(_, _, a, es) | CodeExpr::ConstructorCall(_, a, es) => a.has_loop()
                || exprs_have_loop(es),
            CodeExpr::StaticCall(_, es) => exprs_have_loop(es),
            CodeExpr::DoThen(c, a) => c.has_loop() || a.has_loop(),
        }
    }
}
