//! The size and the depth of code.

ghost use Rattle.jd_syntax.specs.CodeSizes.{code_depth, code_size, expr_depth, expr_size, exprs_depth, exprs_size, stmt_depth, stmt_size};
ghost use Rattle.jd_syntax.specs.CodeViews.{code_view, expr_view, stmt_view};
ghost use Rattle.jd_syntax.specs.Codes.{exprs_of, stmts_of};
ghost use Rattle.std.specs.Prelude.{◌≡◌, ◌-◌, ◌^◌, map, min};

use crate::code::{Code, CodeExpr, CodeStmt};

impl Code {
    /// How many statements and expressions there are, at most `u64::MAX`.
    #[cycle(size_code)]
    pub fn size(&self) -> u64
        ensures { result ≡ min (code_size (code_view self.now)) (2 ^ 64 - 1) }
    {
        size_stmts(&self.stmts)
    }

    /// How deep statements and expressions stand in one another, at most `u64::MAX`; 0 where there are none.
    #[cycle(depth_code)]
    pub fn depth(&self) -> u64
        ensures { result ≡ min (code_depth (code_view self.now)) (2 ^ 64 - 1) }
    {
        depth_stmts(&self.stmts)
    }
}

#[cycle(size_code)]
#[tactic(auto, using(crate::proofs::Lists::rest))]
fn size_stmts(stmts: &[CodeStmt]) -> u64
    ensures { result ≡ min (code_size (stmts_of (map stmt_view stmts.now))) (2 ^ 64 - 1) }
{
    let mut size = 0u64;
    for s in stmts {
        size = size.saturating_add(s.size());
    }
    size
}

#[cycle(size_code)]
#[tactic(auto, using(crate::proofs::Lists::rest))]
fn size_exprs(exprs: &[CodeExpr]) -> u64
    ensures { result ≡ min (exprs_size (exprs_of (map expr_view exprs.now))) (2 ^ 64 - 1) }
{
    let mut size = 0u64;
    for e in exprs {
        size = size.saturating_add(e.size());
    }
    size
}

#[cycle(depth_code)]
#[tactic(auto, using(crate::proofs::Lists::rest))]
fn depth_stmts(stmts: &[CodeStmt]) -> u64
    ensures { result ≡ min (code_depth (stmts_of (map stmt_view stmts.now))) (2 ^ 64 - 1) }
{
    let mut depth = 0u64;
    for s in stmts {
        depth = depth.max(s.depth());
    }
    depth
}

#[cycle(depth_code)]
#[tactic(auto, using(crate::proofs::Lists::rest))]
fn depth_exprs(exprs: &[CodeExpr]) -> u64
    ensures { result ≡ min (exprs_depth (exprs_of (map expr_view exprs.now))) (2 ^ 64 - 1) }
{
    let mut depth = 0u64;
    for e in exprs {
        depth = depth.max(e.depth());
    }
    depth
}

impl CodeStmt {
    /// How many statements and expressions there are, this one among them, at most `u64::MAX`.
    #[cycle(size_code)]
    pub fn size(&self) -> u64
        ensures { result ≡ min (stmt_size (stmt_view self.now)) (2 ^ 64 - 1) }
    {
        match self {
            CodeStmt::Break(_)
            | CodeStmt::ReturnVoid
            | CodeStmt::Raise(_)
            | CodeStmt::AllocObject(_, _)
            | CodeStmt::Stop => 1,
            CodeStmt::Set(_, a)
            | CodeStmt::Evaluate(a)
            | CodeStmt::Throw(a)
            | CodeStmt::ThrowUnchecked(a)
            | CodeStmt::Return(a)
            | CodeStmt::AllocArray(_, a)
            | CodeStmt::NewArray(_, a) => a.size().saturating_add(1),
            CodeStmt::WriteField(a, _, b) => a.size().saturating_add(b.size()).saturating_add(1),
            CodeStmt::WriteElement(a, b, c) => a
                .size()
                .saturating_add(b.size())
                .saturating_add(c.size())
                .saturating_add(1),
            CodeStmt::If(a, c, d) => a
                .size()
                .saturating_add(c.size())
                .saturating_add(d.size())
                .saturating_add(1),
            CodeStmt::While(_, a, c) => a.size().saturating_add(c.size()).saturating_add(1),
            CodeStmt::Block(_, c) | CodeStmt::Frame(_, c) => c.size().saturating_add(1),
            CodeStmt::Catch(c, _, d) | CodeStmt::Finally(c, d) => c
                .size()
                .saturating_add(d.size())
                .saturating_add(1),
        }
    }

    /// How deep statements and expressions stand in this one, itself among them, at most `u64::MAX`.
    #[cycle(depth_code)]
    pub fn depth(&self) -> u64
        ensures { result ≡ min (stmt_depth (stmt_view self.now)) (2 ^ 64 - 1) }
    {
        match self {
            CodeStmt::Break(_)
            | CodeStmt::ReturnVoid
            | CodeStmt::Raise(_)
            | CodeStmt::AllocObject(_, _)
            | CodeStmt::Stop => 1,
            CodeStmt::Set(_, a)
            | CodeStmt::Evaluate(a)
            | CodeStmt::Throw(a)
            | CodeStmt::ThrowUnchecked(a)
            | CodeStmt::Return(a)
            | CodeStmt::AllocArray(_, a)
            | CodeStmt::NewArray(_, a) => a.depth().saturating_add(1),
            CodeStmt::WriteField(a, _, b) => a.depth().max(b.depth()).saturating_add(1),
            CodeStmt::WriteElement(a, b, c) => a
                .depth()
                .max(b.depth())
                .max(c.depth())
                .saturating_add(1),
            CodeStmt::If(a, c, d) => a.depth().max(c.depth()).max(d.depth()).saturating_add(1),
            CodeStmt::While(_, a, c) => a.depth().max(c.depth()).saturating_add(1),
            CodeStmt::Block(_, c) | CodeStmt::Frame(_, c) => c.depth().saturating_add(1),
            CodeStmt::Catch(c, _, d) | CodeStmt::Finally(c, d) => c
                .depth()
                .max(d.depth())
                .saturating_add(1),
        }
    }
}

impl CodeExpr {
    /// How many statements and expressions there are, this one among them, at most `u64::MAX`.
    #[cycle(size_code)]
    pub fn size(&self) -> u64
        ensures { result ≡ min (expr_size (expr_view self.now)) (2 ^ 64 - 1) }
    {
        match self {
            CodeExpr::IntLiteral(_)
            | CodeExpr::BoolLiteral(_)
            | CodeExpr::NullLiteral
            | CodeExpr::Variable(_) => 1,
            CodeExpr::Unary(_, a)
            | CodeExpr::ReadField(a, _)
            | CodeExpr::LengthOf(a)
            | CodeExpr::Cast(_, a)
            | CodeExpr::InstanceOf(_, a) => a.size().saturating_add(1),
            CodeExpr::Binary(_, a, b)
            | CodeExpr::AndAlso(a, b)
            | CodeExpr::OrElse(a, b)
            | CodeExpr::ReadElement(a, b) => a.size().saturating_add(b.size()).saturating_add(1),
            CodeExpr::Conditional(a, b, c) => a
                .size()
                .saturating_add(b.size())
                .saturating_add(c.size())
                .saturating_add(1),
            CodeExpr::VirtualCall(_, _, a, es) | CodeExpr::ConstructorCall(_, a, es) => a
                .size()
                .saturating_add(size_exprs(es))
                .saturating_add(1),
            CodeExpr::StaticCall(_, es) => size_exprs(es).saturating_add(1),
            CodeExpr::DoThen(c, a) => c.size().saturating_add(a.size()).saturating_add(1),
        }
    }

    /// How deep statements and expressions stand in this one, itself among them, at most `u64::MAX`.
    #[cycle(depth_code)]
    pub fn depth(&self) -> u64
        ensures { result ≡ min (expr_depth (expr_view self.now)) (2 ^ 64 - 1) }
    {
        match self {
            CodeExpr::IntLiteral(_)
            | CodeExpr::BoolLiteral(_)
            | CodeExpr::NullLiteral
            | CodeExpr::Variable(_) => 1,
            CodeExpr::Unary(_, a)
            | CodeExpr::ReadField(a, _)
            | CodeExpr::LengthOf(a)
            | CodeExpr::Cast(_, a)
            | CodeExpr::InstanceOf(_, a) => a.depth().saturating_add(1),
            CodeExpr::Binary(_, a, b)
            | CodeExpr::AndAlso(a, b)
            | CodeExpr::OrElse(a, b)
            | CodeExpr::ReadElement(a, b) => a.depth().max(b.depth()).saturating_add(1),
            CodeExpr::Conditional(a, b, c) => a
                .depth()
                .max(b.depth())
                .max(c.depth())
                .saturating_add(1),
            CodeExpr::VirtualCall(_, _, a, es) | CodeExpr::ConstructorCall(_, a, es) => a
                .depth()
                .max(depth_exprs(es))
                .saturating_add(1),
            CodeExpr::StaticCall(_, es) => depth_exprs(es).saturating_add(1),
            CodeExpr::DoThen(c, a) => c.depth().max(a.depth()).saturating_add(1),
        }
    }
}
