//! Copies of variables, code and bracketed expressions.

ghost use Rattle.jd_syntax.specs.CodeViews.{code_view, expr_view, stmt_view};
ghost use Rattle.jd_syntax.specs.Names.{decl_view, var_view};
ghost use Rattle.jd_syntax.specs.Sxs.{sx_view};
ghost use Rattle.std.specs.Prelude.{◌≡◌, IfOk, map, option_map};

use crate::code::{Code, CodeExpr, CodeStmt};
use crate::sx::Sx;
use crate::variable::{VarDecl, VarId};
use jd_base::{NoMemory, both, copy_bytes};
use std::alloc::Global;

impl VarId {
    /// A copy of the variable.
    pub fn copy(&self, alloc: Global) -> Result<VarId, NoMemory>
        ensures { IfOk result (λ v. var_view v ≡ var_view self.now) }
    {
        let name = copy_bytes(alloc, &self.name)?;
        Ok(VarId {
            name,
            sort: self.sort,
        })
    }
}

impl VarDecl {
    /// A copy of the declaration.
    pub fn copy(&self, alloc: Global) -> Result<VarDecl, NoMemory>
        ensures { IfOk result (λ d. decl_view d ≡ decl_view self.now) }
    {
        let name = copy_bytes(alloc, &self.name)?;
        Ok(VarDecl {
            name,
            sort: self.sort,
            class: self.class,
        })
    }
}

fn copy_result(alloc: Global, v: &Option<VarId>) -> Result<Option<VarId>, NoMemory>
    ensures { IfOk result (λ w. option_map var_view w ≡ option_map var_view v.now) }
{
    match v {
        None => Ok(None),
        Some(v) => Ok(Some(v.copy(alloc)?)),
    }
}

fn boxed(alloc: Global, e: CodeExpr) -> Result<Box<CodeExpr>, NoMemory>
    ensures { IfOk result (λ b. b.value ≡ e) }
{
    Ok(Box::new(alloc, e)?)
}

impl Code {
    /// A copy of the code.
    #[cycle(copy_code)]
    pub fn copy(&self, alloc: Global) -> Result<Code, NoMemory>
        ensures { IfOk result (λ c. code_view c ≡ code_view self.now) }
    {
        let stmts = copy_stmts(alloc, &self.stmts)?;
        Ok(Code { stmts })
    }
}

#[cycle(copy_code)]
fn copy_stmts(alloc: Global, stmts: &[CodeStmt]) -> Result<Vec<CodeStmt>, NoMemory>
    ensures { IfOk result (λ v. map stmt_view v.items ≡ map stmt_view stmts.now) }
{
    let mut copies = Vec::with_capacity(alloc, stmts.len())?;
    for s in stmts {
        copies.push(s.copy(alloc)?)?;
    }
    Ok(copies)
}

#[cycle(copy_code)]
fn copy_exprs(alloc: Global, exprs: &[CodeExpr]) -> Result<Vec<CodeExpr>, NoMemory>
    ensures { IfOk result (λ v. map expr_view v.items ≡ map expr_view exprs.now) }
{
    let mut copies = Vec::with_capacity(alloc, exprs.len())?;
    for e in exprs {
        copies.push(e.copy(alloc)?)?;
    }
    Ok(copies)
}

#[cycle(copy_code)]
fn copy_boxed(alloc: Global, e: &Box<CodeExpr>) -> Result<Box<CodeExpr>, NoMemory>
    ensures { IfOk result (λ b. expr_view b.value ≡ expr_view e.now.value) }
{
    let copy = e.copy(alloc)?;
    boxed(alloc, copy)
}

impl CodeStmt {
    /// A copy of the statement.
    #[cycle(copy_code)]
    pub fn copy(&self, alloc: Global) -> Result<CodeStmt, NoMemory>
        ensures { IfOk result (λ s. stmt_view s ≡ stmt_view self.now) }
    {
        match self {
            CodeStmt::Set(v, a) => {
                let (v, a) = both(v.copy(alloc), a.copy(alloc))?;
                Ok(CodeStmt::Set(v, a))
            }
            CodeStmt::WriteField(a, f, b) => {
                let (a, b) = both(a.copy(alloc), b.copy(alloc))?;
                Ok(CodeStmt::WriteField(a, *f, b))
            }
            CodeStmt::WriteElement(a, b, c) => {
                let (a, (b, c)) = both(a.copy(alloc), both(b.copy(alloc), c.copy(alloc)))?;
                Ok(CodeStmt::WriteElement(a, b, c))
            }
            CodeStmt::Evaluate(a) => Ok(CodeStmt::Evaluate(a.copy(alloc)?)),
            CodeStmt::If(a, c, d) => {
                let (a, (c, d)) = both(a.copy(alloc), both(c.copy(alloc), d.copy(alloc)))?;
                Ok(CodeStmt::If(a, c, d))
            }
            CodeStmt::While(k, a, c) => {
                let (a, c) = both(a.copy(alloc), c.copy(alloc))?;
                Ok(CodeStmt::While(*k, a, c))
            }
            CodeStmt::Block(l, c) => Ok(CodeStmt::Block(*l, c.copy(alloc)?)),
            CodeStmt::Break(l) => Ok(CodeStmt::Break(*l)),
            CodeStmt::Catch(c, v, d) => {
                let (c, (v, d)) = both(c.copy(alloc), both(v.copy(alloc), d.copy(alloc)))?;
                Ok(CodeStmt::Catch(c, v, d))
            }
            CodeStmt::Finally(c, d) => {
                let (c, d) = both(c.copy(alloc), d.copy(alloc))?;
                Ok(CodeStmt::Finally(c, d))
            }
            CodeStmt::Throw(a) => Ok(CodeStmt::Throw(a.copy(alloc)?)),
            CodeStmt::ThrowUnchecked(a) => Ok(CodeStmt::ThrowUnchecked(a.copy(alloc)?)),
            CodeStmt::Return(a) => Ok(CodeStmt::Return(a.copy(alloc)?)),
            CodeStmt::ReturnVoid => Ok(CodeStmt::ReturnVoid),
            CodeStmt::Frame(r, c) => {
                let (r, c) = both(copy_result(alloc, r), c.copy(alloc))?;
                Ok(CodeStmt::Frame(r, c))
            }
            CodeStmt::Raise(class) => Ok(CodeStmt::Raise(*class)),
            CodeStmt::AllocObject(v, class) => Ok(CodeStmt::AllocObject(v.copy(alloc)?, *class)),
            CodeStmt::AllocArray(v, a) => {
                let (v, a) = both(v.copy(alloc), a.copy(alloc))?;
                Ok(CodeStmt::AllocArray(v, a))
            }
            CodeStmt::NewArray(v, a) => {
                let (v, a) = both(v.copy(alloc), a.copy(alloc))?;
                Ok(CodeStmt::NewArray(v, a))
            }
            CodeStmt::Stop => Ok(CodeStmt::Stop),
        }
    }
}

impl CodeExpr {
    /// A copy of the expression.
    #[cycle(copy_code)]
    pub fn copy(&self, alloc: Global) -> Result<CodeExpr, NoMemory>
        ensures { IfOk result (λ e. expr_view e ≡ expr_view self.now) }
    {
        match self {
            CodeExpr::IntLiteral(n) => Ok(CodeExpr::IntLiteral(*n)),
            CodeExpr::BoolLiteral(b) => Ok(CodeExpr::BoolLiteral(*b)),
            CodeExpr::NullLiteral => Ok(CodeExpr::NullLiteral),
            CodeExpr::Variable(v) => Ok(CodeExpr::Variable(v.copy(alloc)?)),
            CodeExpr::Unary(o, a) => Ok(CodeExpr::Unary(*o, copy_boxed(alloc, a)?)),
            CodeExpr::Binary(o, a, b) => {
                let (a, b) = both(copy_boxed(alloc, a), copy_boxed(alloc, b))?;
                Ok(CodeExpr::Binary(*o, a, b))
            }
            CodeExpr::AndAlso(a, b) => {
                let (a, b) = both(copy_boxed(alloc, a), copy_boxed(alloc, b))?;
                Ok(CodeExpr::AndAlso(a, b))
            }
            CodeExpr::OrElse(a, b) => {
                let (a, b) = both(copy_boxed(alloc, a), copy_boxed(alloc, b))?;
                Ok(CodeExpr::OrElse(a, b))
            }
            CodeExpr::Conditional(a, b, c) => {
                let (a, (b, c)) = both(
                    copy_boxed(alloc, a),
                    both(copy_boxed(alloc, b), copy_boxed(alloc, c)),
                )?;
                Ok(CodeExpr::Conditional(a, b, c))
            }
            CodeExpr::ReadField(a, f) => Ok(CodeExpr::ReadField(copy_boxed(alloc, a)?, *f)),
            CodeExpr::ReadElement(a, b) => {
                let (a, b) = both(copy_boxed(alloc, a), copy_boxed(alloc, b))?;
                Ok(CodeExpr::ReadElement(a, b))
            }
            CodeExpr::LengthOf(a) => Ok(CodeExpr::LengthOf(copy_boxed(alloc, a)?)),
            CodeExpr::Cast(k, a) => Ok(CodeExpr::Cast(*k, copy_boxed(alloc, a)?)),
            CodeExpr::InstanceOf(k, a) => Ok(CodeExpr::InstanceOf(*k, copy_boxed(alloc, a)?)),
            CodeExpr::VirtualCall(c, m, a, es) => {
                let (a, es) = both(copy_boxed(alloc, a), copy_exprs(alloc, es))?;
                Ok(CodeExpr::VirtualCall(*c, *m, a, es))
            }
            CodeExpr::StaticCall(m, es) => Ok(CodeExpr::StaticCall(*m, copy_exprs(alloc, es)?)),
            CodeExpr::ConstructorCall(m, a, es) => {
                let (a, es) = both(copy_boxed(alloc, a), copy_exprs(alloc, es))?;
                Ok(CodeExpr::ConstructorCall(*m, a, es))
            }
            CodeExpr::DoThen(c, a) => {
                let (c, a) = both(c.copy(alloc), copy_boxed(alloc, a))?;
                Ok(CodeExpr::DoThen(c, a))
            }
        }
    }
}

impl Sx {
    /// A copy of the expression.
    #[cycle(copy_sx)]
    pub fn copy(&self, alloc: Global) -> Result<Sx, NoMemory>
        ensures { IfOk result (λ x. sx_view x ≡ sx_view self.now) }
    {
        match self {
            Sx::Atom(token) => Ok(Sx::Atom(copy_bytes(alloc, token)?)),
            Sx::List(parts) => Ok(Sx::List(copy_parts(alloc, parts)?)),
        }
    }
}

#[cycle(copy_sx)]
fn copy_parts(alloc: Global, parts: &[Sx]) -> Result<Vec<Sx>, NoMemory>
    ensures { IfOk result (λ v. map sx_view v.items ≡ map sx_view parts.now) }
{
    let mut copies = Vec::with_capacity(alloc, parts.len())?;
    for x in parts {
        copies.push(x.copy(alloc)?)?;
    }
    Ok(copies)
}
