ghost use Rattle.std.specs.Prelude.{◌≡◌, IfOk, OnOk, ◌++◌, map, drop};
ghost use Rattle.jd_syntax.specs.Codes.{Done};
ghost use Rattle.jd_syntax.specs.CodeViews.{stmt_view, code_view};
ghost use Rattle.jd_model.specs.Contexts.{chain, one};
ghost use Rattle.jd_first_rules.specs.Focus.{behind_first};

use jd_base::NoMemory;
use jd_syntax::{Code, CodeStmt};
use std::alloc::Global;

/// The code of no statement.
pub fn no_statement(alloc: Global) -> Code
    ensures { code_view result ≡ Done }
{
    Code {
        stmts: Vec::new(alloc),
    }
}

/// The code of one statement.
pub fn alone(alloc: Global, stmt: CodeStmt) -> Result<Code, NoMemory>
    ensures { IfOk result (λ c. code_view c ≡ one (stmt_view stmt)) }
{
    let mut stmts = Vec::new(alloc);
    stmts.push(stmt)?;
    Ok(Code { stmts })
}

// Adds copies of the statements from a place on.
fn extend(
    out: &mut Vec<CodeStmt>,
    alloc: Global,
    stmts: &[CodeStmt],
    from: usize,
) -> Result<(), NoMemory>
    ensures { OnOk result (map stmt_view out.new.items ≡ map stmt_view out.old.items ++ map stmt_view (drop from stmts.now)) }
{
    for i in from..stmts.len() {
        let stmt = stmts[i].copy(alloc)?;
        out.push(stmt)?;
    }
    Ok(())
}

/// The code and then copies of the statements behind the first of another.
pub fn chained(alloc: Global, code: Code, whole: &Code) -> Result<Code, NoMemory>
    ensures { IfOk result (λ c. code_view c ≡ chain (code_view code) (behind_first (code_view whole.now))) }
{
    let mut stmts = code.stmts;
    extend(&mut stmts, alloc, &whole.stmts, 1)?;
    Ok(Code { stmts })
}
