//! Statements without statements in them, and lists of statements.

ghost use Rattle.std.specs.Prelude.{◌≡◌, List, [], ◌∷◌, map};
ghost use Rattle.jd_java_tokens.specs.Heads as heads;
ghost use Rattle.jd_java_tokens.specs.Lexemes.{lexeme_view};
ghost use Rattle.jd_syntax.specs.JavaTrees.{JavaStmt, java_stmt_view, java_view};
ghost use Rattle.jd_syntax.specs.JavaTrees as java;
ghost use Rattle.jd_java_expressions.specs.Applying.{at_of};
ghost use Rattle.jd_java_values.specs.Values.{Statement, Statements};
ghost use Rattle.jd_java_values.specs.Parts as plain;
ghost use Rattle.jd_java_values.specs.Views.{Gives, backwards, parts_view, value_view};
ghost use Rattle.jd_java_statements.specs.declared.action.Action.{Action};
ghost use Rattle.jd_java_statements.specs.Meaning.{meaning};

use crate::forms::{begins, given};
use crate::ordered::{ordered_expressions, ordered_statements};
use jd_base::NoMemory;
use jd_grammar::NodeParts;
use jd_java_tokens::{Lexeme, place_of};
use jd_java_values::{
    Value, expression, some_expression, some_name, statement, statements, taken, with,
};
use jd_syntax::{Expr, Stmt, StmtForm};
use std::alloc::Global;

/// `{ s .. }`
pub fn block(
    alloc: Global,
    tokens: &[Lexeme<'_>],
    parts: &mut NodeParts<Value>,
) -> Result<Value, NoMemory>
    ensures { Gives value_view result (meaning Action.Block (map lexeme_view tokens.now) (parts_view parts.old)) }
{
    let statements = ordered_statements(alloc, taken(&mut parts.first));
    begins(alloc, tokens, StmtForm::Block(statements))
}

/// `;`
pub fn empty(alloc: Global, tokens: &[Lexeme<'_>]) -> Result<Value, NoMemory>
    ensures { Gives value_view result (Statement (java.Empty (heads.place_of 0 (map lexeme_view tokens.now)))) }
{
    begins(alloc, tokens, StmtForm::Empty)
}

fn place(expression: &Expr) -> u32
    ensures { result ≡ at_of (java_view expression.now) }
{
    expression.at
}

fn evaluated(expression: Expr) -> Stmt
    ensures { java_stmt_view result ≡ java.Evaluate (at_of (java_view expression)) (java_view expression) }
{
    let at = place(&expression);
    let form = StmtForm::Evaluate(expression);
    Stmt { at, form }
}

/// `e;`
pub fn evaluate(alloc: Global, parts: &mut NodeParts<Value>) -> Result<Value, NoMemory>
    ensures { Gives value_view result (meaning Action.Evaluate [] (parts_view parts.old)) }
{
    given(alloc, evaluated(expression(taken(&mut parts.first))))
}

/// `break;` or `break l;`
pub fn break_off(
    alloc: Global,
    tokens: &[Lexeme<'_>],
    parts: &mut NodeParts<Value>,
) -> Result<Value, NoMemory>
    ensures { Gives value_view result (meaning Action.Break (map lexeme_view tokens.now) (parts_view parts.old)) }
{
    let label = some_name(taken(&mut parts.first));
    begins(alloc, tokens, StmtForm::Break(label))
}

/// `continue;` or `continue l;`
pub fn go_on(
    alloc: Global,
    tokens: &[Lexeme<'_>],
    parts: &mut NodeParts<Value>,
) -> Result<Value, NoMemory>
    ensures { Gives value_view result (meaning Action.Continue (map lexeme_view tokens.now) (parts_view parts.old)) }
{
    let label = some_name(taken(&mut parts.first));
    begins(alloc, tokens, StmtForm::Continue(label))
}

/// `return;` or `return e;`
pub fn give_back(
    alloc: Global,
    tokens: &[Lexeme<'_>],
    parts: &mut NodeParts<Value>,
) -> Result<Value, NoMemory>
    ensures { Gives value_view result (meaning Action.Return (map lexeme_view tokens.now) (parts_view parts.old)) }
{
    let result = some_expression(taken(&mut parts.first));
    begins(alloc, tokens, StmtForm::Return(result))
}

/// `throw e;`
pub fn throw(
    alloc: Global,
    tokens: &[Lexeme<'_>],
    parts: &mut NodeParts<Value>,
) -> Result<Value, NoMemory>
    ensures { Gives value_view result (meaning Action.Throw (map lexeme_view tokens.now) (parts_view parts.old)) }
{
    let thrown = expression(taken(&mut parts.first));
    begins(alloc, tokens, StmtForm::Throw(thrown))
}

fn listed(statements: Result<Vec<Stmt>, NoMemory>) -> Result<Value, NoMemory>
    ensures { (ss : List JavaStmt) → Gives (backwards java_stmt_view) statements ss → Gives value_view result (Statements ss) }
{
    Ok(Value::Statements(statements?))
}

#[tactic(auto, using(jd_lists::proofs::Backwards::one_more))]
fn preceded(alloc: Global, statement: Stmt, behind: Value) -> Result<Vec<Stmt>, NoMemory>
    ensures { Gives (backwards java_stmt_view) result (java_stmt_view statement ∷ plain.statements_of (value_view behind)) }
{
    with(statements(alloc, behind), statement)
}

/// A statement, and those behind it.
pub fn several_statements(alloc: Global, parts: &mut NodeParts<Value>) -> Result<Value, NoMemory>
    ensures { Gives value_view result (meaning Action.Statements [] (parts_view parts.old)) }
{
    let head = statement(alloc, taken(&mut parts.first))?;
    listed(preceded(alloc, Box::into_inner(head), taken(&mut parts.second)))
}

fn parent_call(alloc: Global, at: u32, arguments: Value) -> Stmt
    ensures { java_stmt_view result ≡ java.Super at (plain.expressions_of (value_view arguments)) }
{
    let form = StmtForm::Super(ordered_expressions(alloc, arguments));
    Stmt { at, form }
}

/// `super(e, ..);`, and the statements behind it.
pub fn after_super(
    alloc: Global,
    tokens: &[Lexeme<'_>],
    parts: &mut NodeParts<Value>,
) -> Result<Value, NoMemory>
    ensures { Gives value_view result (meaning Action.Super (map lexeme_view tokens.now) (parts_view parts.old)) }
{
    let call = parent_call(alloc, place_of(0, tokens), taken(&mut parts.first));
    listed(preceded(alloc, call, taken(&mut parts.second)))
}
