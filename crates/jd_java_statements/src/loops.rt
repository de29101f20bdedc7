//! Loops, labels, and the JML before them.

ghost use Rattle.std.specs.Prelude.{◌≡◌, ℕ, IfOk, map, option_map};
ghost use Rattle.jd_java_tokens.specs.Heads as heads;
ghost use Rattle.jd_java_tokens.specs.Lexemes.{lexeme_view};
ghost use Rattle.jd_syntax.specs.SpecTrees.{spec_block_view};
ghost use Rattle.jd_syntax.specs.JavaTrees.{for_start_view, java_stmt_view, java_view};
ghost use Rattle.jd_syntax.specs.JavaTrees as java;
ghost use Rattle.jd_java_values.specs.Parts as plain;
ghost use Rattle.jd_java_values.specs.Views.{Gives, backwards, in_order, parts_view, value_view};
ghost use Rattle.jd_java_statements.specs.declared.action.Action.{Action};
ghost use Rattle.jd_java_statements.specs.Meaning as plain_meaning;
ghost use Rattle.jd_java_statements.specs.Meaning.{meaning};

use crate::forms::{begins, given, labelled};
use crate::ordered::ordered_expressions;
use jd_base::{NoMemory, copy_bytes};
use jd_grammar::NodeParts;
use jd_java_tokens::{Lexeme, place_of, run_of, text_of};
use jd_java_values::{Value, discard, expression, in_order, some_expression, statement, taken};
use jd_syntax::{Expr, ForStart, SpecBlock, SpecPlace, Stmt, StmtForm};
use std::alloc::Global;

/// `while (e) s`
pub fn while_loop(
    alloc: Global,
    tokens: &[Lexeme<'_>],
    parts: &mut NodeParts<Value>,
) -> Result<Value, NoMemory>
    ensures { Gives value_view result (meaning Action.While (map lexeme_view tokens.now) (parts_view parts.old)) }
{
    let body = statement(alloc, taken(&mut parts.second))?;
    let condition = expression(taken(&mut parts.first));
    begins(alloc, tokens, StmtForm::While(None, condition, body))
}

/// The start of a `for`: `e, ..`, or nothing; the last comes first.
#[tactic(auto, using(jd_lists::proofs::Backwards::turned))]
pub fn evaluated(expressions: Vec<Expr>) -> ForStart
    ensures { for_start_view result ≡ java.Evaluated (backwards java_view expressions) }
{
    ForStart::Evaluated(in_order(expressions))
}

// What stands before the first `;` of a `for`.
fn start(alloc: Global, value: Value) -> ForStart
    ensures { for_start_view result ≡ plain.start_of (value_view value) }
{
    match value {
        Value::LoopStart(start) => start,
        Value::Expressions(expressions) => evaluated(expressions),
        other => {
            discard(other);
            ForStart::Evaluated(Vec::new(alloc))
        }
    }
}

// What stands in the parentheses of a `for`.
fn loop_head(alloc: Global, parts: &mut NodeParts<Value>) -> (ForStart, Option<Expr>, Vec<Expr>)
    ensures start { for_start_view result.0 ≡ plain.start_of (parts_view parts.old).first }
    ensures condition { option_map java_view result.1 ≡ plain.some_expression (parts_view parts.old).second }
    ensures update { in_order java_view result.2 ≡ plain.expressions_of (parts_view parts.old).third }
{
    let start = start(alloc, taken(&mut parts.first));
    let condition = some_expression(taken(&mut parts.second));
    let update = ordered_expressions(alloc, taken(&mut parts.third));
    (start, condition, update)
}

/// `for (..; e; e, ..) s`
pub fn for_loop(
    alloc: Global,
    tokens: &[Lexeme<'_>],
    parts: &mut NodeParts<Value>,
) -> Result<Value, NoMemory>
    ensures { Gives value_view result (meaning Action.For (map lexeme_view tokens.now) (parts_view parts.old)) }
{
    let body = statement(alloc, taken(&mut parts.fourth))?;
    let (start, condition, update) = loop_head(alloc, parts);
    begins(
        alloc,
        tokens,
        StmtForm::For(None, start, condition, update, body),
    )
}

/// The text of the first token.
pub fn text_at(alloc: Global, tokens: &[Lexeme<'_>]) -> Result<Vec<u8>, NoMemory>
    ensures { IfOk result (λ v. v.items ≡ heads.text_of (map lexeme_view tokens.now)) }
{
    copy_bytes(alloc, text_of(tokens))
}

/// `l: s`
pub fn label(
    alloc: Global,
    tokens: &[Lexeme<'_>],
    parts: &mut NodeParts<Value>,
) -> Result<Value, NoMemory>
    ensures { Gives value_view result (meaning Action.Label (map lexeme_view tokens.now) (parts_view parts.old)) }
{
    let body = statement(alloc, taken(&mut parts.first))?;
    labelled(alloc, place_of(0, tokens), text_at(alloc, tokens), body)
}

// The run of JML that the first token is; its clauses are read later.
fn loop_block(alloc: Global, tokens: &[Lexeme<'_>]) -> SpecBlock
    ensures { spec_block_view result ≡ plain_meaning.loop_block (map lexeme_view tokens.now) }
{
    let (from, to) = run_of(tokens);
    SpecBlock {
        place: SpecPlace::Loop,
        from,
        to,
        clauses: Vec::new(alloc),
    }
}

fn with_block(block: SpecBlock, form: StmtForm) -> StmtForm
    ensures { (at : ℕ) → java_stmt_view (record { at = at; form = result }) ≡ plain_meaning.annotated (spec_block_view block) (java_stmt_view (record { at = at; form = form })) }
{
    match form {
        StmtForm::While(before, condition, body) => {
            discard(before);
            StmtForm::While(Some(block), condition, body)
        }
        StmtForm::For(before, start, condition, update, body) => {
            discard(before);
            StmtForm::For(Some(block), start, condition, update, body)
        }
        StmtForm::Label(before, label, body) => {
            discard(before);
            StmtForm::Label(Some(block), label, body)
        }
        other => {
            discard(block);
            other
        }
    }
}

fn preceded(block: SpecBlock, statement: Stmt) -> Stmt
    ensures { java_stmt_view result ≡ plain_meaning.annotated (spec_block_view block) (java_stmt_view statement) }
{
    let Stmt { at, form } = statement;
    let form = with_block(block, form);
    Stmt { at, form }
}

/// A loop or its label, and the JML before it.
pub fn annotated(
    alloc: Global,
    tokens: &[Lexeme<'_>],
    parts: &mut NodeParts<Value>,
) -> Result<Value, NoMemory>
    ensures { Gives value_view result (meaning Action.Annotated (map lexeme_view tokens.now) (parts_view parts.old)) }
{
    let statement = statement(alloc, taken(&mut parts.first))?;
    let block = loop_block(alloc, tokens);
    given(alloc, preceded(block, Box::into_inner(statement)))
}
