//! `if` and `try`.

ghost use Rattle.std.specs.Prelude.{◌≡◌, List, [], ◌∷◌, ◌++◌, map, option_map};
ghost use Rattle.jd_java_tokens.specs.Lexemes.{lexeme_view};
ghost use Rattle.jd_syntax.specs.JavaTypes.{identifier_view};
ghost use Rattle.jd_syntax.specs.JavaTrees.{JavaHandler, java_stmt_view, java_stmts, java_view};
ghost use Rattle.jd_syntax.specs.JavaTrees as java;
ghost use Rattle.jd_jcalls.specs.Handlers.{java_handler_view};
ghost use Rattle.jd_java_values.specs.Parts as plain;
ghost use Rattle.jd_java_values.specs.Values as values;
ghost use Rattle.jd_java_values.specs.Views.{Gives, backwards, boxed_view, in_order, parts_view, value_view};
ghost use Rattle.jd_java_statements.specs.declared.action.Action.{Action};
ghost use Rattle.jd_java_statements.specs.Meaning as plain_meaning;
ghost use Rattle.jd_java_statements.specs.Meaning.{meaning};

use crate::forms::given;
use crate::ordered::{ordered_statements, some_ordered_statements};
use jd_base::{NoMemory, both};
use jd_grammar::NodeParts;
use jd_java_tokens::{Lexeme, place_of};
use jd_java_values::{
    Value, appended, discard, expression, handlers, in_order, name, some_statement, statement,
    taken, with,
};
use jd_syntax::{Expr, Handler, Identifier, Stmt, StmtForm};
use std::alloc::Global;

// `if (e) s`, or with `else s` where there is one.
fn chosen(at: u32, parts: (Expr, Box<Stmt>, Option<Box<Stmt>>)) -> Stmt
    ensures { java_stmt_view result ≡ plain_meaning.if_statement at (java_view parts.0) (boxed_view parts.1) (option_map boxed_view parts.2) }
{
    let (condition, then, or_else) = parts;
    let form = match or_else {
        None => StmtForm::If(condition, then),
        Some(or_else) => StmtForm::IfElse(condition, then, or_else),
    };
    Stmt { at, form }
}

/// `if (e) s`, or with `else s`.
pub fn if_statement(
    alloc: Global,
    tokens: &[Lexeme<'_>],
    parts: &mut NodeParts<Value>,
) -> Result<Value, NoMemory>
    ensures { Gives value_view result (meaning Action.If (map lexeme_view tokens.now) (parts_view parts.old)) }
{
    let then = statement(alloc, taken(&mut parts.second))?;
    let or_else = some_statement(taken(&mut parts.third));
    let condition = expression(taken(&mut parts.first));
    given(
        alloc,
        chosen(place_of(0, tokens), (condition, then, or_else)),
    )
}

fn try_statement(
    at: u32,
    statements: Vec<Stmt>,
    handlers: Vec<Handler>,
    finally: Option<Vec<Stmt>>,
) -> Stmt
    ensures { java_stmt_view result ≡ plain_meaning.try_statement at (in_order java_stmt_view statements) (in_order java_handler_view handlers) (option_map (in_order java_stmt_view) finally) }
{
    let form = match finally {
        None => StmtForm::Try(statements, handlers),
        Some(last) => StmtForm::TryFinally(statements, handlers, last),
    };
    Stmt { at, form }
}

fn rescued(alloc: Global, at: u32, statements: Vec<Stmt>, rescue: Value) -> Stmt
    ensures { java_stmt_view result ≡ plain_meaning.rescued at (in_order java_stmt_view statements) (value_view rescue) }
{
    match rescue {
        Value::Rescue(handlers, finally) => try_statement(at, statements, handlers, finally),
        other => {
            discard(other);
            try_statement(at, statements, Vec::new(alloc), None)
        }
    }
}

/// `try { s .. } ..`
pub fn try_block(
    alloc: Global,
    tokens: &[Lexeme<'_>],
    parts: &mut NodeParts<Value>,
) -> Result<Value, NoMemory>
    ensures { Gives value_view result (meaning Action.Try (map lexeme_view tokens.now) (parts_view parts.old)) }
{
    let statements = ordered_statements(alloc, taken(&mut parts.first));
    let rescue = taken(&mut parts.second);
    given(
        alloc,
        rescued(alloc, place_of(0, tokens), statements, rescue),
    )
}

#[tactic(auto, using(jd_lists::proofs::Backwards::others_first))]
fn joined(alloc: Global, parts: &mut NodeParts<Value>) -> Result<Vec<Handler>, NoMemory>
    ensures joined { let p = parts_view parts.old in Gives (backwards java_handler_view) result (plain.handlers_of p.first ++ plain.handlers_of p.second) }
    ensures rest { parts.new.third ≡ parts.old.third }
{
    let caught = handlers(alloc, taken(&mut parts.first));
    let others = handlers(alloc, taken(&mut parts.second));
    appended(others, caught)
}

#[tactic(auto, using(jd_lists::proofs::Backwards::turned))]
fn rescue_of(
    handlers: Result<Vec<Handler>, NoMemory>,
    finally: Option<Vec<Stmt>>,
) -> Result<Value, NoMemory>
    ensures { (hs : List JavaHandler) → Gives (backwards java_handler_view) handlers hs → Gives value_view result (values.Rescue hs (option_map (in_order java_stmt_view) finally)) }
{
    let (handlers, finally) = both(handlers, Ok(finally))?;
    Ok(Value::Rescue(in_order(handlers), finally))
}

/// A `catch`, others, and what stands behind `finally`.
pub fn rescue(alloc: Global, parts: &mut NodeParts<Value>) -> Result<Value, NoMemory>
    ensures { Gives value_view result (meaning Action.Rescue [] (parts_view parts.old)) }
{
    let caught = joined(alloc, parts);
    rescue_of(caught, some_ordered_statements(taken(&mut parts.third)))
}

/// What stands behind `finally`, without a `catch`.
pub fn finally(alloc: Global, parts: &mut NodeParts<Value>) -> Result<Value, NoMemory>
    ensures { Gives value_view result (meaning Action.Finally [] (parts_view parts.old)) }
{
    let finally = some_ordered_statements(taken(&mut parts.first));
    Ok(Value::Rescue(Vec::new(alloc), finally))
}

fn caught(handlers: Result<Vec<Handler>, NoMemory>) -> Result<Value, NoMemory>
    ensures { (hs : List JavaHandler) → Gives (backwards java_handler_view) handlers hs → Gives value_view result (values.Handlers hs) }
{
    Ok(Value::Handlers(handlers?))
}

/// Several `catch`.
pub fn several_handlers(alloc: Global, parts: &mut NodeParts<Value>) -> Result<Value, NoMemory>
    ensures { Gives value_view result (meaning Action.Handlers [] (parts_view parts.old)) }
{
    caught(joined(alloc, parts))
}

fn handler(at: u32, class: Identifier, name: Identifier, body: Vec<Stmt>) -> Handler
    ensures { java_handler_view result ≡ java.Catch at (identifier_view class) (identifier_view name) (java_stmts (in_order java_stmt_view body)) }
{
    Handler {
        at,
        class,
        name,
        body,
    }
}

#[tactic(auto, using(jd_lists::proofs::Backwards::one_more))]
fn alone(alloc: Global, handler: Handler) -> Result<Vec<Handler>, NoMemory>
    ensures { Gives (backwards java_handler_view) result (java_handler_view handler ∷ []) }
{
    with(Vec::new(alloc), handler)
}

/// `catch (C x) { s .. }`
pub fn catch(
    alloc: Global,
    tokens: &[Lexeme<'_>],
    parts: &mut NodeParts<Value>,
) -> Result<Value, NoMemory>
    ensures { Gives value_view result (meaning Action.Catch (map lexeme_view tokens.now) (parts_view parts.old)) }
{
    let class = name(alloc, taken(&mut parts.second));
    let bound = name(alloc, taken(&mut parts.third));
    let body = ordered_statements(alloc, taken(&mut parts.fourth));
    caught(alone(alloc, handler(place_of(0, tokens), class, bound, body)))
}
