//! Statements of their parts.

ghost use Rattle.std.specs.Prelude.{◌≡◌, ℕ, List, IfOk, map};
ghost use Rattle.jd_java_tokens.specs.Heads as heads;
ghost use Rattle.jd_java_tokens.specs.Lexemes.{lexeme_view};
ghost use Rattle.jd_syntax.specs.JavaTypes.{PlainWritten, written_view};
ghost use Rattle.jd_syntax.specs.JavaTrees.{JavaDeclarator, declarator_view, java_stmt_view};
ghost use Rattle.jd_syntax.specs.JavaTrees as java;
ghost use Rattle.jd_java_values.specs.Values.{Statement};
ghost use Rattle.jd_java_values.specs.Views.{Gives, boxed_view, in_order, value_view};

use jd_base::{NoMemory, both};
use jd_java_tokens::{Lexeme, place_of};
use jd_java_values::{Value, boxed};
use jd_syntax::{Declarator, Stmt, StmtForm, WrittenType};
use std::alloc::Global;

/// A statement as what a node stands for.
pub fn given(alloc: Global, statement: Stmt) -> Result<Value, NoMemory>
    ensures { Gives value_view result (Statement (java_stmt_view statement)) }
{
    Ok(Value::Statement(boxed(alloc, statement)?))
}

/// The statement of this form that begins with the first token.
pub fn begins(alloc: Global, tokens: &[Lexeme<'_>], form: StmtForm) -> Result<Value, NoMemory>
    ensures { Gives value_view result (Statement (java_stmt_view (record { at = heads.place_of 0 (map lexeme_view tokens.now); form = form }))) }
{
    let at = place_of(0, tokens);
    given(alloc, Stmt { at, form })
}

/// `l: s`
pub fn labelled(
    alloc: Global,
    at: u32,
    label: Result<Vec<u8>, NoMemory>,
    body: Box<Stmt>,
) -> Result<Value, NoMemory>
    ensures { (w : List ℕ) → IfOk label (λ l. l.items ≡ w) → Gives value_view result (Statement (java.Label at None w (boxed_view body))) }
{
    let (label, body) = both(label, Ok(body))?;
    let form = StmtForm::Label(None, label, body);
    given(alloc, Stmt { at, form })
}

/// `T x = e, ..;`
pub fn local(
    alloc: Global,
    at: u32,
    written: Result<WrittenType, NoMemory>,
    variables: Result<Vec<Declarator>, NoMemory>,
) -> Result<Value, NoMemory>
    ensures { (t : PlainWritten) (ds : List JavaDeclarator) → Gives written_view written t → Gives (in_order declarator_view) variables ds → Gives value_view result (Statement (java.Local at t ds)) }
{
    let (written, variables) = both(written, variables)?;
    let form = StmtForm::Local(written, variables);
    given(alloc, Stmt { at, form })
}
