//! Statements, read from bracketed expressions.

ghost use Rattle.std.specs.Prelude.{◌≡◌, [], ◌∷◌, IfOk, Some, map, option_map};
ghost use Rattle.jd_syntax.specs.CodeViews.{code_view, expr_view, stmt_view};
ghost use Rattle.jd_syntax.specs.Codes.{stmts_of};
ghost use Rattle.jd_syntax.specs.Sxs.{bracketed_list, sx_view};
ghost use Rattle.jd_tforms.specs.Reading as plain;
ghost use Rattle.jd_tcode.specs.Behind.{rest_of};
ghost use Rattle.jd_tcode.specs.Pairing.{Gives};

use crate::exprs::read_expr;
use crate::made_stmts::{
    allocated, alone, assigned, block, break_of, catch, finally, frame, if_then, one_expr, raised,
    while_loop, write_element, write_field,
};
use crate::parts::Part;
use crate::reader::{Reader, first_word};
use crate::words::{class_in, field_in, label_in, loop_in, result_in, variable_in, word_in};
use jd_syntax::{Code, CodeExpr, CodeStmt, Sx};
use jd_tforms::StmtHead;
use jd_twords::{NameMeanings, is_word, stmt_head};

// The length in `(arr X)`.
#[cycle(read_code)]
#[tactic(auto, using(crate::proofs::Ends::not_two))]
fn array_behind<N: NameMeanings>(at: &Reader<'_, N>, parts: &[Sx]) -> Part<CodeExpr>
    ensures { Gives expr_view result (plain.array_of (N.table at.now.names.now) (plain.reads (N.table at.now.names.now) (bracketed_list (map sx_view parts.now)))) }
{
    if parts.len() != 2 {
        return Ok(None);
    }
    let [head, length] = parts else {
        return Ok(None)
    };
    let Some(word) = word_in(head) else {
        return Ok(None)
    };
    if is_word(b"arr", word) {
        read_expr(at, length)
    } else {
        Ok(None)
    }
}

// The same.
#[cycle(read_code)]
fn read_array<N: NameMeanings>(at: &Reader<'_, N>, x: &Sx) -> Part<CodeExpr>
    ensures { Gives expr_view result (plain.read (N.table at.now.names.now) (sx_view x.now)).array }
{
    match x {
        Sx::Atom(_) => Ok(None),
        Sx::List(parts) => array_behind(at, parts),
    }
}

// A statement of one part behind its head.
#[cycle(read_code)]
fn stmt_of_one<N: NameMeanings>(at: &Reader<'_, N>, head: StmtHead, a: &Sx) -> Part<CodeStmt>
    ensures { Gives stmt_view result (plain.stmt_of (N.table at.now.names.now) (Some head) (plain.read (N.table at.now.names.now) (sx_view a.now) ∷ [])) }
{
    match head {
        StmtHead::Evaluate | StmtHead::Throw | StmtHead::ThrowUnchecked | StmtHead::Return => {
            one_expr(head, read_expr(at, a))
        }
        StmtHead::Break => break_of(label_in(a)),
        StmtHead::Raise => raised(class_in(at.names, a)),
        _ => Ok(None),
    }
}

// A statement of two parts.
#[cycle(read_code)]
fn stmt_of_two<N: NameMeanings>(
    at: &Reader<'_, N>,
    head: StmtHead,
    a: &Sx,
    b: &Sx,
) -> Part<CodeStmt>
    ensures { Gives stmt_view result (plain.stmt_of (N.table at.now.names.now) (Some head) (plain.read (N.table at.now.names.now) (sx_view a.now) ∷ plain.read (N.table at.now.names.now) (sx_view b.now) ∷ [])) }
{
    match head {
        StmtHead::Set | StmtHead::NewArray => {
            assigned(head, variable_in(at.alloc, at.names, a), read_expr(at, b))
        }
        StmtHead::Block => block(label_in(a), read_code(at, b)),
        StmtHead::Finally => finally(read_code(at, a), read_code(at, b)),
        StmtHead::Frame => frame(result_in(at.alloc, at.names, a), read_code(at, b)),
        StmtHead::Alloc => allocated(
            variable_in(at.alloc, at.names, a),
            class_in(at.names, b),
            read_array(at, b),
        ),
        _ => Ok(None),
    }
}

// A statement of three parts.
#[cycle(read_code)]
fn stmt_of_three<N: NameMeanings>(
    at: &Reader<'_, N>,
    head: StmtHead,
    a: &Sx,
    b: &Sx,
    c: &Sx,
) -> Part<CodeStmt>
    ensures { Gives stmt_view result (plain.stmt_of (N.table at.now.names.now) (Some head) (plain.read (N.table at.now.names.now) (sx_view a.now) ∷ plain.read (N.table at.now.names.now) (sx_view b.now) ∷ plain.read (N.table at.now.names.now) (sx_view c.now) ∷ [])) }
{
    match head {
        StmtHead::WriteField => {
            write_field(read_expr(at, a), field_in(at.names, b), read_expr(at, c))
        }
        StmtHead::WriteElement => {
            write_element(read_expr(at, a), read_expr(at, b), read_expr(at, c))
        }
        StmtHead::If => if_then(read_expr(at, a), read_code(at, b), read_code(at, c)),
        StmtHead::While => while_loop(loop_in(a), read_expr(at, b), read_code(at, c)),
        StmtHead::Catch => catch(
            read_code(at, a),
            variable_in(at.alloc, at.names, b),
            read_code(at, c),
        ),
        _ => Ok(None),
    }
}

// What stands behind the head of a statement.
#[cycle(read_code)]
fn stmt_behind<N: NameMeanings>(at: &Reader<'_, N>, head: StmtHead, parts: &[Sx]) -> Part<CodeStmt>
    ensures { Gives stmt_view result (plain.stmt_of (N.table at.now.names.now) (Some head) (rest_of (plain.reads (N.table at.now.names.now) (bracketed_list (map sx_view parts.now))))) }
{
    match parts {
        [_, a] => stmt_of_one(at, head, a),
        [_, a, b] => stmt_of_two(at, head, a, b),
        [_, a, b, c] => stmt_of_three(at, head, a, b, c),
        [_, _, _, _, _, ..] => Ok(None),
        [] => Ok(alone(head)),
        [_] => Ok(alone(head)),
    }
}

/// A statement, in the same way.
#[cycle(read_code)]
pub fn read_stmt<N: NameMeanings>(at: &Reader<'_, N>, x: &Sx) -> Part<CodeStmt>
    ensures { Gives stmt_view result (plain.read (N.table at.now.names.now) (sx_view x.now)).stmt }
{
    match x {
        Sx::Atom(_) => Ok(None),
        Sx::List(parts) => match first_word(parts) {
            None => Ok(None),
            Some(word) => match stmt_head(word) {
                None => Ok(None),
                Some(head) => stmt_behind(at, head, parts),
            },
        },
    }
}

#[tactic(auto, using(jd_syntax::proofs::CodeLemmas::rows))]
fn code_of(stmts: Vec<CodeStmt>) -> Code
    ensures { code_view result ≡ stmts_of (map stmt_view stmts.items) }
{
    Code { stmts }
}

// Statements one after the other.
#[cycle(read_code)]
fn read_stmts<N: NameMeanings>(at: &Reader<'_, N>, parts: &[Sx]) -> Part<Vec<CodeStmt>>
    ensures { IfOk result (λ o. option_map (λ v. stmts_of (map stmt_view v.items)) o ≡ plain.statements (N.table at.now.names.now) (plain.reads (N.table at.now.names.now) (bracketed_list (map sx_view parts.now)))) }
{
    let mut stmts = Vec::with_capacity(at.alloc, parts.len())?;
    for part in parts {
        let Some(stmt) = read_stmt(at, part)? else {
            return Ok(None)
        };
        stmts.push(stmt)?;
    }
    Ok(Some(stmts))
}

/// A list of statements, in the same way.
#[cycle(read_code)]
pub fn read_code<N: NameMeanings>(at: &Reader<'_, N>, x: &Sx) -> Part<Code>
    ensures { Gives code_view result (plain.read (N.table at.now.names.now) (sx_view x.now)).code }
{
    match x {
        Sx::Atom(_) => Ok(None),
        Sx::List(parts) => match read_stmts(at, parts)? {
            None => Ok(None),
            Some(stmts) => Ok(Some(code_of(stmts))),
        },
    }
}
