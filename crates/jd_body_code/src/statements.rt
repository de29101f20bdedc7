//! Statements (JLS 14).

ghost use Rattle.std.specs.Prelude.{◌≡◌, ℕ, [], List, map, option_map};
ghost use Rattle.std.specs.Option.{option_copied};
ghost use Rattle.jd_bodies.specs.Bodies as plain;
ghost use Rattle.jd_bodies.specs.Scopes.{Local};
ghost use Rattle.jd_bodies.specs.Variables.{Progress};
ghost use Rattle.jd_body_code.specs.Parted.{declares, handler_parts, loop_of, part_of, tried_lines};
ghost use Rattle.jd_code_makers.specs.Held.{Works};
ghost use Rattle.jd_code_makers.specs.Makers.{GivesStmts};
ghost use Rattle.jd_effect_code.specs.Asking.{label_texts};
ghost use Rattle.jd_jcalls.specs.Handlers.{java_handler_view};
ghost use Rattle.jd_statement_parts.specs.Catching.{GivesPart, GivesParts};
ghost use Rattle.jd_statement_parts.specs.Leaving.{exits_view};
ghost use Rattle.jd_statement_parts.specs.Standing.{Stands};
ghost use Rattle.jd_syntax.specs.JavaTrees.{java_handlers, java_stmt_view, java_stmts, java_view};

use jd_base::NoMemory;
use jd_bodies::ValueType;
use jd_code_makers as makers;
use jd_code_makers::{appended_stmts, break_to, choice, finally, no_stmts, one_stmt, thrown};
use jd_effect_code::{Labels, leaves_label, leaves_loop, no_labels, repeats_loop, with_label};
use jd_expression_code::Body;
use jd_locals::ListsLocals;
use jd_naming::{Declares, InScope};
use jd_statement_parts::{
    Exits, Head, Part, above, block_if, break_exit, caught_by_parts, continue_exit, declared,
    effect_code, effects, enter, expr_code, failed, given_up, handler_part, in_label, in_loop,
    label_if, loop_head, looped, no_parts, one_class, returned_code, started, with_part,
};
use jd_syntax::{CodeStmt, Expr, Handler, Stmt, StmtForm};

/// A loop: its condition, if one is written, what is evaluated behind each turn, and its body.
#[derive(Clone, Copy)]
struct Loop<'n> {
    condition: Option<&'n Expr>,
    update: &'n [Expr],
    body: &'n Stmt,
}

// A declaration of locals.
fn is_declaration(s: &Stmt) -> bool
    ensures { result ≡ declares (java_stmt_view s.now) }
{
    match &s.form {
        StmtForm::Local(_, _) => true,
        StmtForm::Block(_)
        | StmtForm::Empty
        | StmtForm::Evaluate(_)
        | StmtForm::Label(_, _, _)
        | StmtForm::If(_, _)
        | StmtForm::IfElse(_, _, _)
        | StmtForm::While(_, _, _)
        | StmtForm::For(_, _, _, _, _)
        | StmtForm::Break(_)
        | StmtForm::Continue(_)
        | StmtForm::Return(_)
        | StmtForm::Throw(_)
        | StmtForm::Try(_, _)
        | StmtForm::TryFinally(_, _, _)
        | StmtForm::Super(_) => false,
    }
}

// What a declaration makes, and leaves in scope.
fn declaration<D: Declares, S: InScope>(
    m: &Body<'_, D>,
    scope: &mut S,
    p: &mut makers::Progress,
    s: &Stmt,
) -> Result<Vec<CodeStmt>, NoMemory>
    ensures stands { (labels : List (List ℕ)) (x : plain.Exits) (q : Progress) (ls : List Local) → Stands p.old (S.scope scope.old).locals q ls → Stands p.new (S.scope scope.new).locals (plain.lines (D.declarations m.now.declared.now) m.now.place (java_stmt_view s.now) labels x ls q).lines.0 (plain.lines (D.declarations m.now.declared.now) m.now.place (java_stmt_view s.now) labels x ls q).locals }
    ensures stmts { (labels : List (List ℕ)) (x : plain.Exits) (q : Progress) (ls : List Local) → Stands p.old (S.scope scope.old).locals q ls → GivesStmts result (plain.lines (D.declarations m.now.declared.now) m.now.place (java_stmt_view s.now) labels x ls q).lines.1 }
    ensures works { Works p.new → Works p.old }
{
    match &s.form {
        StmtForm::Local(w, xs) => declared(m, scope, p, w, xs),
        _ => failed(p),
    }
}

// A statement, which stands directly behind these labels, where jumps go so.
#[cycle(lines)]
fn lines<'n, D: Declares, S: ListsLocals>(
    m: &Body<'_, D>,
    scope: &mut S,
    p: &mut makers::Progress,
    x: &'n Exits<'n>,
    labels: &'n Labels<'n>,
    s: &'n Stmt,
) -> Result<Vec<CodeStmt>, NoMemory>
    ensures stands { (q : Progress) (ls : List Local) → Stands p.old (S.scope scope.old).locals q ls → Stands p.new (S.scope scope.new).locals ((plain.lines (D.declarations m.now.declared.now) m.now.place (java_stmt_view s.now) (label_texts labels.now) (exits_view x.now) ls q).lines).0 ls }
    ensures stmts { (q : Progress) (ls : List Local) → Stands p.old (S.scope scope.old).locals q ls → GivesStmts result ((plain.lines (D.declarations m.now.declared.now) m.now.place (java_stmt_view s.now) (label_texts labels.now) (exits_view x.now) ls q).lines).1 }
    ensures works { Works p.new → Works p.old }
{
    match &s.form {
        StmtForm::Block(ss) => block(m, scope, p, x, ss),
        StmtForm::Empty => no_stmts(m.alloc),
        StmtForm::Local(w, xs) => {
            let mark = scope.mark();
            let made = declared(m, scope, p, w, xs);
            scope.leave(mark);
            made
        }
        StmtForm::Evaluate(e) => effect_code(m, scope, p, e),
        StmtForm::Label(_, l, inner) => {
            let l: &[u8] = l;
            let inner: &Stmt = inner;
            let wanted = leaves_label(l, inner);
            match label_if(p, wanted) {
                Err(NoMemory) => failed(p),
                Ok(number) => {
                    let y = in_label(x, l, number);
                    let behind = with_label(labels, l);
                    let made = lines(m, scope, p, &y, &behind, inner);
                    block_if(m.alloc, wanted, number, made)
                }
            }
        }
        StmtForm::If(c, inner) => {
            let condition = expr_code(m, scope, p, c);
            let first = bare(m, scope, p, x, inner);
            one_stmt(m.alloc, choice(condition, first, no_stmts(m.alloc)))
        }
        StmtForm::IfElse(c, inner, other) => {
            let condition = expr_code(m, scope, p, c);
            let first = bare(m, scope, p, x, inner);
            let second = bare(m, scope, p, x, other);
            one_stmt(m.alloc, choice(condition, first, second))
        }
        StmtForm::While(_, c, body) => {
            let turned = Loop {
                condition: Some(c),
                update: &[],
                body,
            };
            turns(m, scope, p, x, labels, turned)
        }
        StmtForm::For(_, start, c, update, body) => {
            let mark = scope.mark();
            let first = started(m, scope, p, start);
            let turned = Loop {
                condition: c.as_ref(),
                update,
                body,
            };
            let rest = turns(m, scope, p, x, labels, turned);
            scope.leave(mark);
            appended_stmts(first, rest)
        }
        StmtForm::Break(l) => one_stmt(m.alloc, break_to(Ok(break_exit(x, l)))),
        StmtForm::Continue(l) => one_stmt(m.alloc, break_to(Ok(continue_exit(x, l)))),
        StmtForm::Return(e) => returned_code(m, scope, p, e),
        StmtForm::Throw(e) => one_stmt(m.alloc, thrown(expr_code(m, scope, p, e))),
        StmtForm::Try(ss, hs) => tried(m, scope, p, x, ss, hs),
        StmtForm::TryFinally(ss, hs, fs) => {
            let made = tried(m, scope, p, x, ss, hs);
            let last = block(m, scope, p, x, fs);
            one_stmt(m.alloc, finally(made, last))
        }
        StmtForm::Super(es) => above(m, scope, p, es),
    }
}

// A statement behind no label.
#[cycle(lines)]
fn bare<'n, D: Declares, S: ListsLocals>(
    m: &Body<'_, D>,
    scope: &mut S,
    p: &mut makers::Progress,
    x: &'n Exits<'n>,
    s: &'n Stmt,
) -> Result<Vec<CodeStmt>, NoMemory>
    ensures stands { (q : Progress) (ls : List Local) → Stands p.old (S.scope scope.old).locals q ls → Stands p.new (S.scope scope.new).locals ((plain.lines (D.declarations m.now.declared.now) m.now.place (java_stmt_view s.now) [] (exits_view x.now) ls q).lines).0 ls }
    ensures stmts { (q : Progress) (ls : List Local) → Stands p.old (S.scope scope.old).locals q ls → GivesStmts result ((plain.lines (D.declarations m.now.declared.now) m.now.place (java_stmt_view s.now) [] (exits_view x.now) ls q).lines).1 }
    ensures works { Works p.new → Works p.old }
{
    lines(m, scope, p, &*x, &no_labels(), &*s)
}

// A loop behind these labels.
#[cycle(lines)]
fn turns<'n, D: Declares, S: ListsLocals>(
    m: &Body<'_, D>,
    scope: &mut S,
    p: &mut makers::Progress,
    x: &'n Exits<'n>,
    labels: &'n Labels<'n>,
    t: Loop<'n>,
) -> Result<Vec<CodeStmt>, NoMemory>
    ensures stands { (q : Progress) (ls : List Local) → Stands p.old (S.scope scope.old).locals q ls → Stands p.new (S.scope scope.new).locals (plain.loop_lines (loop_of (D.declarations m.now.declared.now) m.now.place (label_texts labels.now) ls (option_map java_view (option_copied t.entry.condition)) (map java_view t.entry.update.now) (java_stmt_view t.entry.body.now)) (exits_view x.now) q).0 ls }
    ensures stmts { (q : Progress) (ls : List Local) → Stands p.old (S.scope scope.old).locals q ls → GivesStmts result (plain.loop_lines (loop_of (D.declarations m.now.declared.now) m.now.place (label_texts labels.now) ls (option_map java_view (option_copied t.entry.condition)) (map java_view t.entry.update.now) (java_stmt_view t.entry.body.now)) (exits_view x.now) q).1 }
    ensures works { Works p.new → Works p.old }
{
    let Loop {
        condition,
        update,
        body,
    } = t;
    let leaves = leaves_loop(body);
    let repeats = repeats_loop(labels, body);
    let Head { numbers, condition } = loop_head(m, scope, p, leaves, repeats, condition);
    match numbers {
        Err(NoMemory) => given_up(p, condition),
        Ok(n) => {
            let y = in_loop(x, labels, n.left, n.repeated);
            let made = bare(m, scope, p, &y, body);
            let last = effects(m, scope, p, update);
            looped(m.alloc, (leaves, repeats), n, condition, made, last)
        }
    }
}

// A statement among others; what it declares stays in scope.
#[cycle(lines)]
fn step<'n, D: Declares, S: ListsLocals>(
    m: &Body<'_, D>,
    scope: &mut S,
    p: &mut makers::Progress,
    x: &'n Exits<'n>,
    s: &'n Stmt,
) -> Result<Vec<CodeStmt>, NoMemory>
    ensures stands { (q : Progress) (ls : List Local) → Stands p.old (S.scope scope.old).locals q ls → Stands p.new (S.scope scope.new).locals (plain.lines (D.declarations m.now.declared.now) m.now.place (java_stmt_view s.now) [] (exits_view x.now) ls q).lines.0 (plain.lines (D.declarations m.now.declared.now) m.now.place (java_stmt_view s.now) [] (exits_view x.now) ls q).locals }
    ensures stmts { (q : Progress) (ls : List Local) → Stands p.old (S.scope scope.old).locals q ls → GivesStmts result (plain.lines (D.declarations m.now.declared.now) m.now.place (java_stmt_view s.now) [] (exits_view x.now) ls q).lines.1 }
    ensures works { Works p.new → Works p.old }
{
    if is_declaration(s) {
        declaration(m, scope, p, s)
    } else {
        bare(m, scope, p, x, s)
    }
}

/// Statements, one behind the other.
#[cycle(lines)]
pub(crate) fn block<'n, D: Declares, S: ListsLocals>(
    m: &Body<'_, D>,
    scope: &mut S,
    p: &mut makers::Progress,
    x: &'n Exits<'n>,
    ss: &'n [Stmt],
) -> Result<Vec<CodeStmt>, NoMemory>
    ensures stands { (q : Progress) (ls : List Local) → Stands p.old (S.scope scope.old).locals q ls → Stands p.new (S.scope scope.new).locals (plain.block_lines (D.declarations m.now.declared.now) m.now.place (java_stmts (map java_stmt_view ss.now)) (exits_view x.now) ls q).0 ls }
    ensures stmts { (q : Progress) (ls : List Local) → Stands p.old (S.scope scope.old).locals q ls → GivesStmts result (plain.block_lines (D.declarations m.now.declared.now) m.now.place (java_stmts (map java_stmt_view ss.now)) (exits_view x.now) ls q).1 }
    ensures works { Works p.new → Works p.old }
{
    let mark = scope.mark();
    let mut made = no_stmts(m.alloc);
    for s in ss {
        made = appended_stmts(made, step(m, scope, p, x, s));
    }
    scope.leave(mark);
    made
}

// A `try` without its `finally`.
#[cycle(lines)]
fn tried<'n, D: Declares, S: ListsLocals>(
    m: &Body<'_, D>,
    scope: &mut S,
    p: &mut makers::Progress,
    x: &'n Exits<'n>,
    ss: &'n [Stmt],
    hs: &'n [Handler],
) -> Result<Vec<CodeStmt>, NoMemory>
    ensures stands { (q : Progress) (ls : List Local) → Stands p.old (S.scope scope.old).locals q ls → Stands p.new (S.scope scope.new).locals (tried_lines (D.declarations m.now.declared.now) m.now.place (java_stmts (map java_stmt_view ss.now)) (java_handlers (map java_handler_view hs.now)) (exits_view x.now) ls q).0 ls }
    ensures stmts { (q : Progress) (ls : List Local) → Stands p.old (S.scope scope.old).locals q ls → GivesStmts result (tried_lines (D.declarations m.now.declared.now) m.now.place (java_stmts (map java_stmt_view ss.now)) (java_handlers (map java_handler_view hs.now)) (exits_view x.now) ls q).1 }
    ensures works { Works p.new → Works p.old }
{
    let made = block(m, scope, p, x, ss);
    match hs {
        [] => made,
        [_, ..] => {
            let thrown_object = p.temporary(m.alloc, ValueType::Class(1));
            let parts = handlers(m, scope, p, x, hs);
            caught_by_parts(m.alloc, made, thrown_object, parts)
        }
    }
}

// What is made of a handler.
#[cycle(lines)]
fn handler<'n, D: Declares, S: ListsLocals>(
    m: &Body<'_, D>,
    scope: &mut S,
    p: &mut makers::Progress,
    x: &'n Exits<'n>,
    h: &'n Handler,
) -> Result<Part, NoMemory>
    ensures stands { (q : Progress) (ls : List Local) → Stands p.old (S.scope scope.old).locals q ls → Stands p.new (S.scope scope.new).locals (part_of (D.declarations m.now.declared.now) m.now.place (java_handler_view h.now) (exits_view x.now) ls q).0 ls }
    ensures part { (q : Progress) (ls : List Local) → Stands p.old (S.scope scope.old).locals q ls → GivesPart result (part_of (D.declarations m.now.declared.now) m.now.place (java_handler_view h.now) (exits_view x.now) ls q).1 }
    ensures works { Works p.new → Works p.old }
{
    let mark = scope.mark();
    let class = one_class(m.declared, &h.class.name);
    let name: &[u8] = &h.name.name;
    enter(m, scope, p, name, ValueType::Class(class));
    let local = p.local(m.alloc, name, ValueType::Class(class));
    let made = block(m, scope, p, x, &h.body);
    scope.leave(mark);
    handler_part(class, local, made)
}

// What is made of the handlers of a `try`.
#[cycle(lines)]
fn handlers<'n, D: Declares, S: ListsLocals>(
    m: &Body<'_, D>,
    scope: &mut S,
    p: &mut makers::Progress,
    x: &'n Exits<'n>,
    hs: &'n [Handler],
) -> Result<Vec<Part>, NoMemory>
    ensures stands { (q : Progress) (ls : List Local) → Stands p.old (S.scope scope.old).locals q ls → Stands p.new (S.scope scope.new).locals (handler_parts (D.declarations m.now.declared.now) m.now.place (java_handlers (map java_handler_view hs.now)) (exits_view x.now) ls q).0 ls }
    ensures parts { (q : Progress) (ls : List Local) → Stands p.old (S.scope scope.old).locals q ls → GivesParts result (handler_parts (D.declarations m.now.declared.now) m.now.place (java_handlers (map java_handler_view hs.now)) (exits_view x.now) ls q).1 }
    ensures works { Works p.new → Works p.old }
{
    let mut parts = no_parts(m.alloc);
    for h in hs {
        parts = with_part(parts, handler(m, scope, p, x, h));
    }
    parts
}
