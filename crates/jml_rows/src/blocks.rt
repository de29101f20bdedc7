//! How many clauses the blocks of a tree have, in its order.

use jd_syntax::{ClassDecl, Handler, Member, MethodDecl, SpecBlock, Stmt, StmtForm};
use row_text::Answer;

fn put_block(answer: &mut Answer, block: &SpecBlock) {
    answer.put(" ");
    answer.put_number(block.clauses.len() as i128);
}

fn put_blocks(answer: &mut Answer, blocks: &[SpecBlock]) {
    for block in blocks {
        put_block(answer, block);
    }
}

fn put_optional(answer: &mut Answer, block: &Option<SpecBlock>) {
    if let Some(block) = block {
        put_block(answer, block);
    }
}

#[cycle(blocks)]
fn put_stmt(answer: &mut Answer, s: &Stmt) {
    match &s.form {
        StmtForm::Block(stmts) => put_stmts(answer, stmts),
        StmtForm::If(_, body) => put_stmt(answer, body),
        StmtForm::Label(specs, _, body)
        | StmtForm::While(specs, _, body)
        | StmtForm::For(specs, _, _, _, body) => {
            put_optional(answer, specs);
            put_stmt(answer, body);
        }
        StmtForm::IfElse(_, then, otherwise) => {
            put_stmt(answer, then);
            put_stmt(answer, otherwise);
        }
        StmtForm::Try(stmts, handlers) => {
            put_stmts(answer, stmts);
            put_handlers(answer, handlers);
        }
        StmtForm::TryFinally(stmts, handlers, last) => {
            put_stmts(answer, stmts);
            put_handlers(answer, handlers);
            put_stmts(answer, last);
        }
        StmtForm::Empty
        | StmtForm::Local(..)
        | StmtForm::Evaluate(_)
        | StmtForm::Break(_)
        | StmtForm::Continue(_)
        | StmtForm::Return(_)
        | StmtForm::Throw(_)
        | StmtForm::Super(_) => {}
    }
}

#[cycle(blocks)]
fn put_stmts(answer: &mut Answer, stmts: &[Stmt]) {
    for s in stmts {
        put_stmt(answer, s);
    }
}

#[cycle(blocks)]
fn put_handlers(answer: &mut Answer, handlers: &[Handler]) {
    for handler in handlers {
        put_stmts(answer, &handler.body);
    }
}

fn put_method(answer: &mut Answer, method: &MethodDecl) {
    put_blocks(answer, &method.specs);
    for parameter in &method.parameters {
        put_blocks(answer, &parameter.specs);
    }
    put_stmts(answer, &method.body);
}

fn put_member(answer: &mut Answer, member: &Member) {
    match member {
        Member::Field(field) => put_blocks(answer, &field.specs),
        Member::Constant(constant) => put_blocks(answer, &constant.specs),
        Member::Method(method) => put_method(answer, method),
    }
}

/// How many clauses and words each block of classes has.
pub(crate) fn put_classes(answer: &mut Answer, classes: &[ClassDecl]) {
    for class in classes {
        for member in &class.members {
            put_member(answer, member);
        }
        put_optional(answer, &class.end);
    }
}
