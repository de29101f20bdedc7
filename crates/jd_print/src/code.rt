//! The text of code.

ghost use Rattle.std.specs.Prelude.{map, option_map};
ghost use Rattle.jd_bracketed.specs.Tokens.{Word};
ghost use Rattle.jd_syntax.specs.CodeViews.{code_view, expr_view, kind_view, stmt_view};
ghost use Rattle.jd_syntax.specs.Codes.{exprs_of, stmts_of};
ghost use Rattle.jd_syntax.specs.Names.{var_view};
ghost use Rattle.jd_written.specs.Written.{Text, write};
ghost use Rattle.jd_tgrammar.specs.Spelling as spelling;
ghost use Rattle.jd_print.specs.Printings.{Holds};
ghost use Rattle.jd_print.specs.Writing.{write_many, write_one};

use crate::names::NameTexts;
use crate::printing::Printing;
use crate::words::{expr_word, stmt_word, truth_word};
use jd_base::{ClassId, MethodId};
use jd_syntax::{Code, CodeExpr, CodeStmt, Kind, VarId};

impl Printing {
    // Writes a class.
    fn class<N: NameTexts>(self, names: &N, class: ClassId) -> Printing
        ensures { (t : Text) → Holds self t → Holds result (write t (Word (spelling.class_word (N.table names.now) class.0))) }
    {
        self.word(names.class_name(class))
    }

    // Writes a method by a class that sees it, and its name.
    fn method<N: NameTexts>(self, names: &N, class: ClassId, method: MethodId) -> Printing
        ensures { (t : Text) → Holds self t → Holds result (write t (Word (spelling.method_word (N.table names.now) class.0 method.0))) }
    {
        self.member(names.class_name(class), names.routine_name(method))
    }

    /// Writes a class, or `int[]`.
    pub(crate) fn kind<N: NameTexts>(self, names: &N, kind: Kind) -> Printing
        ensures { (t : Text) → Holds self t → Holds result (write t (Word (spelling.kind_word (N.table names.now) (kind_view kind)))) }
    {
        match kind {
            Kind::Class(class) => self.class(names, class),
            Kind::IntArray => self.word(b"int[]"),
        }
    }

    // Writes the variable that takes a result, or `-`.
    fn taker<N: NameTexts>(self, names: &N, variable: &Option<VarId>) -> Printing
        ensures { (t : Text) → Holds self t → Holds result (write t (Word (spelling.result_word (N.table names.now) (option_map var_view variable.now)))) }
    {
        match variable {
            Some(variable) => self.word(&variable.name),
            None => self.word(b"-"),
        }
    }

    // Writes an expression.
    #[cycle(code)]
    fn expr<N: NameTexts>(self, names: &N, expr: &CodeExpr) -> Printing
        ensures { (t : Text) → Holds self t → Holds result (write_one t (spelling.expr_text (N.table names.now) (expr_view expr.now))) }
    {
        let head = expr_word(expr);
        match expr {
            CodeExpr::IntLiteral(n) => self.integer(i128::from(*n)),
            CodeExpr::BoolLiteral(truth) => self.word(truth_word(*truth)),
            CodeExpr::NullLiteral => self.word(b"null"),
            CodeExpr::Variable(variable) => self.word(&variable.name),
            CodeExpr::Unary(_, a) | CodeExpr::LengthOf(a) => {
                self.begin(head).expr(names, a).close()
            }
            CodeExpr::Binary(_, a, b)
            | CodeExpr::AndAlso(a, b)
            | CodeExpr::OrElse(a, b)
            | CodeExpr::ReadElement(a, b) => {
                self.begin(head).expr(names, a).expr(names, b).close()
            }
            CodeExpr::Conditional(a, b, c) => self
                .begin(head)
                .expr(names, a)
                .expr(names, b)
                .expr(names, c)
                .close(),
            CodeExpr::ReadField(a, field) => {
                self.begin(head).expr(names, a).field(names, *field).close()
            }
            CodeExpr::Cast(kind, a) | CodeExpr::InstanceOf(kind, a) => {
                self.begin(head).kind(names, *kind).expr(names, a).close()
            }
            CodeExpr::VirtualCall(class, method, a, operands) => self
                .begin(head)
                .method(names, *class, *method)
                .expr(names, a)
                .exprs(names, operands)
                .close(),
            CodeExpr::StaticCall(method, operands) => self
                .begin(head)
                .method(names, names.routine_class(*method), *method)
                .exprs(names, operands)
                .close(),
            CodeExpr::ConstructorCall(method, a, operands) => self
                .begin(head)
                .class(names, names.routine_class(*method))
                .expr(names, a)
                .exprs(names, operands)
                .close(),
            CodeExpr::DoThen(code, a) => {
                self.begin(head).code(names, code).expr(names, a).close()
            }
        }
    }

    // Writes expressions one after the other.
    #[cycle(code)]
    fn exprs<N: NameTexts>(self, names: &N, exprs: &[CodeExpr]) -> Printing
        ensures { (t : Text) → Holds self t → Holds result (write_many t (spelling.exprs_text (N.table names.now) (exprs_of (map expr_view exprs.now)))) }
    {
        let mut out = self;
        for expr in exprs {
            out = out.expr(names, expr);
        }
        out
    }

    // Writes a statement.
    #[cycle(code)]
    fn stmt<N: NameTexts>(self, names: &N, stmt: &CodeStmt) -> Printing
        ensures { (t : Text) → Holds self t → Holds result (write_one t (spelling.stmt_text (N.table names.now) (stmt_view stmt.now))) }
    {
        let out = self.begin(stmt_word(stmt));
        let out = match stmt {
            CodeStmt::ReturnVoid | CodeStmt::Stop => out,
            CodeStmt::Evaluate(a)
            | CodeStmt::Throw(a)
            | CodeStmt::ThrowUnchecked(a)
            | CodeStmt::Return(a) => out.expr(names, a),
            CodeStmt::Set(variable, a) | CodeStmt::NewArray(variable, a) => {
                out.word(&variable.name).expr(names, a)
            }
            CodeStmt::WriteField(a, f, b) => out.expr(names, a).field(names, *f).expr(names, b),
            CodeStmt::WriteElement(a, b, c) => out.expr(names, a).expr(names, b).expr(names, c),
            CodeStmt::If(a, b, c) => out.expr(names, a).code(names, b).code(names, c),
            CodeStmt::While(n, a, b) => out.number(*n).expr(names, a).code(names, b),
            CodeStmt::Block(label, a) => out.label(*label).code(names, a),
            CodeStmt::Break(label) => out.label(*label),
            CodeStmt::Catch(a, variable, b) => {
                out.code(names, a).word(&variable.name).code(names, b)
            }
            CodeStmt::Finally(a, b) => out.code(names, a).code(names, b),
            CodeStmt::Frame(variable, a) => out.taker(names, variable).code(names, a),
            CodeStmt::Raise(class) => out.class(names, *class),
            CodeStmt::AllocObject(variable, class) => {
                out.word(&variable.name).class(names, *class)
            }
            CodeStmt::AllocArray(variable, a) => {
                out.word(&variable.name)
                    .begin(b"arr")
                    .expr(names, a)
                    .close()
            }
        };
        out.close()
    }

    // Writes statements one after the other.
    #[cycle(code)]
    fn stmts<N: NameTexts>(self, names: &N, stmts: &[CodeStmt]) -> Printing
        ensures { (t : Text) → Holds self t → Holds result (write_many t (spelling.stmts_text (N.table names.now) (stmts_of (map stmt_view stmts.now)))) }
    {
        let mut out = self;
        for stmt in stmts {
            out = out.stmt(names, stmt);
        }
        out
    }

    /// Writes statements in brackets.
    #[cycle(code)]
    pub(crate) fn code<N: NameTexts>(self, names: &N, code: &Code) -> Printing
        ensures { (t : Text) → Holds self t → Holds result (write_one t (spelling.code_text (N.table names.now) (code_view code.now))) }
    {
        self.open().stmts(names, &code.stmts).close()
    }
}
