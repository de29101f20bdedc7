//! The words of terms, formulas and code.

ghost use Rattle.std.specs.Prelude.{◌≡◌};
ghost use Rattle.jd_syntax.specs.CodeViews.{expr_view, stmt_view};
ghost use Rattle.jd_term.specs.Formulas.{formula_view};
ghost use Rattle.jd_term.specs.TermViews.{loc_view, term_view};
ghost use Rattle.jd_tgrammar.specs.Spelling as spelling;
ghost use Rattle.jd_tgrammar.specs.Words as plain;
ghost use Rattle.jd_print.specs.Writing.{first_word, no_names};

use jd_base::Sort;
use jd_syntax::{BinaryOp, CodeExpr, CodeStmt, UnaryOp};
use jd_term::{ArithmeticOp, Formula, Loc, Modality, Term};

pub(crate) fn sort_word(sort: Sort) -> &'static [u8]
    ensures { result.now ≡ plain.sort_word sort }
{
    match sort {
        Sort::Int => b"Int",
        Sort::Bool => b"Bool",
        Sort::Ref => b"Ref",
        Sort::Heap => b"Heap",
        Sort::Field => b"Field",
    }
}

pub(crate) fn truth_word(truth: bool) -> &'static [u8]
    ensures { result.now ≡ plain.truth_word truth }
{
    if truth { b"true" } else { b"false" }
}

fn arithmetic_word(operation: ArithmeticOp) -> &'static [u8]
    ensures { result.now ≡ plain.arithmetic_word operation }
{
    match operation {
        ArithmeticOp::Add => b"add",
        ArithmeticOp::Subtract => b"sub",
        ArithmeticOp::Multiply => b"mul",
        ArithmeticOp::Divide => b"div",
        ArithmeticOp::Remainder => b"mod",
    }
}

fn select_word(sort: Sort) -> &'static [u8]
    ensures { result.now ≡ plain.select_word sort }
{
    match sort {
        Sort::Int => b"selI",
        Sort::Bool => b"selB",
        Sort::Ref | Sort::Heap | Sort::Field => b"selR",
    }
}

fn modality_word(modality: Modality) -> &'static [u8]
    ensures { result.now ≡ plain.modality_word modality }
{
    match modality {
        Modality::Necessity => b"box",
        Modality::Possibility => b"dia",
    }
}

fn unary_word(operation: UnaryOp) -> &'static [u8]
    ensures { result.now ≡ plain.unary_word operation }
{
    match operation {
        UnaryOp::Negate => b"neg",
        UnaryOp::Invert => b"not",
    }
}

fn binary_word(operation: BinaryOp) -> &'static [u8]
    ensures { result.now ≡ plain.binary_word operation }
{
    match operation {
        BinaryOp::Add => b"add",
        BinaryOp::Subtract => b"sub",
        BinaryOp::Multiply => b"mul",
        BinaryOp::Divide => b"div",
        BinaryOp::Remainder => b"mod",
        BinaryOp::Less => b"lt",
        BinaryOp::LessOrEqual => b"le",
        BinaryOp::Greater => b"gt",
        BinaryOp::GreaterOrEqual => b"ge",
        BinaryOp::Equal => b"eq",
        BinaryOp::NotEqual => b"ne",
    }
}

/// The word that stands first in the brackets of a term; none of a word alone.
pub(crate) fn term_word(term: &Term) -> &'static [u8]
    ensures { result.now ≡ first_word (spelling.term_text no_names (term_view term.now)) }
{
    match term {
        Term::Number(_)
        | Term::Boolean(_)
        | Term::ProgramVariable(_)
        | Term::Constant(_)
        | Term::Bound(_, _)
        | Term::NamedField(_)
        | Term::NullTerm
        | Term::CreatedField => b"",
        Term::Arithmetic(operation, _, _) => arithmetic_word(*operation),
        Term::Negation(_) => b"neg",
        Term::Wrap(_) => b"wrap",
        Term::Length(_) => b"len",
        Term::Select(sort, _, _, _) => select_word(*sort),
        Term::Sum(_, _, _) => b"bsum",
        Term::Store(_, _, _, _) => b"store",
        Term::Create(_, _) => b"create",
        Term::Anon(_, _, _) => b"anon",
        Term::ElementField(_) => b"idx",
    }
}

/// The same of a location set.
pub(crate) fn loc_word(loc: &Loc) -> &'static [u8]
    ensures { result.now ≡ first_word (spelling.loc_text no_names (loc_view loc.now)) }
{
    match loc {
        Loc::NoLocations | Loc::AllLocations => b"",
        Loc::Single(_, _) => b"loc",
        Loc::ObjectFields(_) => b"obj",
        Loc::ArrayElements(_) => b"arrall",
        Loc::ElementRange(_, _, _) => b"arr",
        Loc::Union(_, _) => b"union",
    }
}

/// The same of a formula.
pub(crate) fn formula_word(formula: &Formula) -> &'static [u8]
    ensures { result.now ≡ first_word (spelling.formula_text no_names (formula_view formula.now)) }
{
    match formula {
        Formula::TrueFormula | Formula::FalseFormula => b"",
        Formula::Not(_) => b"not",
        Formula::And(_, _) => b"and",
        Formula::Or(_, _) => b"or",
        Formula::Implies(_, _) => b"imp",
        Formula::Iff(_, _) => b"iff",
        Formula::Equal(_, _) => b"eq",
        Formula::Less(_, _) => b"lt",
        Formula::LessOrEqual(_, _) => b"le",
        Formula::Forall(_, _) => b"forall",
        Formula::Exists(_, _) => b"exists",
        Formula::Updated(_, _) => b"upd",
        Formula::Modal(modality, _, _) => modality_word(*modality),
        Formula::InLocations(_, _, _) => b"in",
        Formula::InInt(_) => b"inInt",
        Formula::WellFormed(_) => b"wf",
        Formula::Invariant(_, _) => b"inv",
        Formula::IsInstance(_, _) => b"inst",
        Formula::IsExactInstance(_, _) => b"exact",
    }
}

/// The same of an expression.
pub(crate) fn expr_word(expr: &CodeExpr) -> &'static [u8]
    ensures { result.now ≡ first_word (spelling.expr_text no_names (expr_view expr.now)) }
{
    match expr {
        CodeExpr::IntLiteral(_)
        | CodeExpr::BoolLiteral(_)
        | CodeExpr::NullLiteral
        | CodeExpr::Variable(_) => b"",
        CodeExpr::Unary(operation, _) => unary_word(*operation),
        CodeExpr::Binary(operation, _, _) => binary_word(*operation),
        CodeExpr::AndAlso(_, _) => b"and",
        CodeExpr::OrElse(_, _) => b"or",
        CodeExpr::Conditional(_, _, _) => b"cond",
        CodeExpr::ReadField(_, _) => b"get",
        CodeExpr::ReadElement(_, _) => b"aget",
        CodeExpr::LengthOf(_) => b"len",
        CodeExpr::Cast(_, _) => b"cast",
        CodeExpr::InstanceOf(_, _) => b"inst",
        CodeExpr::VirtualCall(_, _, _, _) => b"call",
        CodeExpr::StaticCall(_, _) => b"scall",
        CodeExpr::ConstructorCall(_, _, _) => b"ctor",
        CodeExpr::DoThen(_, _) => b"do",
    }
}

/// The same of a statement.
pub(crate) fn stmt_word(stmt: &CodeStmt) -> &'static [u8]
    ensures { result.now ≡ first_word (spelling.stmt_text no_names (stmt_view stmt.now)) }
{
    match stmt {
        CodeStmt::Set(_, _) => b"set",
        CodeStmt::WriteField(_, _, _) => b"put",
        CodeStmt::WriteElement(_, _, _) => b"aput",
        CodeStmt::Evaluate(_) => b"eval",
        CodeStmt::If(_, _, _) => b"if",
        CodeStmt::While(_, _, _) => b"while",
        CodeStmt::Block(_, _) => b"block",
        CodeStmt::Break(_) => b"break",
        CodeStmt::Catch(_, _, _) => b"catch",
        CodeStmt::Finally(_, _) => b"finally",
        CodeStmt::Throw(_) => b"throw",
        CodeStmt::ThrowUnchecked(_) => b"throwx",
        CodeStmt::Return(_) => b"return",
        CodeStmt::ReturnVoid => b"return",
        CodeStmt::Frame(_, _) => b"frame",
        CodeStmt::Raise(_) => b"raise",
        CodeStmt::AllocObject(_, _) => b"alloc",
        CodeStmt::AllocArray(_, _) => b"alloc",
        CodeStmt::NewArray(_, _) => b"allocarr",
        CodeStmt::Stop => b"stop",
    }
}
