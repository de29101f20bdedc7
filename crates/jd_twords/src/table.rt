//! The forms of terms, location sets, formulas and code, a row for each: what begins it, its word, the parts behind the word and
//! what may follow them, as often as one likes.

use crate::places::Place::{
    self, Array, Code, Expr, Formula, Kind, Label, Loc, Loop, Name, Pair, Pairs, Stmt, Term,
};
use crate::places::{Form, Row};
use jd_base::Sort;
use jd_syntax::{BinaryOp as Op, UnaryOp};
use jd_term::ArithmeticOp::{Add, Divide, Multiply, Remainder, Subtract};
use jd_term::Modality::{Necessity, Possibility};
use jd_tforms::ExprHead::{
    self, AndAlso, Binary, Cast, Conditional, ConstructorCall, DoThen, InstanceOf, LengthOf,
    OrElse, ReadElement, ReadField, StaticCall, Unary, VirtualCall,
};
use jd_tforms::FormulaHead::{
    self, And, Equal, Exact, Exists, Forall, Iff, Implies, In, InInt, Instance, Invariant, Less,
    LessOrEqual, Modal, Not, Or, Updated, WellFormed,
};
use jd_tforms::LocHead::{self, Elements, Object, Range, Single, Union};
use jd_tforms::StmtHead::{
    self, Alloc, Block, Break, Catch, Evaluate, Finally, Frame, If, NewArray, Raise, Return, Set,
    Stop, Throw, ThrowUnchecked, While, WriteElement, WriteField,
};
use jd_tforms::TermHead::{
    self, Anon, Arithmetic, Create, Element, Length, Negation, Select, Store, Sum, Wrap,
};

/// Of terms.
pub(crate) static TERM_FORMS: [Row<'static, TermHead>; 16] = [
    (Arithmetic(Add), b"add", &[Term, Term], None),
    (Arithmetic(Subtract), b"sub", &[Term, Term], None),
    (Arithmetic(Multiply), b"mul", &[Term, Term], None),
    (Arithmetic(Divide), b"div", &[Term, Term], None),
    (Arithmetic(Remainder), b"mod", &[Term, Term], None),
    (Negation, b"neg", &[Term], None),
    (Wrap, b"wrap", &[Term], None),
    (Length, b"len", &[Term], None),
    (Select(Sort::Int), b"selI", &[Term, Term, Term], None),
    (Select(Sort::Bool), b"selB", &[Term, Term, Term], None),
    (Select(Sort::Ref), b"selR", &[Term, Term, Term], None),
    (Sum, b"bsum", &[Term, Term, Term], None),
    (Store, b"store", &[Term, Term, Term, Term], None),
    (Create, b"create", &[Term, Term], None),
    (Anon, b"anon", &[Term, Loc, Term], None),
    (Element, b"idx", &[Term], None),
];

/// Of location sets.
pub(crate) static LOC_FORMS: [Row<'static, LocHead>; 5] = [
    (Single, b"loc", &[Term, Term], None),
    (Object, b"obj", &[Term], None),
    (Elements, b"arrall", &[Term], None),
    (Range, b"arr", &[Term, Term, Term], None),
    (Union, b"union", &[Loc, Loc], None),
];

/// Of formulas.
pub(crate) static FORMULA_FORMS: [Row<'static, FormulaHead>; 19] = [
    (Not, b"not", &[Formula], None),
    (And, b"and", &[Formula, Formula], None),
    (Or, b"or", &[Formula, Formula], None),
    (Implies, b"imp", &[Formula, Formula], None),
    (Iff, b"iff", &[Formula, Formula], None),
    (Equal, b"eq", &[Term, Term], None),
    (Less, b"lt", &[Term, Term], None),
    (LessOrEqual, b"le", &[Term, Term], None),
    (Forall, b"forall", &[Place::Sort, Formula], None),
    (Exists, b"exists", &[Place::Sort, Formula], None),
    (Updated, b"upd", &[Pairs, Formula], None),
    (Modal(Necessity), b"box", &[Code, Formula], None),
    (Modal(Possibility), b"dia", &[Code, Formula], None),
    (In, b"in", &[Term, Term, Loc], None),
    (InInt, b"inInt", &[Term], None),
    (WellFormed, b"wf", &[Term], None),
    (Invariant, b"inv", &[Term, Term], None),
    (Instance, b"inst", &[Kind, Term], None),
    (Exact, b"exact", &[Kind, Term], None),
];

/// Of expressions of code.
pub(crate) static EXPR_FORMS: [Row<'static, ExprHead>; 25] = [
    (Unary(UnaryOp::Negate), b"neg", &[Expr], None),
    (Unary(UnaryOp::Invert), b"not", &[Expr], None),
    (Binary(Op::Add), b"add", &[Expr, Expr], None),
    (Binary(Op::Subtract), b"sub", &[Expr, Expr], None),
    (Binary(Op::Multiply), b"mul", &[Expr, Expr], None),
    (Binary(Op::Divide), b"div", &[Expr, Expr], None),
    (Binary(Op::Remainder), b"mod", &[Expr, Expr], None),
    (Binary(Op::Less), b"lt", &[Expr, Expr], None),
    (Binary(Op::LessOrEqual), b"le", &[Expr, Expr], None),
    (Binary(Op::Greater), b"gt", &[Expr, Expr], None),
    (Binary(Op::GreaterOrEqual), b"ge", &[Expr, Expr], None),
    (Binary(Op::Equal), b"eq", &[Expr, Expr], None),
    (Binary(Op::NotEqual), b"ne", &[Expr, Expr], None),
    (AndAlso, b"and", &[Expr, Expr], None),
    (OrElse, b"or", &[Expr, Expr], None),
    (Conditional, b"cond", &[Expr, Expr, Expr], None),
    (ReadField, b"get", &[Expr, Name], None),
    (ReadElement, b"aget", &[Expr, Expr], None),
    (LengthOf, b"len", &[Expr], None),
    (Cast, b"cast", &[Kind, Expr], None),
    (InstanceOf, b"inst", &[Kind, Expr], None),
    (VirtualCall, b"call", &[Name, Expr], Some(Expr)),
    (StaticCall, b"scall", &[Name], Some(Expr)),
    (ConstructorCall, b"ctor", &[Name, Expr], Some(Expr)),
    (DoThen, b"do", &[Code, Expr], None),
];

/// Of statements.
pub(crate) static STMT_FORMS: [Row<'static, StmtHead>; 20] = [
    (Set, b"set", &[Name, Expr], None),
    (WriteField, b"put", &[Expr, Name, Expr], None),
    (WriteElement, b"aput", &[Expr, Expr, Expr], None),
    (Evaluate, b"eval", &[Expr], None),
    (If, b"if", &[Expr, Code, Code], None),
    (While, b"while", &[Loop, Expr, Code], None),
    (Block, b"block", &[Label, Code], None),
    (Break, b"break", &[Label], None),
    (Catch, b"catch", &[Code, Name, Code], None),
    (Finally, b"finally", &[Code, Code], None),
    (Throw, b"throw", &[Expr], None),
    (ThrowUnchecked, b"throwx", &[Expr], None),
    (Return, b"return", &[Expr], None),
    (Return, b"return", &[], None),
    (Frame, b"frame", &[Place::Result, Code], None),
    (Raise, b"raise", &[Name], None),
    (Alloc, b"alloc", &[Name, Name], None),
    (Alloc, b"alloc", &[Name, Array], None),
    (NewArray, b"allocarr", &[Name, Expr], None),
    (Stop, b"stop", &[], None),
];

/// Statements one after the other.
pub(crate) static CODE_FORM: Form<'static> = Form {
    word: None,
    parts: &[],
    rest: Some(Stmt),
};

/// The pairs of an update.
pub(crate) static PAIRS_FORM: Form<'static> = Form {
    word: None,
    parts: &[Pair],
    rest: Some(Pair),
};

/// One of them.
pub(crate) static PAIR_FORM: Form<'static> = Form {
    word: None,
    parts: &[Name, Term],
    rest: None,
};

/// The array that an allocation makes.
pub(crate) static ARRAY_FORM: Form<'static> = Form {
    word: Some(b"arr"),
    parts: &[Expr],
    rest: None,
};

/// No place has more forms.
pub(crate) static MOST_FORMS: usize = 25;
