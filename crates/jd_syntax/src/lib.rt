//! The trees of Java and JML, resolved Java code, and bracketed expressions.
#![tactic(auto)]

mod assigned;
mod code;
mod copy;
mod equal;
mod java;
mod mentions;
mod size;
mod spec;
mod sx;
mod variable;

pub use assigned::assigned_vars;
pub use code::{BinaryOp, Code, CodeExpr, CodeStmt, Kind, UnaryOp};
pub use java::{
    AssignmentOperator, ClassDecl, ConstantDecl, CountOperator, Declarator, Expr, ExprForm,
    FieldDecl, ForStart, Handler, Identifier, InfixOperator, JavaType, Member, MethodDecl,
    Parameter, PrefixOperator, ResultType, Stmt, StmtForm, Unit, WrittenType,
};
pub use spec::{
    ClauseForm, LocExpr, LocForm, Marks, Quantifier, SpecBlock, SpecCase, SpecClause, SpecExpr,
    SpecForm, SpecPlace, SpecPrefix, SpecType,
};
pub use sx::Sx;
pub use variable::{VarDecl, VarId};
