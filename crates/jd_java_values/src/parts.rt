//! What a value is as a part of a node, taken out of its place; something else where it is none of the kind that the node has there.

ghost use Rattle.std.specs.Prelude.{◌≡◌, option_map};
ghost use Rattle.jd_syntax.specs.JavaTypes.{identifier_view, written_view};
ghost use Rattle.jd_syntax.specs.SpecTrees.{spec_block_view};
ghost use Rattle.jd_syntax.specs.JavaTrees.{Empty, class_view, declarator_view, java_stmt_view, java_view, member_view, parameter_view};
ghost use Rattle.jd_jcalls.specs.Handlers.{java_handler_view};
ghost use Rattle.jd_java_values.specs.Parts as plain;
ghost use Rattle.jd_java_values.specs.Views.{Gives, backwards, boxed_view, declared_view, suffix_view, value_view};

use crate::values::{Declared, Suffix, Value};
use jd_base::NoMemory;
use jd_lists::{boxed, discard};
use jd_syntax::{
    ClassDecl, Declarator, Expr, ExprForm, Handler, Identifier, JavaType, Member, Parameter,
    SpecBlock, Stmt, StmtForm, WrittenType,
};
use std::alloc::Global;
use std::mem;

/// The value, in whose place nothing is left.
pub fn taken(value: &mut Value) -> Value
    ensures { result ≡ value.old }
{
    mem::replace(value, Value::Nothing)
}

/// The expression that it is.
pub fn expression(value: Value) -> Expr
    ensures { java_view result ≡ plain.expression_of (value_view value) }
{
    match value {
        Value::Expression(e) => e,
        other => {
            discard(other);
            Expr {
                at: 0,
                form: ExprForm::Null,
            }
        }
    }
}

/// The expression, if it is one.
pub fn some_expression(value: Value) -> Option<Expr>
    ensures { option_map java_view result ≡ plain.some_expression (value_view value) }
{
    match value {
        Value::Expression(e) => Some(e),
        other => {
            discard(other);
            None
        }
    }
}

/// What stands behind an operand, the last part first.
pub fn suffixes(alloc: Global, value: Value) -> Vec<Suffix>
    ensures { backwards suffix_view result ≡ plain.suffixes_of (value_view value) }
{
    match value {
        Value::Suffixes(suffixes) => suffixes,
        other => {
            discard(other);
            Vec::new(alloc)
        }
    }
}

/// The expressions, the last first.
pub fn expressions(alloc: Global, value: Value) -> Vec<Expr>
    ensures { backwards java_view result ≡ plain.expressions_of (value_view value) }
{
    match value {
        Value::Expressions(es) => es,
        other => {
            discard(other);
            Vec::new(alloc)
        }
    }
}

/// The arguments of a call, the last first, if it is one.
pub fn arguments(value: Value) -> Option<Vec<Expr>>
    ensures { option_map (backwards java_view) result ≡ plain.arguments_of (value_view value) }
{
    match value {
        Value::Expressions(es) => Some(es),
        other => {
            discard(other);
            None
        }
    }
}

/// The name that it is.
pub fn name(alloc: Global, value: Value) -> Identifier
    ensures { identifier_view result ≡ plain.name_of (value_view value) }
{
    match value {
        Value::Named(name) => name,
        other => {
            discard(other);
            Identifier {
                at: 0,
                name: Vec::new(alloc),
            }
        }
    }
}

/// The name, if it is one.
pub fn some_name(value: Value) -> Option<Identifier>
    ensures { option_map identifier_view result ≡ plain.some_name (value_view value) }
{
    match value {
        Value::Named(name) => Some(name),
        other => {
            discard(other);
            None
        }
    }
}

/// The type that it is.
pub fn typed(value: Value) -> WrittenType
    ensures { written_view result ≡ plain.type_of (value_view value) }
{
    match value {
        Value::Typed(written) => written,
        other => {
            discard(other);
            WrittenType {
                at: 0,
                written: JavaType::Int,
            }
        }
    }
}

/// Whether it is `[]`.
pub fn is_dimension(value: Value) -> bool
    ensures { result ≡ plain.is_dimension (value_view value) }
{
    match value {
        Value::Dimension => true,
        other => {
            discard(other);
            false
        }
    }
}

// `;` where no statement stands.
fn no_statement(alloc: Global) -> Result<Box<Stmt>, NoMemory>
    ensures { Gives boxed_view result (Empty 0) }
{
    boxed(
        alloc,
        Stmt {
            at: 0,
            form: StmtForm::Empty,
        },
    )
}

/// The statement that it is.
pub fn statement(alloc: Global, value: Value) -> Result<Box<Stmt>, NoMemory>
    ensures { Gives boxed_view result (plain.statement_of (value_view value)) }
{
    match value {
        Value::Statement(statement) => Ok(statement),
        other => {
            discard(other);
            no_statement(alloc)
        }
    }
}

/// The statement, if it is one.
pub fn some_statement(value: Value) -> Option<Box<Stmt>>
    ensures { option_map boxed_view result ≡ plain.some_statement (value_view value) }
{
    match value {
        Value::Statement(statement) => Some(statement),
        other => {
            discard(other);
            None
        }
    }
}

/// The statements, the last first.
pub fn statements(alloc: Global, value: Value) -> Vec<Stmt>
    ensures { backwards java_stmt_view result ≡ plain.statements_of (value_view value) }
{
    match value {
        Value::Statements(statements) => statements,
        other => {
            discard(other);
            Vec::new(alloc)
        }
    }
}

/// The statements, the last first, if it is some.
pub fn some_statements(value: Value) -> Option<Vec<Stmt>>
    ensures { option_map (backwards java_stmt_view) result ≡ plain.some_statements (value_view value) }
{
    match value {
        Value::Statements(statements) => Some(statements),
        other => {
            discard(other);
            None
        }
    }
}

/// The variables, the last first.
pub fn variables(alloc: Global, value: Value) -> Vec<Declarator>
    ensures { backwards declarator_view result ≡ plain.variables_of (value_view value) }
{
    match value {
        Value::Variables(variables) => variables,
        other => {
            discard(other);
            Vec::new(alloc)
        }
    }
}

/// What is caught, the last first.
pub fn handlers(alloc: Global, value: Value) -> Vec<Handler>
    ensures { backwards java_handler_view result ≡ plain.handlers_of (value_view value) }
{
    match value {
        Value::Handlers(handlers) => handlers,
        other => {
            discard(other);
            Vec::new(alloc)
        }
    }
}

/// Whether `static` is among the modifiers, and the JML at them, the last first.
pub fn modifiers(alloc: Global, value: Value) -> (bool, Vec<SpecBlock>)
    ensures modifiers { result.0 ≡ plain.static_of (value_view value) }
    ensures blocks { backwards spec_block_view result.1 ≡ plain.blocks_of (value_view value) }
{
    match value {
        Value::Modifiers(is_static, blocks) => (is_static, blocks),
        other => {
            discard(other);
            (false, Vec::new(alloc))
        }
    }
}

/// The literal that it is.
pub fn number(value: Value) -> u32
    ensures { result ≡ plain.number_of (value_view value) }
{
    match value {
        Value::Number(number) => number,
        other => {
            discard(other);
            0
        }
    }
}

/// The names, the last first.
pub fn names(alloc: Global, value: Value) -> Vec<Identifier>
    ensures { backwards identifier_view result ≡ plain.names_of (value_view value) }
{
    match value {
        Value::Names(names) => names,
        other => {
            discard(other);
            Vec::new(alloc)
        }
    }
}

/// The parameters, the last first.
pub fn parameters(alloc: Global, value: Value) -> Vec<Parameter>
    ensures { backwards parameter_view result ≡ plain.parameters_of (value_view value) }
{
    match value {
        Value::Parameters(parameters) => parameters,
        other => {
            discard(other);
            Vec::new(alloc)
        }
    }
}

/// What stands behind a member's name.
pub fn declared(alloc: Global, value: Value) -> Declared
    ensures { declared_view result ≡ plain.declared_of (value_view value) }
{
    match value {
        Value::Declared(declared) => declared,
        other => {
            discard(other);
            Declared::FieldNames(Vec::new(alloc))
        }
    }
}

/// The members, the last first, and the JML behind them.
pub fn body(alloc: Global, value: Value) -> (Vec<Member>, Option<SpecBlock>)
    ensures members { backwards member_view result.0 ≡ plain.members_of (value_view value) }
    ensures end { option_map spec_block_view result.1 ≡ plain.end_of (value_view value) }
{
    match value {
        Value::Body(members, end) => (members, end),
        other => {
            discard(other);
            (Vec::new(alloc), None)
        }
    }
}

/// The classes, the last first.
pub fn classes(alloc: Global, value: Value) -> Vec<ClassDecl>
    ensures { backwards class_view result ≡ plain.classes_of (value_view value) }
{
    match value {
        Value::Classes(classes) => classes,
        other => {
            discard(other);
            Vec::new(alloc)
        }
    }
}
