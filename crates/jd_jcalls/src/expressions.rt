//! The calls in expressions.

ghost use Rattle.jd_jcalls.specs.Called.{called_view};
ghost use Rattle.jd_jcalls.specs.Calls.{calls_in_expr, calls_in_exprs};
ghost use Rattle.jd_syntax.specs.JavaTrees.{java_view};
ghost use Rattle.std.specs.Prelude.{◌≡◌, ◌++◌, map, OnOk};

use crate::called::Called;
use jd_base::NoMemory;
use jd_syntax::{Expr, ExprForm};

// Adds the calls in an expression.
#[cycle(expr_calls)]
pub(crate) fn add_expr_calls<'a>(e: &'a Expr, out: &mut Vec<Called<'a>>) -> Result<(), NoMemory>
    ensures { OnOk result (map called_view out.new.items
        ≡ map called_view out.old.items ++ calls_in_expr (java_view e.now)) }
{
    match &e.form {
        ExprForm::Integer(_)
        | ExprForm::Boolean(_)
        | ExprForm::Null
        | ExprForm::This
        | ExprForm::Name(_) => Ok(()),
        ExprForm::Field(e, _)
        | ExprForm::Parenthesized(e)
        | ExprForm::NewArray(e)
        | ExprForm::Prefix(_, e)
        | ExprForm::Postfix(_, e)
        | ExprForm::Cast(_, e)
        | ExprForm::InstanceOf(e, _) => add_expr_calls(e, out),
        ExprForm::Index(a, b) | ExprForm::Infix(_, a, b) | ExprForm::Assign(_, a, b) => {
            add_expr_calls(a, out)?;
            add_expr_calls(b, out)
        }
        ExprForm::Conditional(condition, a, b) => {
            add_expr_calls(condition, out)?;
            add_expr_calls(a, out)?;
            add_expr_calls(b, out)
        }
        ExprForm::Call(method, arguments) => {
            out.push(Called::Method(method))?;
            add_exprs_calls(arguments, out)
        }
        ExprForm::MethodCall(object, method, arguments) => {
            add_expr_calls(object, out)?;
            out.push(Called::Method(&method.name))?;
            add_exprs_calls(arguments, out)
        }
        ExprForm::New(class, arguments) => {
            out.push(Called::New(&class.name))?;
            add_exprs_calls(arguments, out)
        }
    }
}

// Adds the calls in each of the expressions.
#[cycle(expr_calls)]
#[tactic(auto, using(jd_syntax::proofs::Lists::rest))]
pub(crate) fn add_exprs_calls<'a>(
    exprs: &'a [Expr],
    out: &mut Vec<Called<'a>>,
) -> Result<(), NoMemory>
    ensures { OnOk result (map called_view out.new.items
        ≡ map called_view out.old.items ++ calls_in_exprs (map java_view exprs.now)) }
{
    for e in exprs {
        add_expr_calls(e, out)?;
    }
    Ok(())
}
