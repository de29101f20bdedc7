//! Which variables an expression names.

ghost use Rattle.std.specs.Prelude.{◌≡◌, map};
ghost use Rattle.jd_bodies.specs.Jumps as plain;
ghost use Rattle.jd_syntax.specs.JavaTrees.{java_exprs, java_view};

use jd_syntax::{Expr, ExprForm};

/// Whether a variable is called by the name in an expression.
#[cycle(names)]
pub(crate) fn names(x: &[u8], e: &Expr) -> bool
    ensures { result ≡ plain.names x.now (java_view e.now) }
{
    match &e.form {
        ExprForm::Integer(_) | ExprForm::Boolean(_) | ExprForm::Null | ExprForm::This => false,
        ExprForm::Name(y) => y.as_slice() == x,
        ExprForm::Field(o, _)
        | ExprForm::Parenthesized(o)
        | ExprForm::NewArray(o)
        | ExprForm::Prefix(_, o)
        | ExprForm::Postfix(_, o)
        | ExprForm::Cast(_, o)
        | ExprForm::InstanceOf(o, _) => names(x, o),
        ExprForm::Call(_, es) | ExprForm::New(_, es) => names_in(x, es),
        ExprForm::MethodCall(o, _, es) => names(x, o) || names_in(x, es),
        ExprForm::Index(a, b) | ExprForm::Infix(_, a, b) | ExprForm::Assign(_, a, b) => {
            names(x, a) || names(x, b)
        }
        ExprForm::Conditional(c, a, b) => names(x, c) || names(x, a) || names(x, b),
    }
}

// Whether one is in some of these.
#[cycle(names)]
fn names_in(x: &[u8], es: &[Expr]) -> bool
    ensures { result ≡ plain.names_in x.now (java_exprs (map java_view es.now)) }
{
    for e in es {
        if names(x, e) {
            return true;
        }
    }
    false
}
