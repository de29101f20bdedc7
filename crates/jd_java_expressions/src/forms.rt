//! Expressions of each form, from their parts.

ghost use Rattle.std.specs.Prelude.{◌≡◌, IfOk, Ok};
ghost use Rattle.jd_syntax.specs.JavaTypes.{identifier_view, written_view};
ghost use Rattle.jd_syntax.specs.JavaTrees as java;
ghost use Rattle.jd_syntax.specs.JavaTrees.{java_exprs, java_view};
ghost use Rattle.jd_java_values.specs.Views.{Gives, in_order};
ghost use Rattle.jd_java_expressions.specs.Applying.{at_of};

use jd_base::{NoMemory, both};
use jd_syntax::{
    AssignmentOperator, CountOperator, Expr, ExprForm, Identifier, InfixOperator, PrefixOperator,
    WrittenType,
};
use std::alloc::Global;

// The expression in a box.
fn boxed(alloc: Global, e: Expr) -> Result<Box<Expr>, NoMemory>
    ensures { IfOk result (λ b. b.value ≡ e) }
{
    Ok(Box::new(alloc, e)?)
}

// The place of its first token.
fn place(e: &Expr) -> u32
    ensures { result ≡ at_of (java_view e.now) }
{
    e.at
}

/// `a + b`
pub fn infix(alloc: Global, op: InfixOperator, a: Expr, b: Expr) -> Result<Expr, NoMemory>
    ensures { Gives java_view result (java.Infix (at_of (java_view a)) op (java_view a) (java_view b)) }
{
    let at = place(&a);
    let (a, b) = both(boxed(alloc, a), boxed(alloc, b))?;
    let form = ExprForm::Infix(op, a, b);
    Ok(Expr { at, form })
}

/// `e instanceof T`
pub fn instance_of(alloc: Global, e: Expr, written: WrittenType) -> Result<Expr, NoMemory>
    ensures { Gives java_view result (java.InstanceOf (at_of (java_view e)) (java_view e) (written_view written)) }
{
    let at = place(&e);
    let (e, written) = both(boxed(alloc, e), Ok(written))?;
    let form = ExprForm::InstanceOf(e, written);
    Ok(Expr { at, form })
}

/// `a = b`
pub fn assign(alloc: Global, op: AssignmentOperator, a: Expr, b: Expr) -> Result<Expr, NoMemory>
    ensures { Gives java_view result (java.Assign (at_of (java_view a)) op (java_view a) (java_view b)) }
{
    let at = place(&a);
    let (a, b) = both(boxed(alloc, a), boxed(alloc, b))?;
    let form = ExprForm::Assign(op, a, b);
    Ok(Expr { at, form })
}

/// `c ? a : b`
pub fn conditional(alloc: Global, c: Expr, a: Expr, b: Expr) -> Result<Expr, NoMemory>
    ensures { Gives java_view result (java.Conditional (at_of (java_view c)) (java_view c) (java_view a) (java_view b)) }
{
    let at = place(&c);
    let (c, (a, b)) = both(boxed(alloc, c), both(boxed(alloc, a), boxed(alloc, b)))?;
    let form = ExprForm::Conditional(c, a, b);
    Ok(Expr { at, form })
}

/// `e.x`
pub fn field(alloc: Global, e: Expr, name: Identifier) -> Result<Expr, NoMemory>
    ensures { Gives java_view result (java.Field (at_of (java_view e)) (java_view e) (identifier_view name)) }
{
    let at = place(&e);
    let (e, name) = both(boxed(alloc, e), Ok(name))?;
    let form = ExprForm::Field(e, name);
    Ok(Expr { at, form })
}

/// `e.m(e, ..)`
pub fn method_call(
    alloc: Global,
    e: Expr,
    name: Identifier,
    arguments: Vec<Expr>,
) -> Result<Expr, NoMemory>
    ensures { Gives java_view result (java.MethodCall (at_of (java_view e)) (java_view e) (identifier_view name) (java_exprs (in_order java_view arguments))) }
{
    let at = place(&e);
    let (e, (name, arguments)) = both(boxed(alloc, e), Ok((name, arguments)))?;
    let form = ExprForm::MethodCall(e, name, arguments);
    Ok(Expr { at, form })
}

/// `a[i]`
pub fn index(alloc: Global, a: Expr, i: Expr) -> Result<Expr, NoMemory>
    ensures { Gives java_view result (java.Index (at_of (java_view a)) (java_view a) (java_view i)) }
{
    let at = place(&a);
    let (a, i) = both(boxed(alloc, a), boxed(alloc, i))?;
    let form = ExprForm::Index(a, i);
    Ok(Expr { at, form })
}

/// `e++`
pub fn postfix(alloc: Global, op: CountOperator, e: Expr) -> Result<Expr, NoMemory>
    ensures { Gives java_view result (java.Postfix (at_of (java_view e)) op (java_view e)) }
{
    let at = place(&e);
    let e = boxed(alloc, e)?;
    let form = ExprForm::Postfix(op, e);
    Ok(Expr { at, form })
}

/// `-e`
pub fn prefix(alloc: Global, at: u32, op: PrefixOperator, e: Expr) -> Result<Expr, NoMemory>
    ensures { Gives java_view result (java.Prefix at op (java_view e)) }
{
    let e = boxed(alloc, e)?;
    let form = ExprForm::Prefix(op, e);
    Ok(Expr { at, form })
}

/// `(e)`
pub fn parenthesized(alloc: Global, at: u32, e: Expr) -> Result<Expr, NoMemory>
    ensures { Gives java_view result (java.Parenthesized at (java_view e)) }
{
    let e = boxed(alloc, e)?;
    let form = ExprForm::Parenthesized(e);
    Ok(Expr { at, form })
}

/// `(T) e`
pub fn cast(alloc: Global, at: u32, written: WrittenType, e: Expr) -> Result<Expr, NoMemory>
    ensures { Gives java_view result (java.Cast at (written_view written) (java_view e)) }
{
    let (e, written) = both(boxed(alloc, e), Ok(written))?;
    let form = ExprForm::Cast(written, e);
    Ok(Expr { at, form })
}

/// `new C(e, ..)`
pub fn new_object(at: u32, class: Identifier, arguments: Vec<Expr>) -> Expr
    ensures { java_view result ≡ java.New at (identifier_view class) (java_exprs (in_order java_view arguments)) }
{
    let form = ExprForm::New(class, arguments);
    Expr { at, form }
}

/// `new int[e]`
pub fn new_array(alloc: Global, at: u32, e: Expr) -> Result<Expr, NoMemory>
    ensures { Gives java_view result (java.NewArray at (java_view e)) }
{
    let e = boxed(alloc, e)?;
    let form = ExprForm::NewArray(e);
    Ok(Expr { at, form })
}
