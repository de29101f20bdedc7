//! Makers of expressions of JML: each takes the results of its parts and gives the result of the whole, so that calls nest without a `?`.

ghost use Rattle.std.specs.Prelude.{List, ℕ};
ghost use Rattle.jd_jml_copies.specs.Made.{GivesBound, GivesBoxed, GivesBytes, GivesIdentifier, GivesSpec, GivesSpecs, GivesWritten};
ghost use Rattle.jd_syntax.specs.JavaTypes.{PlainIdentifier, PlainWritten};
ghost use Rattle.jd_syntax.specs.SpecTrees.{Call, Cast, Conditional, Equivalent, Field, Fresh, Implies, Index, Infix, InstanceOf, InvariantFor, MethodCall, Old, Parenthesized, PlainSpec, PlainSpecType, Prefix, Quantified, QuantifiedIn, Sum, specs_of};

use jd_base::{NoMemory, both};
use jd_syntax::{
    Identifier, InfixOperator, Quantifier, SpecExpr, SpecForm, SpecPrefix, SpecType, WrittenType,
};
use std::alloc::Global;

/// The expression in a box.
#[inline(never)]
fn boxed(alloc: Global, e: Result<SpecExpr, NoMemory>) -> Result<Box<SpecExpr>, NoMemory>
    ensures { (x : PlainSpec) → GivesSpec e x → GivesBoxed result x }
{
    Ok(Box::new(alloc, e?)?)
}

/// `(e)`
pub(crate) fn parenthesized(
    alloc: Global,
    at: u32,
    e: Result<SpecExpr, NoMemory>,
) -> Result<SpecExpr, NoMemory>
    ensures { (x : PlainSpec) → GivesSpec e x → GivesSpec result (Parenthesized at x) }
{
    let e = boxed(alloc, e)?;
    Ok(SpecExpr {
        at,
        form: SpecForm::Parenthesized(e),
    })
}

/// `\old(e)`
pub(crate) fn old(
    alloc: Global,
    at: u32,
    e: Result<SpecExpr, NoMemory>,
) -> Result<SpecExpr, NoMemory>
    ensures { (x : PlainSpec) → GivesSpec e x → GivesSpec result (Old at x) }
{
    let e = boxed(alloc, e)?;
    Ok(SpecExpr {
        at,
        form: SpecForm::Old(e),
    })
}

/// `\fresh(e)`
pub(crate) fn fresh(
    alloc: Global,
    at: u32,
    e: Result<SpecExpr, NoMemory>,
) -> Result<SpecExpr, NoMemory>
    ensures { (x : PlainSpec) → GivesSpec e x → GivesSpec result (Fresh at x) }
{
    let e = boxed(alloc, e)?;
    Ok(SpecExpr {
        at,
        form: SpecForm::Fresh(e),
    })
}

/// `\invariant_for(e)`
pub(crate) fn invariant_for(
    alloc: Global,
    at: u32,
    e: Result<SpecExpr, NoMemory>,
) -> Result<SpecExpr, NoMemory>
    ensures { (x : PlainSpec) → GivesSpec e x → GivesSpec result (InvariantFor at x) }
{
    let e = boxed(alloc, e)?;
    Ok(SpecExpr {
        at,
        form: SpecForm::InvariantFor(e),
    })
}

/// `a[i]`
pub(crate) fn index(
    alloc: Global,
    at: u32,
    a: Result<SpecExpr, NoMemory>,
    b: Result<SpecExpr, NoMemory>,
) -> Result<SpecExpr, NoMemory>
    ensures { (x y : PlainSpec) → GivesSpec a x → GivesSpec b y → GivesSpec result (Index at x y) }
{
    let (a, b) = both(boxed(alloc, a), boxed(alloc, b))?;
    Ok(SpecExpr {
        at,
        form: SpecForm::Index(a, b),
    })
}

/// `a ==> b`
pub(crate) fn implies(
    alloc: Global,
    at: u32,
    a: Result<SpecExpr, NoMemory>,
    b: Result<SpecExpr, NoMemory>,
) -> Result<SpecExpr, NoMemory>
    ensures { (x y : PlainSpec) → GivesSpec a x → GivesSpec b y → GivesSpec result (Implies at x y) }
{
    let (a, b) = both(boxed(alloc, a), boxed(alloc, b))?;
    Ok(SpecExpr {
        at,
        form: SpecForm::Implies(a, b),
    })
}

/// `a <==> b`
pub(crate) fn equivalent(
    alloc: Global,
    at: u32,
    a: Result<SpecExpr, NoMemory>,
    b: Result<SpecExpr, NoMemory>,
) -> Result<SpecExpr, NoMemory>
    ensures { (x y : PlainSpec) → GivesSpec a x → GivesSpec b y → GivesSpec result (Equivalent at x y) }
{
    let (a, b) = both(boxed(alloc, a), boxed(alloc, b))?;
    Ok(SpecExpr {
        at,
        form: SpecForm::Equivalent(a, b),
    })
}

/// A sign before an operand.
pub(crate) fn prefix(
    alloc: Global,
    at: u32,
    sign: SpecPrefix,
    e: Result<SpecExpr, NoMemory>,
) -> Result<SpecExpr, NoMemory>
    ensures { (x : PlainSpec) → GivesSpec e x → GivesSpec result (Prefix at sign x) }
{
    let e = boxed(alloc, e)?;
    Ok(SpecExpr {
        at,
        form: SpecForm::Prefix(sign, e),
    })
}

/// An operator between two operands.
pub(crate) fn infix(
    alloc: Global,
    at: u32,
    operator: InfixOperator,
    a: Result<SpecExpr, NoMemory>,
    b: Result<SpecExpr, NoMemory>,
) -> Result<SpecExpr, NoMemory>
    ensures { (x y : PlainSpec) → GivesSpec a x → GivesSpec b y → GivesSpec result (Infix at operator x y) }
{
    let (a, b) = both(boxed(alloc, a), boxed(alloc, b))?;
    Ok(SpecExpr {
        at,
        form: SpecForm::Infix(operator, a, b),
    })
}

/// `e.x`
pub(crate) fn field(
    alloc: Global,
    at: u32,
    e: Result<SpecExpr, NoMemory>,
    x: Result<Identifier, NoMemory>,
) -> Result<SpecExpr, NoMemory>
    ensures { (p : PlainSpec) (y : PlainIdentifier) → GivesSpec e p → GivesIdentifier x y → GivesSpec result (Field at p y) }
{
    let (e, x) = both(boxed(alloc, e), x)?;
    Ok(SpecExpr {
        at,
        form: SpecForm::Field(e, x),
    })
}

/// `(T) e`
pub(crate) fn cast(
    alloc: Global,
    at: u32,
    t: Result<WrittenType, NoMemory>,
    e: Result<SpecExpr, NoMemory>,
) -> Result<SpecExpr, NoMemory>
    ensures { (w : PlainWritten) (p : PlainSpec) → GivesWritten t w → GivesSpec e p → GivesSpec result (Cast at w p) }
{
    let (t, e) = both(t, boxed(alloc, e))?;
    Ok(SpecExpr {
        at,
        form: SpecForm::Cast(t, e),
    })
}

/// `e instanceof T`
pub(crate) fn instance_of(
    alloc: Global,
    at: u32,
    e: Result<SpecExpr, NoMemory>,
    t: Result<WrittenType, NoMemory>,
) -> Result<SpecExpr, NoMemory>
    ensures { (p : PlainSpec) (w : PlainWritten) → GivesSpec e p → GivesWritten t w → GivesSpec result (InstanceOf at p w) }
{
    let (e, t) = both(boxed(alloc, e), t)?;
    Ok(SpecExpr {
        at,
        form: SpecForm::InstanceOf(e, t),
    })
}

/// `c ? a : b`
pub(crate) fn conditional(
    alloc: Global,
    at: u32,
    c: Result<SpecExpr, NoMemory>,
    a: Result<SpecExpr, NoMemory>,
    b: Result<SpecExpr, NoMemory>,
) -> Result<SpecExpr, NoMemory>
    ensures { (x y z : PlainSpec) → GivesSpec c x → GivesSpec a y → GivesSpec b z → GivesSpec result (Conditional at x y z) }
{
    let (c, (a, b)) = both(boxed(alloc, c), both(boxed(alloc, a), boxed(alloc, b)))?;
    Ok(SpecExpr {
        at,
        form: SpecForm::Conditional(c, a, b),
    })
}

/// `m(e, ..)`
pub(crate) fn call(
    at: u32,
    m: Result<Vec<u8>, NoMemory>,
    es: Result<Vec<SpecExpr>, NoMemory>,
) -> Result<SpecExpr, NoMemory>
    ensures { (n : List ℕ) (ps : List PlainSpec) → GivesBytes m n → GivesSpecs es ps → GivesSpec result (Call at n (specs_of ps)) }
{
    let (m, es) = both(m, es)?;
    Ok(SpecExpr {
        at,
        form: SpecForm::Call(m, es),
    })
}

/// `e.m(e, ..)`
pub(crate) fn method_call(
    alloc: Global,
    at: u32,
    e: Result<SpecExpr, NoMemory>,
    m: Result<Identifier, NoMemory>,
    es: Result<Vec<SpecExpr>, NoMemory>,
) -> Result<SpecExpr, NoMemory>
    ensures { (p : PlainSpec) (y : PlainIdentifier) (ps : List PlainSpec) → GivesSpec e p → GivesIdentifier m y → GivesSpecs es ps → GivesSpec result (MethodCall at p y (specs_of ps)) }
{
    let (e, (m, es)) = both(boxed(alloc, e), both(m, es))?;
    Ok(SpecExpr {
        at,
        form: SpecForm::MethodCall(e, m, es),
    })
}

/// `(\forall T x; e)`
pub(crate) fn quantified(
    alloc: Global,
    at: u32,
    q: Quantifier,
    bound: Result<(SpecType, Identifier), NoMemory>,
    e: Result<SpecExpr, NoMemory>,
) -> Result<SpecExpr, NoMemory>
    ensures { (t : PlainSpecType) (x : PlainIdentifier) (p : PlainSpec) → GivesBound bound t x → GivesSpec e p → GivesSpec result (Quantified at q t x p) }
{
    let ((t, x), e) = both(bound, boxed(alloc, e))?;
    Ok(SpecExpr {
        at,
        form: SpecForm::Quantified(q, t, x, e),
    })
}

/// `(\forall T x; r; e)`
pub(crate) fn quantified_in(
    alloc: Global,
    at: u32,
    q: Quantifier,
    bound: Result<(SpecType, Identifier), NoMemory>,
    r: Result<SpecExpr, NoMemory>,
    e: Result<SpecExpr, NoMemory>,
) -> Result<SpecExpr, NoMemory>
    ensures { (t : PlainSpecType) (x : PlainIdentifier) (o p : PlainSpec) → GivesBound bound t x → GivesSpec r o → GivesSpec e p → GivesSpec result (QuantifiedIn at q t x o p) }
{
    let ((t, x), (r, e)) = both(bound, both(boxed(alloc, r), boxed(alloc, e)))?;
    Ok(SpecExpr {
        at,
        form: SpecForm::QuantifiedIn(q, t, x, r, e),
    })
}

/// `(\sum int x; a <= x && x < b; e)`
pub(crate) fn sum(
    alloc: Global,
    at: u32,
    x: Result<Identifier, NoMemory>,
    a: Result<SpecExpr, NoMemory>,
    b: Result<SpecExpr, NoMemory>,
    e: Result<SpecExpr, NoMemory>,
) -> Result<SpecExpr, NoMemory>
    ensures { (y : PlainIdentifier) (o p q : PlainSpec) → GivesIdentifier x y → GivesSpec a o → GivesSpec b p → GivesSpec e q → GivesSpec result (Sum at y o p q) }
{
    let ((x, a), (b, e)) = both(
        both(x, boxed(alloc, a)),
        both(boxed(alloc, b), boxed(alloc, e)),
    )?;
    Ok(SpecExpr {
        at,
        form: SpecForm::Sum(x, a, b, e),
    })
}
