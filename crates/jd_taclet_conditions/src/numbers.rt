//! Numbers that are computed of those that variables stand for. Each step has to fit 128 bits.

ghost use Rattle.std.specs.Prelude.{◌≡◌, Some, neg_ℤ, option_map};
ghost use Rattle.std.specs.Option.{option_and_then};
ghost use Rattle.jd_model.specs.Runs.{wrap32};
ghost use Rattle.jd_model.specs.TermValues.{arithmetic};
ghost use Rattle.jd_patterns.specs.Bindings.{TheLiteral};
ghost use Rattle.jd_schema_instances.specs.Choosing.{instance_by};
ghost use Rattle.jd_schema_trees.specs.TacletViews.{calculation, number_test};
ghost use Rattle.jd_taclet_matching.specs.OwnedParts.{owned_part};
ghost use Rattle.jd_taclet_stages.specs.Conditions.{calculate, if_fits};
ghost use Rattle.jd_taclets.specs.Conditions.{passes};
ghost use Rattle.jd_term.specs.declared.term.ArithmeticOp.TheVariants.{Divide, Remainder};

use crate::lent::literal_bound;
use jd_base::{jdiv, jmod, wrap32};
use jd_schema_instances::Chosen;
use jd_schema_trees::{Calculation, NumberTest};
use jd_taclet_matching::OwnedPart;
use jd_term::ArithmeticOp;

// The quotient, where it fits.
fn divided(x: i128, y: i128) -> Option<i128>
    ensures { result ≡ if_fits (arithmetic Divide x y) }
{
    if x == i128::MIN && y == -1 {
        return None;
    }
    Some(jdiv(x, y))
}

// The remainder, which fits.
fn left_over(x: i128, y: i128) -> Option<i128>
    ensures { result ≡ if_fits (arithmetic Remainder x y) }
{
    if y == -1 {
        return Some(0);
    }
    Some(jmod(x, y))
}

// The operation's number, where it fits.
fn operated(op: ArithmeticOp, x: i128, y: i128) -> Option<i128>
    ensures { result ≡ if_fits (arithmetic op x y) }
{
    match op {
        ArithmeticOp::Add => x.checked_add(y),
        ArithmeticOp::Subtract => x.checked_sub(y),
        ArithmeticOp::Multiply => x.checked_mul(y),
        ArithmeticOp::Divide => divided(x, y),
        ArithmeticOp::Remainder => left_over(x, y),
    }
}

// The same of numbers that may not be there.
fn both_operated(op: ArithmeticOp, x: Option<i128>, y: Option<i128>) -> Option<i128>
    ensures { result ≡ option_and_then (λ x. option_and_then (λ y. if_fits (arithmetic op x y)) y) x }
{
    match x {
        Some(x) => match y {
            Some(y) => operated(op, x, y),
            None => None,
        },
        None => None,
    }
}

fn negated(x: Option<i128>) -> Option<i128>
    ensures { result ≡ option_and_then (λ x. if_fits (neg_ℤ x)) x }
{
    match x {
        Some(x) => x.checked_neg(),
        None => None,
    }
}

fn wrapped(x: Option<i128>) -> Option<i128>
    ensures { result ≡ option_and_then (λ x. Some (wrap32 x)) x }
{
    match x {
        Some(x) => Some(i128::from(wrap32(x))),
        None => None,
    }
}

/// The number, where each step of its calculation fits.
pub(crate) fn calculate(c: &Calculation, by: &Chosen<'_, '_>) -> Option<i128>
    ensures { result ≡ calculate (instance_by by.now) (calculation c.now) }
{
    match c {
        Calculation::Variable(n) => Some(literal_bound(by, n)),
        Calculation::Number(z) => Some(*z),
        Calculation::Arithmetic(op, a, b) => both_operated(*op, calculate(a, by), calculate(b, by)),
        Calculation::Negation(a) => negated(calculate(a, by)),
        Calculation::Wrap(a) => wrapped(calculate(a, by)),
    }
}

/// Whether the numbers pass the test.
pub(crate) fn passes(test: NumberTest, x: i128, y: i128) -> bool
    ensures { result ≡ passes (number_test test) x y }
{
    match test {
        NumberTest::Less => x < y,
        NumberTest::LessOrEqual => x <= y,
        NumberTest::Equal => x <= y && y <= x,
    }
}

/// The number as a part.
pub(crate) fn literal_part(x: Option<i128>) -> Option<OwnedPart>
    ensures { option_map owned_part result ≡ option_and_then (λ z. option_map TheLiteral (if_fits z)) x }
{
    match x {
        Some(x) => Some(OwnedPart::Literal(x)),
        None => None,
    }
}
