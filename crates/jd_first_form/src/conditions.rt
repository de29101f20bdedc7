//! Conditions of clauses: comparisons, joined by `&&`.

ghost use Rattle.std.specs.Prelude.{◌≡◌, ◌&&◌, map, true};
ghost use Rattle.jd_first_form.specs.Conditions as plain;
ghost use Rattle.jd_first_form.specs.Conditions.{all_comparisons, are_few, comparisons_in, left_of};
ghost use Rattle.jd_syntax.specs.SpecTrees.{clause_view, spec_view};

use jd_syntax::{ClauseForm, InfixOperator, SpecClause, SpecExpr, SpecForm, SpecPrefix};

fn compares(o: InfixOperator) -> bool
    ensures { result ≡ plain.compares o }
{
    match o {
        InfixOperator::Equal
        | InfixOperator::NotEqual
        | InfixOperator::Less
        | InfixOperator::LessOrEqual
        | InfixOperator::Greater
        | InfixOperator::GreaterOrEqual => true,
        _ => false,
    }
}

fn is_integer(e: &SpecExpr) -> bool
    ensures { result ≡ plain.is_integer (spec_view e.now) }
{
    matches!(&e.form, SpecForm::Integer(_))
}

fn is_signed(o: SpecPrefix, e: &SpecExpr) -> bool
    ensures { result ≡ plain.is_signed o (spec_view e.now) }
{
    match o {
        SpecPrefix::Minus => is_integer(e),
        SpecPrefix::Plus => false,
        SpecPrefix::Not => false,
    }
}

// Whether an expression is a name, an integer or the result.
fn is_operand(e: &SpecExpr) -> bool
    ensures { result ≡ plain.is_operand (spec_view e.now) }
{
    match &e.form {
        SpecForm::Name(_) => true,
        SpecForm::Result => true,
        SpecForm::Integer(_) => true,
        SpecForm::Prefix(o, e) => is_signed(*o, e),
        SpecForm::Parenthesized(e) => is_operand(e),
        _ => false,
    }
}

fn one_less(limit: u32) -> Option<u32>
    ensures { result ≡ left_of limit (plain.one_if true) }
{
    if limit == 0 { None } else { Some(limit - 1) }
}

// What is left behind one comparison.
fn behind_one(o: InfixOperator, a: &SpecExpr, b: &SpecExpr, limit: u32) -> Option<u32>
    ensures { result ≡ left_of limit (plain.one_if (plain.compares o && (plain.is_operand (spec_view a.now) && plain.is_operand (spec_view b.now)))) }
{
    if compares(o) && (is_operand(a) && is_operand(b)) {
        one_less(limit)
    } else {
        None
    }
}

/// Of so many comparisons, what is left behind those of an expression; none where there are more, or where it is of another form.
fn behind(e: &SpecExpr, limit: u32) -> Option<u32>
    ensures { result ≡ left_of limit (plain.comparisons (spec_view e.now)) }
{
    match &e.form {
        SpecForm::Parenthesized(e) => behind(e, limit),
        SpecForm::Infix(o, a, b) => match o {
            InfixOperator::AndAlso => match behind(a, limit) {
                None => None,
                Some(left) => behind(b, left),
            },
            _ => behind_one(*o, a, b, limit),
        },
        _ => None,
    }
}

// The same of a clause.
fn behind_clause(c: &SpecClause, limit: u32) -> Option<u32>
    ensures { result ≡ left_of limit (comparisons_in (clause_view c.now)) }
{
    match &c.form {
        ClauseForm::Requires(e) => behind(e, limit),
        ClauseForm::Ensures(e) => behind(e, limit),
        _ => None,
    }
}

/// Whether all clauses of a case require or ensure comparisons, so many at most.
pub(crate) fn are_conditions(cs: &[SpecClause], limit: u32) -> bool
    ensures { result ≡ are_few limit (all_comparisons (map clause_view cs.now)) }
{
    let mut left = limit;
    for c in cs {
        match behind_clause(c, left) {
            None => return false,
            Some(less) => left = less,
        }
    }
    true
}
