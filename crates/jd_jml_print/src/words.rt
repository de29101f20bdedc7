//! Words and signs.

ghost use Rattle.std.specs.Prelude.{◌≡◌};
ghost use Rattle.jd_syntax.specs.JavaTypes.{type_view};
ghost use Rattle.jd_syntax.specs.SpecTrees.{spec_type_view};
ghost use Rattle.jd_jml_print.specs.Texts as texts;
ghost use Rattle.jd_jml_print.specs.Writing as plain;

use jd_syntax::{InfixOperator, JavaType, Quantifier, SpecPrefix, SpecType};

pub(crate) fn truth_text(truth: bool) -> &'static [u8]
    ensures { result.now ≡ texts.truth_text truth }
{
    if truth { b"true" } else { b"false" }
}

pub(crate) fn infix_text(operator: InfixOperator) -> &'static [u8]
    ensures { result.now ≡ texts.infix_text operator }
{
    match operator {
        InfixOperator::OrElse => b"||",
        InfixOperator::AndAlso => b"&&",
        InfixOperator::Equal => b"==",
        InfixOperator::NotEqual => b"!=",
        InfixOperator::Less => b"<",
        InfixOperator::LessOrEqual => b"<=",
        InfixOperator::Greater => b">",
        InfixOperator::GreaterOrEqual => b">=",
        InfixOperator::Add => b"+",
        InfixOperator::Subtract => b"-",
        InfixOperator::Multiply => b"*",
        InfixOperator::Divide => b"/",
        InfixOperator::Remainder => b"%",
    }
}

pub(crate) fn prefix_text(operator: SpecPrefix) -> &'static [u8]
    ensures { result.now ≡ texts.prefix_text operator }
{
    match operator {
        SpecPrefix::Plus => b"+",
        SpecPrefix::Minus => b"-",
        SpecPrefix::Not => b"!",
    }
}

pub(crate) fn quantifier_text(quantifier: Quantifier) -> &'static [u8]
    ensures { result.now ≡ texts.quantifier_text quantifier }
{
    match quantifier {
        Quantifier::ForAll => b"\\forall",
        Quantifier::Exists => b"\\exists",
    }
}

pub(crate) fn type_text(written: &JavaType) -> &[u8]
    ensures { result.now ≡ plain.type_text (type_view written.now) }
{
    match written {
        JavaType::Int => b"int",
        JavaType::Boolean => b"boolean",
        JavaType::IntArray => b"int [ ]",
        JavaType::Named(name) => name,
    }
}

pub(crate) fn spec_type_text(written: &SpecType) -> &[u8]
    ensures { result.now ≡ plain.spec_type_text (spec_type_view written.now) }
{
    match written {
        SpecType::BigInt => b"\\bigint",
        SpecType::Java(written) => type_text(&written.written),
    }
}
