//! What the nodes of each production of the grammar of JML stand for, in the order of the productions.

ghost use Rattle.std.specs.Prelude.{◌≡◌, slice_index_or};
ghost use Rattle.jd_jml_trees.specs.Meaning.{action_of};
ghost use Rattle.jd_jml_trees.specs.declared.actions.TheConstants.{NOTHING as MISSING};

use jd_jml_clauses::{Action as clause, Assertion, Word};
use jd_jml_expressions::Action as expression;
use jd_syntax::{InfixOperator, Quantifier, SpecPrefix};

/// What a node stands for, by the values of its parts.
#[derive(Clone, Copy)]
pub enum Action {
    /// Of an expression, or of what all have.
    Expression(expression),
    /// Of clauses or locations.
    Clause(clause),
}

pub(crate) const ACTIONS: [Action; 187] = [
    // Clauses and words at their places (JML Reference Manual, 6.2, 8, 9, 13.2)
    // Before a method: invariants, then one contract at most, with words before or behind it
    Action::Clause(clause::AllClauses),
    Action::Clause(clause::AllClauses),
    Action::Clause(clause::AllClauses),
    Action::Clause(clause::AllClauses),
    Action::Clause(clause::AllClauses),
    Action::Clause(clause::AllClauses),
    Action::Clause(clause::AllClauses),
    Action::Clause(clause::AllClauses),
    Action::Clause(clause::AllClauses),
    Action::Clause(clause::AllClauses),
    Action::Clause(clause::AllClauses),
    // Before a field
    Action::Clause(clause::AllClauses),
    Action::Clause(clause::AllClauses),
    Action::Clause(clause::AllClauses),
    // At modifiers
    Action::Clause(clause::AllClauses),
    // Before a loop
    Action::Clause(clause::AllClauses),
    Action::Clause(clause::AllClauses),
    // Before the brace that closes a class
    Action::Clause(clause::AllClauses),
    Action::Clause(clause::AllClauses),
    Action::Clause(clause::AllClauses),
    // 6.2, words
    Action::Clause(clause::AllClauses),
    Action::Clause(clause::AllClauses),
    Action::Clause(clause::Word(Word::Pure)),
    Action::Clause(clause::Word(Word::Helper)),
    Action::Clause(clause::Word(Word::Nullable)),
    Action::Clause(clause::Word(Word::NonNull)),
    Action::Clause(clause::Word(Word::SpecPublic)),
    Action::Clause(clause::Word(Word::SpecProtected)),
    // 9.2 to 9.6, contracts and their cases
    Action::Clause(clause::AllClauses),
    Action::Clause(clause::AllClauses),
    Action::Clause(clause::AllClauses),
    Action::Clause(clause::AllClauses),
    Action::Clause(clause::AllClauses),
    Action::Clause(clause::AllClauses),
    Action::Clause(clause::Word(Word::NormalBehavior)),
    Action::Clause(clause::Word(Word::ExceptionalBehavior)),
    Action::Clause(clause::Word(Word::Behavior)),
    Action::Clause(clause::Word(Word::Also)),
    Action::Clause(clause::AllClauses),
    Action::Clause(clause::AllClauses),
    Action::Clause(clause::AllClauses),
    // 9.9, clauses of a case
    Action::Clause(clause::Asserts(Assertion::Requires)),
    Action::Clause(clause::Asserts(Assertion::Ensures)),
    Action::Clause(clause::Signals),
    Action::Clause(clause::SignalsOnly),
    Action::Clause(clause::Assignable),
    Action::Clause(clause::Asserts(Assertion::MeasuredBy)),
    Action::Clause(clause::Diverges),
    Action::Expression(expression::First),
    Action::Expression(expression::Nothing),
    Action::Clause(clause::NoNames),
    Action::Clause(clause::Names),
    Action::Clause(clause::Names),
    Action::Clause(clause::NoNames),
    Action::Expression(expression::Boolean(true)),
    Action::Expression(expression::Boolean(false)),
    // 13.2, clauses of a loop
    Action::Clause(clause::Asserts(Assertion::LoopInvariant)),
    Action::Clause(clause::Asserts(Assertion::Decreases)),
    Action::Clause(clause::Assignable),
    // 8.2, invariants of a class
    Action::Clause(clause::Asserts(Assertion::Invariant)),
    // Sets of locations (JML Reference Manual, 12.7)
    Action::Clause(clause::NothingAssigned),
    Action::Clause(clause::EverythingAssigned),
    Action::Clause(clause::Locations),
    Action::Clause(clause::Locations),
    Action::Clause(clause::Locations),
    Action::Clause(clause::NamedLocation),
    Action::Clause(clause::OperandLocation),
    Action::Clause(clause::BegunLocation),
    Action::Expression(expression::First),
    Action::Expression(expression::Parenthesis),
    Action::Expression(expression::Nothing),
    Action::Clause(clause::Invoked),
    Action::Expression(expression::First),
    Action::Expression(expression::First),
    Action::Expression(expression::First),
    Action::Clause(clause::AllFields),
    Action::Clause(clause::MemberStep),
    Action::Clause(clause::AllElements),
    Action::Clause(clause::IndexStep),
    Action::Expression(expression::First),
    Action::Clause(clause::Bound),
    Action::Expression(expression::Nothing),
    Action::Expression(expression::First),
    // Expressions (JML Reference Manual, 12; JLS SE 8, 15)
    // JLS 15.25
    Action::Expression(expression::Operand),
    Action::Expression(expression::Choice),
    Action::Expression(expression::NoSuffixes),
    // 12.6.2, 12.6.3
    Action::Expression(expression::Operand),
    Action::Expression(expression::Equivalent),
    Action::Expression(expression::NoSuffixes),
    Action::Expression(expression::Operand),
    Action::Expression(expression::Implies),
    Action::Expression(expression::NoSuffixes),
    // JLS 15.24
    Action::Expression(expression::Operand),
    Action::Expression(expression::Infix(InfixOperator::OrElse)),
    Action::Expression(expression::NoSuffixes),
    // JLS 15.23
    Action::Expression(expression::Operand),
    Action::Expression(expression::Infix(InfixOperator::AndAlso)),
    Action::Expression(expression::NoSuffixes),
    // JLS 15.21
    Action::Expression(expression::Operand),
    Action::Expression(expression::Infix(InfixOperator::Equal)),
    Action::Expression(expression::Infix(InfixOperator::NotEqual)),
    Action::Expression(expression::NoSuffixes),
    // JLS 15.20
    Action::Expression(expression::Operand),
    Action::Expression(expression::Infix(InfixOperator::Less)),
    Action::Expression(expression::Infix(InfixOperator::LessOrEqual)),
    Action::Expression(expression::Infix(InfixOperator::Greater)),
    Action::Expression(expression::Infix(InfixOperator::GreaterOrEqual)),
    Action::Expression(expression::InstanceOf),
    Action::Expression(expression::NoSuffixes),
    // JLS 4.3
    Action::Expression(expression::First),
    Action::Expression(expression::ArrayType),
    // JLS 15.18
    Action::Expression(expression::Operand),
    Action::Expression(expression::Infix(InfixOperator::Add)),
    Action::Expression(expression::Infix(InfixOperator::Subtract)),
    Action::Expression(expression::NoSuffixes),
    // JLS 15.17
    Action::Expression(expression::Operand),
    Action::Expression(expression::Infix(InfixOperator::Multiply)),
    Action::Expression(expression::Infix(InfixOperator::Divide)),
    Action::Expression(expression::Infix(InfixOperator::Remainder)),
    Action::Expression(expression::NoSuffixes),
    // JLS 15.15
    Action::Expression(expression::Prefix(SpecPrefix::Plus)),
    Action::Expression(expression::Prefix(SpecPrefix::Minus)),
    Action::Expression(expression::First),
    // JLS 15.15.6, 15.16, 15.11 to 15.13
    Action::Expression(expression::Prefix(SpecPrefix::Not)),
    Action::Expression(expression::Begun),
    Action::Expression(expression::Name),
    Action::Expression(expression::Operand),
    // JLS 15.8; 12.4.1, 12.4.2, 12.4.4, 12.4.15
    Action::Expression(expression::Number),
    Action::Expression(expression::Boolean(true)),
    Action::Expression(expression::Boolean(false)),
    Action::Expression(expression::Null),
    Action::Expression(expression::This),
    Action::Expression(expression::Result),
    Action::Expression(expression::Old),
    Action::Expression(expression::Fresh),
    Action::Expression(expression::InvariantFor),
    // JLS 15.8.5, 15.16
    Action::Expression(expression::IntCast),
    Action::Expression(expression::BooleanCast),
    Action::Expression(expression::Followed),
    Action::Expression(expression::Parenthesis),
    Action::Expression(expression::First),
    Action::Expression(expression::ArrayOperand),
    Action::Expression(expression::First),
    Action::Expression(expression::First),
    // 12.4.24
    Action::Expression(expression::Quantified(Quantifier::ForAll)),
    Action::Expression(expression::Quantified(Quantifier::Exists)),
    Action::Expression(expression::Sum),
    Action::Expression(expression::First),
    Action::Expression(expression::Nothing),
    // JLS 4.1; 7.1
    Action::Expression(expression::IntType),
    Action::Expression(expression::BooleanType),
    Action::Expression(expression::First),
    Action::Expression(expression::BigInteger),
    Action::Expression(expression::ClassType),
    Action::Expression(expression::Dimension),
    Action::Expression(expression::Nothing),
    // JLS 15.12
    Action::Expression(expression::First),
    Action::Expression(expression::Nothing),
    Action::Expression(expression::First),
    Action::Expression(expression::NoExpressions),
    Action::Expression(expression::Expressions),
    Action::Expression(expression::Expressions),
    Action::Expression(expression::NoExpressions),
    // JLS 15.11, 15.13
    Action::Expression(expression::Member),
    Action::Expression(expression::Element),
    Action::Expression(expression::NoSuffixes),
    // JLS 3.8; 4.6: the words of clauses are identifiers where one stands
    Action::Expression(expression::Identifier),
    Action::Expression(expression::Identifier),
    Action::Expression(expression::Identifier),
    Action::Expression(expression::Identifier),
    Action::Expression(expression::Identifier),
    Action::Expression(expression::Identifier),
    Action::Expression(expression::Identifier),
    Action::Expression(expression::Identifier),
    Action::Expression(expression::Identifier),
    Action::Expression(expression::Identifier),
    Action::Expression(expression::Identifier),
    Action::Expression(expression::Identifier),
    Action::Expression(expression::Identifier),
    Action::Expression(expression::Identifier),
    Action::Expression(expression::Identifier),
    Action::Expression(expression::Identifier),
    Action::Expression(expression::Identifier),
    Action::Expression(expression::Identifier),
    Action::Expression(expression::Identifier),
    Action::Expression(expression::Identifier),
    Action::Expression(expression::Identifier),
];

const NOTHING: Action = Action::Expression(expression::Nothing);

fn action_in(actions: &[Action], production: u16) -> Action
    ensures { result ≡ slice_index_or actions.now production MISSING }
{
    match actions.get(production as usize) {
        Some(action) => *action,
        None => NOTHING,
    }
}

/// The action of the production of this number.
pub(crate) fn action_at(production: u16) -> Action
    ensures { result ≡ action_of production }
{
    action_in(&ACTIONS, production)
}
