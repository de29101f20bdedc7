//! What the nodes of each production of Java's grammar stand for, in the order of the productions, by section of the JLS.

ghost use Rattle.std.specs.Prelude.{◌≡◌, slice_index_or};
ghost use Rattle.jd_java_trees.specs.Meaning.{action_of};
ghost use Rattle.jd_java_trees.specs.declared.actions.TheConstants.{NOTHING as MISSING};

use jd_java_expressions::Action as expression;
use jd_java_members::Action as member;
use jd_java_statements::Action as statement;
use jd_syntax::{AssignmentOperator, CountOperator, InfixOperator, PrefixOperator};

/// What a node stands for, by the values of its parts.
#[derive(Clone, Copy)]
pub enum Action {
    /// Of an expression, or of what all have.
    Expression(expression),
    /// Of a statement.
    Statement(statement),
    /// Of a file, a class or a member.
    Member(member),
}

pub(crate) const ACTIONS: [Action; 225] = [
    // 7 Packages
    // 7.3
    Action::Member(member::Third),
    Action::Expression(expression::First),
    // 6.5
    Action::Expression(expression::Nothing),
    Action::Expression(expression::Nothing),
    // 7.6
    Action::Member(member::Classes),
    Action::Member(member::NoClasses),
    // 8 Classes
    // 8.1
    Action::Member(member::Class),
    // 8.1.1
    Action::Expression(expression::Nothing),
    Action::Expression(expression::Nothing),
    // 8.1.1, 8.3.1, 8.4.3, 9.7.2
    Action::Member(member::NoModifiers),
    Action::Member(member::Static),
    Action::Member(member::NoModifiers),
    Action::Member(member::NoModifiers),
    // 8.1.4
    Action::Expression(expression::First),
    Action::Expression(expression::Nothing),
    // 8.1.6, and JML before a member or the end
    Action::Member(member::NoMembers),
    Action::Member(member::SpecsBefore),
    Action::Member(member::Members),
    Action::Member(member::NoMembers),
    Action::Member(member::Members),
    // 8.2
    Action::Member(member::Member),
    // 8.3.1, 8.4.1, 8.4.3, and JML behind a modifier
    Action::Member(member::Modifiers),
    Action::Member(member::NoModifiers),
    Action::Member(member::Specs),
    Action::Member(member::NoModifiers),
    // 8.3, 8.4, 8.8
    Action::Member(member::VoidDeclaration),
    Action::Member(member::BooleanDeclaration),
    Action::Member(member::IntDeclaration),
    Action::Member(member::NamedDeclaration),
    Action::Member(member::ArrayDeclarator),
    Action::Member(member::Declarator),
    Action::Member(member::Routine),
    Action::Member(member::Declarator),
    // 8.3, 9.3
    Action::Expression(expression::First),
    Action::Expression(expression::First),
    Action::Member(member::Constant),
    Action::Member(member::NegatedConstant),
    Action::Member(member::Number),
    Action::Member(member::Number),
    Action::Expression(expression::First),
    Action::Member(member::FieldNames),
    Action::Member(member::Names),
    Action::Member(member::NoNames),
    // 8.4
    Action::Member(member::Routine),
    // 8.4.1
    Action::Member(member::NoParameters),
    Action::Member(member::Parameters),
    Action::Member(member::Parameters),
    Action::Member(member::NoParameters),
    Action::Member(member::Parameter),
    // 4.1
    Action::Expression(expression::IntType),
    Action::Expression(expression::BooleanType),
    Action::Expression(expression::ClassType),
    // 10.1
    Action::Expression(expression::Dimension),
    Action::Expression(expression::Nothing),
    // 8.4.6
    Action::Expression(expression::Nothing),
    Action::Expression(expression::Nothing),
    // 8.8.7
    Action::Expression(expression::First),
    Action::Statement(statement::Super),
    Action::Expression(expression::First),
    // 14 Blocks and statements
    // 14.2
    Action::Expression(expression::First),
    Action::Statement(statement::NoStatements),
    Action::Statement(statement::Statements),
    // 14.4
    Action::Statement(statement::FinalLocal),
    Action::Statement(statement::IntLocal),
    Action::Statement(statement::BooleanLocal),
    Action::Statement(statement::Named),
    Action::Expression(expression::First),
    Action::Expression(expression::First),
    Action::Expression(expression::First),
    Action::Expression(expression::First),
    Action::Statement(statement::Variables),
    Action::Expression(expression::First),
    Action::Expression(expression::Nothing),
    Action::Statement(statement::Variables),
    Action::Statement(statement::NoVariables),
    // 14.5, 14.7, 14.8
    Action::Statement(statement::Named),
    Action::Expression(expression::First),
    Action::Expression(expression::First),
    Action::Expression(expression::First),
    // 14.5
    Action::Statement(statement::Block),
    Action::Statement(statement::Empty),
    Action::Statement(statement::Evaluate),
    Action::Statement(statement::If),
    Action::Expression(expression::First),
    Action::Statement(statement::Annotated),
    Action::Statement(statement::Break),
    Action::Statement(statement::Continue),
    Action::Statement(statement::Return),
    Action::Statement(statement::Throw),
    Action::Statement(statement::Try),
    // 14.9, of the nearest if
    Action::Expression(expression::First),
    Action::Expression(expression::Nothing),
    // 14.12, 14.14
    Action::Statement(statement::While),
    Action::Statement(statement::For),
    // 14.7, and JML before a loop or its label
    Action::Expression(expression::First),
    Action::Statement(statement::Label),
    Action::Statement(statement::Annotated),
    Action::Expression(expression::First),
    // 14.14.1
    Action::Expression(expression::NoExpressions),
    Action::Statement(statement::IntStart),
    Action::Statement(statement::BooleanStart),
    Action::Statement(statement::NamedStart),
    Action::Expression(expression::Expressions),
    Action::Expression(expression::First),
    Action::Statement(statement::NameEffects),
    Action::Expression(expression::Nothing),
    Action::Expression(expression::First),
    Action::Expression(expression::NoExpressions),
    Action::Expression(expression::Expressions),
    Action::Expression(expression::Expressions),
    Action::Expression(expression::NoExpressions),
    // 14.15, 14.16
    Action::Expression(expression::First),
    Action::Expression(expression::Nothing),
    // 14.17
    Action::Expression(expression::Nothing),
    Action::Expression(expression::First),
    // 14.20
    Action::Statement(statement::Rescue),
    Action::Statement(statement::Finally),
    Action::Statement(statement::Handlers),
    Action::Statement(statement::NoHandlers),
    Action::Statement(statement::Catch),
    Action::Expression(expression::Nothing),
    Action::Expression(expression::Nothing),
    Action::Expression(expression::First),
    Action::Expression(expression::Nothing),
    // 14.8
    Action::Expression(expression::NameEffect),
    Action::Expression(expression::First),
    Action::Expression(expression::BehindName),
    Action::Expression(expression::Prefix(PrefixOperator::Count(CountOperator::Increment))),
    Action::Expression(expression::Prefix(PrefixOperator::Count(CountOperator::Decrement))),
    Action::Expression(expression::Operand),
    Action::Expression(expression::This),
    Action::Expression(expression::Inside),
    Action::Expression(expression::Begun),
    Action::Expression(expression::Object),
    Action::Expression(expression::Array),
    Action::Expression(expression::Count(CountOperator::Increment)),
    Action::Expression(expression::Count(CountOperator::Decrement)),
    Action::Expression(expression::Assign(AssignmentOperator::Set)),
    Action::Expression(expression::Assign(AssignmentOperator::Add)),
    Action::Expression(expression::Assign(AssignmentOperator::Subtract)),
    Action::Expression(expression::Assign(AssignmentOperator::Multiply)),
    Action::Expression(expression::Assign(AssignmentOperator::Divide)),
    Action::Expression(expression::Assign(AssignmentOperator::Remainder)),
    Action::Expression(expression::Suffixes),
    // 15 Expressions
    // 15.26
    Action::Expression(expression::Operand),
    Action::Expression(expression::Assign(AssignmentOperator::Set)),
    Action::Expression(expression::Assign(AssignmentOperator::Add)),
    Action::Expression(expression::Assign(AssignmentOperator::Subtract)),
    Action::Expression(expression::Assign(AssignmentOperator::Multiply)),
    Action::Expression(expression::Assign(AssignmentOperator::Divide)),
    Action::Expression(expression::Assign(AssignmentOperator::Remainder)),
    Action::Expression(expression::Suffixes),
    // 15.25
    Action::Expression(expression::Operand),
    Action::Expression(expression::Choice),
    Action::Expression(expression::Suffixes),
    // 15.24
    Action::Expression(expression::Operand),
    Action::Expression(expression::Infix(InfixOperator::OrElse)),
    Action::Expression(expression::Suffixes),
    // 15.23
    Action::Expression(expression::Operand),
    Action::Expression(expression::Infix(InfixOperator::AndAlso)),
    Action::Expression(expression::Suffixes),
    // 15.21
    Action::Expression(expression::Operand),
    Action::Expression(expression::Infix(InfixOperator::Equal)),
    Action::Expression(expression::Infix(InfixOperator::NotEqual)),
    Action::Expression(expression::Suffixes),
    // 15.20
    Action::Expression(expression::Operand),
    Action::Expression(expression::Infix(InfixOperator::Less)),
    Action::Expression(expression::Infix(InfixOperator::LessOrEqual)),
    Action::Expression(expression::Infix(InfixOperator::Greater)),
    Action::Expression(expression::Infix(InfixOperator::GreaterOrEqual)),
    Action::Expression(expression::InstanceOf),
    Action::Expression(expression::Suffixes),
    // 4.3
    Action::Expression(expression::ClassType),
    Action::Expression(expression::ArrayType),
    // 15.18
    Action::Expression(expression::Operand),
    Action::Expression(expression::Infix(InfixOperator::Add)),
    Action::Expression(expression::Infix(InfixOperator::Subtract)),
    Action::Expression(expression::Suffixes),
    // 15.17
    Action::Expression(expression::Operand),
    Action::Expression(expression::Infix(InfixOperator::Multiply)),
    Action::Expression(expression::Infix(InfixOperator::Divide)),
    Action::Expression(expression::Infix(InfixOperator::Remainder)),
    Action::Expression(expression::Suffixes),
    // 15.15
    Action::Expression(expression::Prefix(PrefixOperator::Plus)),
    Action::Expression(expression::Prefix(PrefixOperator::Minus)),
    Action::Expression(expression::Prefix(PrefixOperator::Count(CountOperator::Increment))),
    Action::Expression(expression::Prefix(PrefixOperator::Count(CountOperator::Decrement))),
    Action::Expression(expression::First),
    // 3.10.1
    Action::Expression(expression::Number),
    Action::Expression(expression::First),
    // 15.15.6, 15.16, 15.14
    Action::Expression(expression::Prefix(PrefixOperator::Not)),
    Action::Expression(expression::Begun),
    Action::Expression(expression::Name),
    Action::Expression(expression::Operand),
    Action::Expression(expression::This),
    Action::Expression(expression::Begun),
    // 15.8.5, 15.16
    Action::Expression(expression::IntCast),
    Action::Expression(expression::BooleanCast),
    Action::Expression(expression::Parenthesis),
    Action::Expression(expression::First),
    Action::Expression(expression::ArrayOperand),
    Action::Expression(expression::First),
    Action::Expression(expression::Suffixes),
    // 15.8.1
    Action::Expression(expression::Number),
    Action::Expression(expression::Boolean(true)),
    Action::Expression(expression::Boolean(false)),
    Action::Expression(expression::Null),
    // 15.9, 15.10
    Action::Expression(expression::Object),
    Action::Expression(expression::Array),
    Action::Expression(expression::Suffixes),
    Action::Expression(expression::Suffixes),
    Action::Expression(expression::Member),
    // 15.12
    Action::Expression(expression::First),
    Action::Expression(expression::Nothing),
    Action::Expression(expression::NoExpressions),
    Action::Expression(expression::Expressions),
    Action::Expression(expression::Expressions),
    Action::Expression(expression::NoExpressions),
    // 15.11, 15.13
    Action::Expression(expression::Member),
    Action::Expression(expression::Element),
    Action::Expression(expression::Suffixes),
    // 15.14.2, 15.14.3
    Action::Expression(expression::Count(CountOperator::Increment)),
    Action::Expression(expression::Count(CountOperator::Decrement)),
    Action::Expression(expression::Suffixes),
    // 3.8
    Action::Expression(expression::Identifier),
];

const NOTHING: Action = Action::Expression(expression::Nothing);

fn action_in(actions: &[Action], production: u16) -> Action
    ensures { result ≡ slice_index_or actions.now production MISSING }
{
    match actions.get(production as usize) {
        Some(action) => *action,
        None => NOTHING,
    }
}

/// The action of the production of this number.
pub(crate) fn action_at(production: u16) -> Action
    ensures { result ≡ action_of production }
{
    action_in(&ACTIONS, production)
}
