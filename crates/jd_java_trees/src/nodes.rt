//! The tree of a whole file.

ghost use Rattle.std.specs.Prelude.{◌≡◌, IfSome, drop, length, map, take};
ghost use Rattle.jd_grammar.specs.Counted.{IsKept, IsQuiet, shown};
ghost use Rattle.jd_grammar.specs.Nodes.{IsRead, IsReadAs, Rooted, all_of};
ghost use Rattle.jd_java_attributes.specs.Judging.{names_of};
ghost use Rattle.jd_java_tokens.specs.Lexemes.{lexeme_view};
ghost use Rattle.jd_java_values.specs.Values.{Nothing};
ghost use Rattle.jd_java_values.specs.Views.{Gives, parts_view, value_view};
ghost use Rattle.jd_java_values.specs.declared.values.Value.TheVariants.{NoSuffixes};
ghost use Rattle.jd_java_trees.specs.Meaning.{meaning_by, unit_by, unit_of, value_of_node};
ghost use Rattle.jd_java_trees.specs.Short.{IsValueAt};
ghost use Rattle.jd_syntax.specs.JavaTrees.{unit_view};

use crate::actions::{Action, action_at};
use crate::short::{kept_parts, quiet_parts};
use jd_base::NoMemory;
use jd_grammar::{NodeParts, Nodes, Piles, value_of};
use jd_java_attributes::names_of;
use jd_java_expressions::act as act_on_expression;
use jd_java_members::act as act_on_member;
use jd_java_statements::act as act_on_statement;
use jd_java_tokens::Lexeme;
use jd_java_values::{Value, classes, in_order};
use jd_syntax::Unit;
use std::alloc::Global;

fn nothing() -> NodeParts<Value>
    ensures { parts_view result ≡ all_of Nothing }
{
    NodeParts {
        first: Value::Nothing,
        second: Value::Nothing,
        third: Value::Nothing,
        fourth: Value::Nothing,
    }
}

fn act(
    alloc: Global,
    action: Action,
    tokens: &[Lexeme<'_>],
    parts: &mut NodeParts<Value>,
) -> Result<Value, NoMemory>
    ensures { Gives value_view result (meaning_by action (map lexeme_view tokens.now) (parts_view parts.old)) }
{
    match action {
        Action::Expression(action) => act_on_expression(alloc, action, tokens, parts),
        Action::Statement(action) => act_on_statement(alloc, action, tokens, parts),
        Action::Member(action) => act_on_member(alloc, action, tokens, parts),
    }
}

// What a node stands for, whose parts are taken off the stack.
fn made(
    alloc: Global,
    production: u16,
    tokens: &[Lexeme<'_>],
    piles: &mut Piles<Value>,
) -> Result<Value, NoMemory>
    ensures value { Gives value_view result (value_of_node production (map lexeme_view tokens.now) (map value_view (take (names_of production) (shown NoSuffixes piles.old)))) }
    ensures rest { shown NoSuffixes piles.new ≡ drop (names_of production) (shown NoSuffixes piles.old) }
{
    let mut parts = piles.take_parts(names_of(production), nothing());
    act(alloc, action_at(production), tokens, &mut parts)
}

/// The nodes of Java's files, which stand for the parts of trees.
#[derive(Clone, Copy)]
pub struct TreeNodes;

impl<'a> Nodes<Lexeme<'a>, Value> for TreeNodes {
    ghost count = { λ _. names_of };

    ghost stands = { λ _. IsValueAt };

    fn quiet_parts(&self, production: u16) -> Option<u8>
        ensures { IfSome result (λ n. IsQuiet names_of IsValueAt NoSuffixes production n) }
    {
        quiet_parts(production)
    }

    fn kept_parts(&self, production: u16, first: &Value) -> Option<u8>
        ensures { IfSome result (λ n. IsKept names_of IsValueAt NoSuffixes production n first.now) }
    {
        kept_parts(production, first)
    }

    fn reduce(
        &self,
        alloc: Global,
        production: u16,
        tokens: &[Lexeme<'a>],
        piles: &mut Piles<Value>,
    ) -> Result<(), NoMemory> {
        let value = made(alloc, production, tokens, piles)?;
        piles.add(value)
    }
}

fn unit(alloc: Global, value: Value) -> Unit
    ensures { unit_view result ≡ unit_by (value_view value) }
{
    let classes = in_order(classes(alloc, value));
    Unit { classes }
}

/// The tree of the file with this preorder.
pub fn tree_of(alloc: Global, order: &[u16], lexemes: &[Lexeme<'_>]) -> Result<Unit, NoMemory>
    requires read { IsRead names_of order.now (length lexemes.now) }
    ensures { (tree : Rooted) → IsReadAs tree names_of order.now (length lexemes.now) → Gives unit_view result (unit_of tree.forest (map lexeme_view lexemes.now)) }
{
    let value = value_of(alloc, &TreeNodes, order, lexemes)?;
    Ok(unit(alloc, value))
}
