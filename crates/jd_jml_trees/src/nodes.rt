//! The clauses of the JML at a whole place.

ghost use Rattle.std.specs.Prelude.{◌≡◌, IfSome, length, map};
ghost use Rattle.jd_grammar.specs.Counted.{IsKept, IsQuiet};
ghost use Rattle.jd_grammar.specs.Nodes.{IsRead, IsReadAs, Rooted, all_of};
ghost use Rattle.jd_jml_attributes.specs.Judging.{names_of as the_names};
ghost use Rattle.jd_jml_tokens.specs.Lexemes.{lexeme_view};
ghost use Rattle.jd_jml_values.specs.Parts as part;
ghost use Rattle.jd_jml_values.specs.Values.{Nothing};
ghost use Rattle.jd_jml_values.specs.Views.{Gives, in_order, parts_view, value_view};
ghost use Rattle.jd_jml_trees.specs.Meaning.{clauses_of_tree, meaning_by};
ghost use Rattle.jd_jml_trees.specs.Short.{IsValueAt};
ghost use Rattle.jd_jml_values.specs.declared.values.Value.TheVariants.{NoSuffixes};
ghost use Rattle.jd_syntax.specs.SpecTrees.{clause_view};

use crate::actions::{Action, action_at};
use crate::short::{kept_parts, quiet_parts};
use jd_base::NoMemory;
use jd_grammar::{NodeParts, Nodes, Piles, value_of};
use jd_jml_attributes::names_of;
use jd_jml_clauses::act as act_on_clause;
use jd_jml_expressions::act as act_on_expression;
use jd_jml_tokens::Lexeme;
use jd_jml_values::{Value, clauses, in_order};
use jd_syntax::SpecClause;
use std::alloc::Global;

fn nothing() -> NodeParts<Value>
    ensures { parts_view result ≡ all_of Nothing }
{
    NodeParts {
        first: Value::Nothing,
        second: Value::Nothing,
        third: Value::Nothing,
        fourth: Value::Nothing,
    }
}

fn act_by(
    alloc: Global,
    action: Action,
    tokens: &[Lexeme<'_>],
    parts: &mut NodeParts<Value>,
) -> Result<Value, NoMemory>
    ensures { Gives value_view result (meaning_by action (map lexeme_view tokens.now) (parts_view parts.old)) }
{
    match action {
        Action::Expression(action) => act_on_expression(alloc, action, tokens, parts),
        Action::Clause(action) => act_on_clause(alloc, action, tokens, parts),
    }
}

// What a node stands for, by its action; what that does not take of its parts is let go.
fn act(
    alloc: Global,
    action: Action,
    tokens: &[Lexeme<'_>],
    parts: NodeParts<Value>,
) -> Result<Value, NoMemory>
    ensures { Gives value_view result (meaning_by action (map lexeme_view tokens.now) (parts_view parts)) }
{
    let mut parts = parts;
    act_by(alloc, action, tokens, &mut parts)
}

/// The nodes of JML, which stand for the parts of clauses.
#[derive(Clone, Copy)]
pub struct TreeNodes;

impl<'a> Nodes<Lexeme<'a>, Value> for TreeNodes {
    ghost count = { λ _. the_names };

    ghost stands = { λ _. IsValueAt };

    fn quiet_parts(&self, production: u16) -> Option<u8>
        ensures { IfSome result (λ n. IsQuiet the_names IsValueAt NoSuffixes production n) }
    {
        quiet_parts(production)
    }

    fn kept_parts(&self, production: u16, first: &Value) -> Option<u8>
        ensures { IfSome result (λ n. IsKept the_names IsValueAt NoSuffixes production n first.now) }
    {
        kept_parts(production, first)
    }

    fn reduce(
        &self,
        alloc: Global,
        production: u16,
        tokens: &[Lexeme<'a>],
        piles: &mut Piles<Value>,
    ) -> Result<(), NoMemory> {
        let parts = piles.take_parts(names_of(production), nothing());
        let value = act(alloc, action_at(production), tokens, parts)?;
        piles.add(value)
    }
}

// The clauses that a value has, in order.
#[tactic(auto, using(jd_lists::proofs::Backwards::map_reverse))]
fn clauses_in(alloc: Global, value: Value) -> Vec<SpecClause>
    ensures { in_order clause_view result ≡ part.clauses_of (value_view value) }
{
    let mut value = value;
    in_order(clauses(alloc, &mut value))
}

/// The clauses of the JML with this preorder.
///
/// # Errors
///
/// `NoMemory`.
pub fn clauses_of(
    alloc: Global,
    order: &[u16],
    lexemes: &[Lexeme<'_>],
) -> Result<Vec<SpecClause>, NoMemory>
    requires read { IsRead the_names order.now (length lexemes.now) }
    ensures { (tree : Rooted) → IsReadAs tree the_names order.now (length lexemes.now) → Gives (in_order clause_view) result (clauses_of_tree tree.forest (map lexeme_view lexemes.now)) }
{
    let value = value_of(alloc, &TreeNodes, order, lexemes)?;
    Ok(clauses_in(alloc, value))
}
