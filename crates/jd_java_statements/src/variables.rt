//! Local variables.

ghost use Rattle.std.specs.Prelude.{◌≡◌, List, [], ◌∷◌, map, option_map};
ghost use Rattle.jd_java_tokens.specs.Lexemes.{lexeme_view};
ghost use Rattle.jd_syntax.specs.JavaTypes.{PlainWritten, identifier_view, written_view};
ghost use Rattle.jd_syntax.specs.JavaTrees.{JavaDeclarator, declarator_view, java_view};
ghost use Rattle.jd_syntax.specs.JavaTrees as java;
ghost use Rattle.jd_java_values.specs.Heads as heads;
ghost use Rattle.jd_java_values.specs.Parts as plain;
ghost use Rattle.jd_java_values.specs.Values.{LoopStart, Variables};
ghost use Rattle.jd_java_values.specs.Views.{Gives, backwards, in_order, parts_view, value_view};
ghost use Rattle.jd_java_statements.specs.declared.action.Action.{Action};
ghost use Rattle.jd_java_statements.specs.Meaning as plain_meaning;
ghost use Rattle.jd_java_statements.specs.Meaning.{meaning};

use crate::forms::local;
use jd_base::{NoMemory, both};
use jd_grammar::NodeParts;
use jd_java_tokens::{Lexeme, place_of};
use jd_java_values::{
    Value, in_order, int_type, is_dimension, name, some_expression, taken, type_at, typed,
    variables, with,
};
use jd_syntax::{Declarator, Expr, ForStart, Identifier, JavaType, WrittenType};
use std::alloc::Global;

fn declarator(name: Identifier, value: Option<Expr>) -> Declarator
    ensures { declarator_view result ≡ plain_meaning.variable (identifier_view name) (option_map java_view value) }
{
    Declarator { name, value }
}

// A variable's name, its first value, and other variables: of all the last comes first.
#[tactic(auto, using(jd_lists::proofs::Backwards::one_more))]
fn declarators(
    alloc: Global,
    variable: &mut Value,
    value: &mut Value,
    more: &mut Value,
) -> Result<Vec<Declarator>, NoMemory>
    ensures { Gives (backwards declarator_view) result (plain_meaning.variables (value_view variable.old) (value_view value.old) (value_view more.old)) }
{
    let name = name(alloc, taken(variable));
    let declarator = declarator(name, some_expression(taken(value)));
    with(variables(alloc, taken(more)), declarator)
}

/// The variables in the order of the text.
#[tactic(auto, using(jd_lists::proofs::Backwards::turned))]
pub fn ordered_variables(variables: Vec<Declarator>) -> Vec<Declarator>
    ensures { in_order declarator_view result ≡ backwards declarator_view variables }
{
    in_order(variables)
}

// The variables of the first three parts, the last first.
fn first_three(alloc: Global, parts: &mut NodeParts<Value>) -> Result<Vec<Declarator>, NoMemory>
    ensures { let p = parts_view parts.old in Gives (backwards declarator_view) result (plain_meaning.variables p.first p.second p.third) }
{
    declarators(alloc, &mut parts.first, &mut parts.second, &mut parts.third)
}

// The variables of the last three parts, in the order of the text.
fn last_three(alloc: Global, parts: &mut NodeParts<Value>) -> Result<Vec<Declarator>, NoMemory>
    ensures variables { let p = parts_view parts.old in Gives (in_order declarator_view) result (plain_meaning.variables p.second p.third p.fourth) }
    ensures rest { parts.new.first ≡ parts.old.first }
{
    let variables = declarators(
        alloc,
        &mut parts.second,
        &mut parts.third,
        &mut parts.fourth,
    )?;
    Ok(ordered_variables(variables))
}

// Those of the first three parts, in the order of the text.
fn ordered_three(alloc: Global, parts: &mut NodeParts<Value>) -> Result<Vec<Declarator>, NoMemory>
    ensures { let p = parts_view parts.old in Gives (in_order declarator_view) result (plain_meaning.variables p.first p.second p.third) }
{
    Ok(ordered_variables(first_three(alloc, parts)?))
}

fn int_at(tokens: &[Lexeme<'_>], dimension: Value) -> WrittenType
    ensures { written_view result ≡ heads.type_at (map lexeme_view tokens.now) (heads.int_type (plain.is_dimension (value_view dimension))) }
{
    type_at(tokens, int_type(is_dimension(dimension)))
}

/// `final T x = e, ..;`
pub fn final_local(
    alloc: Global,
    tokens: &[Lexeme<'_>],
    parts: &mut NodeParts<Value>,
) -> Result<Value, NoMemory>
    ensures { Gives value_view result (meaning Action.FinalLocal (map lexeme_view tokens.now) (parts_view parts.old)) }
{
    let variables = last_three(alloc, parts);
    let written = typed(taken(&mut parts.first));
    local(alloc, place_of(0, tokens), Ok(written), variables)
}

/// `int x = e, ..;` or `int[] x = e, ..;`
pub fn int_local(
    alloc: Global,
    tokens: &[Lexeme<'_>],
    parts: &mut NodeParts<Value>,
) -> Result<Value, NoMemory>
    ensures { Gives value_view result (meaning Action.IntLocal (map lexeme_view tokens.now) (parts_view parts.old)) }
{
    let variables = last_three(alloc, parts);
    let written = int_at(tokens, taken(&mut parts.first));
    local(alloc, place_of(0, tokens), Ok(written), variables)
}

/// `boolean x = e, ..;`
pub fn boolean_local(
    alloc: Global,
    tokens: &[Lexeme<'_>],
    parts: &mut NodeParts<Value>,
) -> Result<Value, NoMemory>
    ensures { Gives value_view result (meaning Action.BooleanLocal (map lexeme_view tokens.now) (parts_view parts.old)) }
{
    local(
        alloc,
        place_of(0, tokens),
        Ok(type_at(tokens, JavaType::Boolean)),
        ordered_three(alloc, parts),
    )
}

fn varied(variables: Result<Vec<Declarator>, NoMemory>) -> Result<Value, NoMemory>
    ensures { (ds : List JavaDeclarator) → Gives (backwards declarator_view) variables ds → Gives value_view result (Variables ds) }
{
    Ok(Value::Variables(variables?))
}

/// A variable, its first value if it has one, and others.
pub fn several_variables(alloc: Global, parts: &mut NodeParts<Value>) -> Result<Value, NoMemory>
    ensures { Gives value_view result (meaning Action.Variables [] (parts_view parts.old)) }
{
    varied(first_three(alloc, parts))
}

/// The start of a `for`: `T x = e, ..`
pub fn declared(
    written: Result<WrittenType, NoMemory>,
    variables: Result<Vec<Declarator>, NoMemory>,
) -> Result<Value, NoMemory>
    ensures { (t : PlainWritten) (ds : List JavaDeclarator) → Gives written_view written t → Gives (in_order declarator_view) variables ds → Gives value_view result (LoopStart (java.Declared t ds)) }
{
    let (written, variables) = both(written, variables)?;
    Ok(Value::LoopStart(ForStart::Declared(written, variables)))
}

/// The start of a `for`: `int x = e, ..` or `int[] x = e, ..`.
pub fn int_start(
    alloc: Global,
    tokens: &[Lexeme<'_>],
    parts: &mut NodeParts<Value>,
) -> Result<Value, NoMemory>
    ensures { Gives value_view result (meaning Action.IntStart (map lexeme_view tokens.now) (parts_view parts.old)) }
{
    let variables = last_three(alloc, parts);
    let written = int_at(tokens, taken(&mut parts.first));
    declared(Ok(written), variables)
}

/// The start of a `for`: `boolean x = e, ..`.
pub fn boolean_start(
    alloc: Global,
    tokens: &[Lexeme<'_>],
    parts: &mut NodeParts<Value>,
) -> Result<Value, NoMemory>
    ensures { Gives value_view result (meaning Action.BooleanStart (map lexeme_view tokens.now) (parts_view parts.old)) }
{
    declared(
        Ok(type_at(tokens, JavaType::Boolean)),
        ordered_three(alloc, parts),
    )
}
