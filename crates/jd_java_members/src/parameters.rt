//! Modifiers and parameters.

ghost use Rattle.std.specs.Prelude.{◌≡◌, ◌∷◌, ◌++◌, [], false, List, map};
ghost use Rattle.jd_java_tokens.specs.Lexemes.{lexeme_view};
ghost use Rattle.jd_syntax.specs.JavaTypes.{identifier_view, written_view};
ghost use Rattle.jd_syntax.specs.SpecTrees.{PlainSpecBlock, spec_block_view};
ghost use Rattle.jd_syntax.specs.JavaTrees.{JavaParameter, parameter_view};
ghost use Rattle.jd_java_values.specs.Values.{Modifiers, Parameters};
ghost use Rattle.jd_java_values.specs.Parts as part;
ghost use Rattle.jd_java_values.specs.Views.{Gives, backwards, parts_view, value_view};
ghost use Rattle.jd_java_members.specs.Meaning as plain;
ghost use Rattle.jd_java_members.specs.declared.action.Action.TheVariants as actions;

use crate::blocks::block_at;
use jd_base::NoMemory;
use jd_grammar::NodeParts;
use jd_java_tokens::{Lexeme, begins_with_run, place_of};
use jd_java_values::{
    Value, all_of, alone, appended, discard, ended, in_order, modifiers, name, parameters, taken,
    typed,
};
use jd_syntax::{Identifier, Parameter, SpecBlock, SpecPlace, WrittenType};
use std::alloc::Global;

// Modifiers, if their JML has been made.
fn modified(is_static: bool, blocks: Result<Vec<SpecBlock>, NoMemory>) -> Result<Value, NoMemory>
    ensures { (x : List PlainSpecBlock) → Gives (backwards spec_block_view) blocks x → Gives value_view result (Modifiers is_static x) }
{
    Ok(Value::Modifiers(is_static, blocks?))
}

// The JML at modifiers, the last first.
fn blocks(alloc: Global, value: &mut Value) -> Vec<SpecBlock>
    ensures { backwards spec_block_view result ≡ part.blocks_of (value_view value.old) }
{
    let (_, blocks) = modifiers(alloc, taken(value));
    blocks
}

/// Modifiers before others, with JML between them.
#[tactic(auto, using(jd_lists::proofs::Backwards::reversed_three))]
pub fn modifiers_before(alloc: Global, parts: &mut NodeParts<Value>) -> Result<Value, NoMemory>
    ensures { Gives value_view result (plain.meaning actions.Modifiers [] (parts_view parts.old)) }
{
    let (is_static, before) = modifiers(alloc, taken(&mut parts.first));
    let between = blocks(alloc, &mut parts.second);
    let (is_static_behind, behind) = modifiers(alloc, taken(&mut parts.third));
    modified(
        is_static | is_static_behind,
        all_of(before, between, behind),
    )
}

/// JML at modifiers.
pub fn specs(alloc: Global, tokens: &[Lexeme<'_>]) -> Result<Value, NoMemory>
    ensures { Gives value_view result (Modifiers false (plain.block_at SpecPlace.Modifier (map lexeme_view tokens.now) ∷ [])) }
{
    modified(
        false,
        alone(alloc, block_at(alloc, SpecPlace::Modifier, tokens)),
    )
}

// Parameters, if they have been made.
fn parameters_given(parameters: Result<Vec<Parameter>, NoMemory>) -> Result<Value, NoMemory>
    ensures { (x : List JavaParameter) → Gives (backwards parameter_view) parameters x → Gives value_view result (Parameters x) }
{
    Ok(Value::Parameters(parameters?))
}

/// Parameters before others.
#[tactic(auto, using(jd_lists::proofs::Backwards::reversed_append))]
pub fn parameters_before(alloc: Global, parts: &mut NodeParts<Value>) -> Result<Value, NoMemory>
    ensures { Gives value_view result (plain.meaning actions.Parameters [] (parts_view parts.old)) }
{
    let before = parameters(alloc, taken(&mut parts.first));
    let behind = parameters(alloc, taken(&mut parts.second));
    parameters_given(appended(behind, before))
}

// Where what may stand behind JML begins.
fn place_behind_run(tokens: &[Lexeme<'_>]) -> u32
    ensures { result ≡ plain.place_behind_run (map lexeme_view tokens.now) }
{
    if begins_with_run(tokens) {
        place_of(1, tokens)
    } else {
        place_of(0, tokens)
    }
}

// A parameter, if its JML, the last part first, has been made.
#[tactic(auto, using(jd_lists::proofs::Backwards::map_reverse))]
fn parameter_of(
    at: u32,
    specs: Result<Vec<SpecBlock>, NoMemory>,
    ty: WrittenType,
    name: Identifier,
) -> Result<Parameter, NoMemory>
    ensures { (x : List PlainSpecBlock) → Gives (backwards spec_block_view) specs x → Gives parameter_view result (plain.parameter at x (written_view ty) (identifier_view name)) }
{
    match specs {
        Ok(specs) => Ok(Parameter {
            at,
            specs: in_order(specs),
            ty,
            name,
        }),
        Err(error) => {
            discard(ty);
            discard(name);
            Err(error)
        }
    }
}

// A list of one parameter, if it has been made.
fn only_parameter(alloc: Global, parameter: Result<Parameter, NoMemory>) -> Result<Value, NoMemory>
    ensures { (x : JavaParameter) → Gives parameter_view parameter x → Gives value_view result (Parameters (x ∷ [])) }
{
    parameters_given(ended(Vec::new(alloc), parameter))
}

// The JML at modifiers and at others behind them, the last first.
#[tactic(auto, using(jd_lists::proofs::Backwards::reversed_append))]
fn all_blocks(
    alloc: Global,
    first: &mut Value,
    second: &mut Value,
) -> Result<Vec<SpecBlock>, NoMemory>
    ensures { Gives (backwards spec_block_view) result (part.blocks_of (value_view first.old) ++ part.blocks_of (value_view second.old)) }
{
    let before = blocks(alloc, first);
    let behind = blocks(alloc, second);
    appended(behind, before)
}

/// A parameter.
pub fn parameter(
    alloc: Global,
    tokens: &[Lexeme<'_>],
    parts: &mut NodeParts<Value>,
) -> Result<Value, NoMemory>
    ensures { Gives value_view result (plain.meaning actions.Parameter (map lexeme_view tokens.now) (parts_view parts.old)) }
{
    let specs = all_blocks(alloc, &mut parts.first, &mut parts.second);
    let ty = typed(taken(&mut parts.third));
    let name = name(alloc, taken(&mut parts.fourth));
    only_parameter(
        alloc,
        parameter_of(place_behind_run(tokens), specs, ty, name),
    )
}
