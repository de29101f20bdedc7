//! Locations.

ghost use Rattle.std.specs.Prelude.{◌≡◌, ◌∷◌, ◌++◌, [], List, map};
ghost use Rattle.jd_jml_tokens.specs.Lexemes.{lexeme_view, place_of as the_place};
ghost use Rattle.jd_syntax.specs.JavaTypes.{identifier_view};
ghost use Rattle.jd_syntax.specs.SpecTrees.{PlainLocation, PlainSpec, location_form, location_view, spec_view};
ghost use Rattle.jd_jml_values.specs.Values as values;
ghost use Rattle.jd_jml_values.specs.Values.{PlainSuffix};
ghost use Rattle.jd_jml_values.specs.Parts as part;
ghost use Rattle.jd_jml_values.specs.Views.{Gives, backwards, boxed_view, end_view, in_order, parts_view, suffix_view, value_view};
ghost use Rattle.jd_jml_expressions.specs.Meaning.{begun_at as the_begun};
ghost use Rattle.jd_jml_clauses.specs.Locating as plain;
ghost use Rattle.jd_jml_clauses.specs.Meaning.{meaning};
ghost use Rattle.jd_jml_clauses.specs.declared.action.Action.TheVariants as actions;

use jd_base::{NoMemory, both};
use jd_grammar::NodeParts;
use jd_jml_expressions::{all_applied, begun_at, named};
use jd_jml_tokens::{Lexeme, place_of};
use jd_jml_values::{
    End, Suffix, Value, appended, discard, expression, expressions, in_order, locations, name,
    steps, taken, with,
};
use jd_syntax::{Identifier, LocExpr, LocForm, SpecExpr};
use std::alloc::Global;

// Locations as what a node stands for.
fn given(locations: Result<Vec<LocExpr>, NoMemory>) -> Result<Value, NoMemory>
    ensures { (x : List PlainLocation) → Gives (backwards location_view) locations x → Gives value_view result (values.Locations x) }
{
    Ok(Value::Locations(locations?))
}

// One location.
fn alone(alloc: Global, location: LocExpr) -> Result<Value, NoMemory>
    ensures { Gives value_view result (values.Locations (location_view location ∷ [])) }
{
    given(with(Vec::new(alloc), location))
}

/// A location of this form that begins at that place.
pub fn location(alloc: Global, at: u32, form: LocForm) -> Result<Value, NoMemory>
    ensures { Gives value_view result (values.Locations (location_form at form ∷ [])) }
{
    alone(alloc, LocExpr { at, form })
}

/// The locations of both parts.
#[tactic(auto, using(jd_lists::proofs::Backwards::reversed_append))]
pub fn both_locations(alloc: Global, parts: &mut NodeParts<Value>) -> Result<Value, NoMemory>
    ensures { Gives value_view result (meaning actions.Locations [] (parts_view parts.old)) }
{
    let behind = locations(alloc, &mut parts.second);
    given(appended(behind, locations(alloc, &mut parts.first)))
}

// The location that begins at that place and ends so behind its operand.
fn ended(at: u32, e: SpecExpr, end: End) -> LocExpr
    ensures { location_view result ≡ plain.location at (spec_view e) (end_view end) }
{
    let form = match end {
        End::Field(name) => LocForm::Field(e, name),
        End::AllFields => LocForm::AllFields(e),
        End::Element(i) => LocForm::Element(e, Box::into_inner(i)),
        End::Range(i, j) => LocForm::Range(e, Box::into_inner(i), Box::into_inner(j)),
        End::AllElements => LocForm::AllElements(e),
    };
    LocExpr { at, form }
}

// A location that ends so behind its operand, if that has been made.
fn ending(
    alloc: Global,
    at: u32,
    e: Result<Box<SpecExpr>, NoMemory>,
    end: End,
) -> Result<Value, NoMemory>
    ensures { (x : PlainSpec) → Gives boxed_view e x → Gives value_view result (values.Locations (plain.location at x (end_view end) ∷ [])) }
{
    let (e, end) = both(e, Ok(end))?;
    alone(alloc, ended(at, Box::into_inner(e), end))
}

// The same with members and elements before the end.
fn located(
    alloc: Global,
    at: u32,
    e: Result<Box<SpecExpr>, NoMemory>,
    steps: (Vec<Suffix>, End),
) -> Result<Value, NoMemory>
    ensures { (x : PlainSpec) → Gives boxed_view e x → Gives value_view result (values.Locations (plain.located at x (backwards suffix_view steps.0) (end_view steps.1) ∷ [])) }
{
    let (behind, end) = steps;
    ending(alloc, at, all_applied(alloc, e, behind), end)
}

// A location that begins with a name.
#[tactic(auto, using(jd_lists::proofs::Backwards::map_reverse))]
fn named_location(alloc: Global, name: Identifier, behind: Value) -> Result<Value, NoMemory>
    ensures { Gives value_view result (values.Locations (plain.named_location (identifier_view name) (value_view behind) ∷ [])) }
{
    let at = name.at;
    match behind {
        Value::Steps(steps, end) => located(alloc, at, named(alloc, name, None), (steps, end)),
        Value::Invoked(arguments, steps, end) => located(
            alloc,
            at,
            named(alloc, name, Some(in_order(arguments))),
            (steps, end),
        ),
        other => {
            discard(other);
            location(alloc, at, LocForm::Own(name.name))
        }
    }
}

/// A location that begins with a name.
pub fn begins_with_name(alloc: Global, parts: &mut NodeParts<Value>) -> Result<Value, NoMemory>
    ensures { Gives value_view result (meaning actions.NamedLocation [] (parts_view parts.old)) }
{
    let name = name(alloc, &mut parts.first);
    named_location(alloc, name, taken(&mut parts.second))
}

/// One that begins with another operand.
pub fn begins_with_operand(
    alloc: Global,
    tokens: &[Lexeme<'_>],
    parts: &mut NodeParts<Value>,
) -> Result<Value, NoMemory>
    ensures { Gives value_view result (meaning actions.OperandLocation (map lexeme_view tokens.now) (parts_view parts.old)) }
{
    let e = expression(alloc, &mut parts.first);
    let steps = steps(alloc, &mut parts.second);
    located(alloc, place_of(0, tokens), e, steps)
}

/// One that begins with `(`.
pub fn begins_in_parentheses(
    alloc: Global,
    tokens: &[Lexeme<'_>],
    parts: &mut NodeParts<Value>,
) -> Result<Value, NoMemory>
    ensures { Gives value_view result (meaning actions.BegunLocation (map lexeme_view tokens.now) (parts_view parts.old)) }
{
    let at = place_of(0, tokens);
    let e = begun_at(alloc, at, taken(&mut parts.first));
    let steps = steps(alloc, &mut parts.second);
    located(alloc, at, e, steps)
}

/// Arguments, and what stands behind them.
pub fn invoked(alloc: Global, parts: &mut NodeParts<Value>) -> Value
    ensures { value_view result ≡ meaning actions.Invoked [] (parts_view parts.old) }
{
    let arguments = expressions(alloc, &mut parts.first);
    let (steps, end) = steps(alloc, &mut parts.second);
    Value::Invoked(arguments, steps, end)
}

// Members and elements behind another, if they have been made, before the end.
fn steps_to(steps: Result<Vec<Suffix>, NoMemory>, end: End) -> Result<Value, NoMemory>
    ensures { (x : List PlainSuffix) → Gives (backwards suffix_view) steps x → Gives value_view result (values.Steps x (end_view end)) }
{
    let (steps, end) = both(steps, Ok(end))?;
    Ok(Value::Steps(steps, end))
}

// A member, and what stands behind it.
#[tactic(auto, using(jd_lists::proofs::Backwards::last_first, jd_lists::proofs::Backwards::map_reverse))]
fn member_behind(alloc: Global, name: Identifier, behind: Value) -> Result<Value, NoMemory>
    ensures { Gives value_view result (plain.member_step (identifier_view name) (value_view behind)) }
{
    match behind {
        Value::Steps(steps, end) => steps_to(with(steps, Suffix::Member(name)), end),
        Value::Invoked(arguments, steps, end) => steps_to(
            with(steps, Suffix::Method(name, in_order(arguments))),
            end,
        ),
        other => {
            discard(other);
            Ok(Value::Steps(Vec::new(alloc), End::Field(name)))
        }
    }
}

/// A member, and what stands behind it.
pub fn member_step(alloc: Global, parts: &mut NodeParts<Value>) -> Result<Value, NoMemory>
    ensures { Gives value_view result (meaning actions.MemberStep [] (parts_view parts.old)) }
{
    let name = name(alloc, &mut parts.first);
    member_behind(alloc, name, taken(&mut parts.second))
}

// An index, and what stands behind it.
#[tactic(auto, using(jd_lists::proofs::Backwards::last_first))]
fn index_behind(alloc: Global, index: Box<SpecExpr>, behind: Value) -> Result<Value, NoMemory>
    ensures { Gives value_view result (plain.index_step (boxed_view index) (value_view behind)) }
{
    match behind {
        Value::Steps(steps, end) => steps_to(with(steps, Suffix::Element(index)), end),
        Value::Bound(greatest) => Ok(Value::Steps(Vec::new(alloc), End::Range(index, greatest))),
        other => {
            discard(other);
            Ok(Value::Steps(Vec::new(alloc), End::Element(index)))
        }
    }
}

/// An index, and what stands behind it.
pub fn index_step(alloc: Global, parts: &mut NodeParts<Value>) -> Result<Value, NoMemory>
    ensures { Gives value_view result (meaning actions.IndexStep [] (parts_view parts.old)) }
{
    let index = expression(alloc, &mut parts.first)?;
    index_behind(alloc, index, taken(&mut parts.second))
}

/// `..` and the greatest index.
pub fn bound(alloc: Global, parts: &mut NodeParts<Value>) -> Result<Value, NoMemory>
    ensures { Gives value_view result (meaning actions.Bound [] (parts_view parts.old)) }
{
    Ok(Value::Bound(expression(alloc, &mut parts.first)?))
}
