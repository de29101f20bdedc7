//! What the parts of a class tell of its members: their modifiers, and the names of its constructors.

ghost use Rattle.std.specs.Prelude.{◌≡◌, List, IfOk, IfSome, map, true};
ghost use Rattle.std.specs.Option.{option_map};
ghost use Rattle.jd_grammar.specs.declared.piles.NodeParts.{NodeParts};
ghost use Rattle.jd_java_tokens.specs.Contents.{PlainLexeme};
ghost use Rattle.jd_java_tokens.specs.Lexemes.{lexeme_view};
ghost use Rattle.jd_java_attributes.specs.Headings as plain;
ghost use Rattle.jd_java_attributes.specs.Folding.{named, told_view, told_views};
ghost use Rattle.jd_java_attributes.specs.Headings.{PlainHeading, bare, constructor_view, heading_view, headings_view};

use crate::form::first_of;
use crate::rows::Rule;
use jd_base::NoMemory;
use jd_grammar::NodeParts;
use jd_java_tokens::{Lexeme, place_of, text_of};
use std::alloc::Global;

/// What a member is, with the place that tells.
#[derive(Clone, Copy)]
pub enum Declared {
    /// A method, or no member.
    Nothing,
    /// Fields: the token behind their first name.
    Fields(u32),
    /// A constant: its `=`.
    Constant(u32),
    /// A constructor: its `(`.
    Constructor(u32),
}

/// The name of a constructor, and the place of its `(`.
#[derive(Clone, Copy)]
pub struct Constructor<'a> {
    pub name: &'a [u8],
    pub at: u32,
}

/// What the nodes of a class tell of its members.
#[derive(Clone, Copy)]
pub struct Heading<'a> {
    /// `static` stands among the modifiers.
    pub is_static: bool,
    /// `final` does.
    pub is_final: bool,
    /// What the member is.
    pub declared: Declared,
    /// A name's text.
    pub name: &'a [u8],
    /// The first constructor.
    pub constructor: Option<Constructor<'a>>,
    /// The place of the first with another name than the first's.
    pub other: Option<u32>,
    /// The place of the first token with which no file goes on.
    pub fault: Option<u32>,
}

/// The same, where most nodes tell nothing.
#[derive(Drop)]
pub enum Told<'a> {
    /// Nothing.
    Nothing,
    /// A name alone.
    Name(&'a [u8]),
    /// More.
    More(Box<Heading<'a>>),
}

/// What nothing tells.
pub(crate) const BARE: Heading<'static> = Heading {
    is_static: false,
    is_final: false,
    declared: Declared::Nothing,
    name: b"",
    constructor: None,
    other: None,
    fault: None,
};

fn declared_of_both(a: Declared, b: Declared) -> Declared
    ensures { result ≡ plain.declared_of_both a b }
{
    match a {
        Declared::Nothing => b,
        _ => a,
    }
}

fn first_constructor<'a>(
    a: Option<Constructor<'a>>,
    b: Option<Constructor<'a>>,
) -> Option<Constructor<'a>>
    ensures { option_map constructor_view result ≡ plain.first_constructor (option_map constructor_view a.entry) (option_map constructor_view b.entry) }
{
    match a {
        Some(constructor) => Some(constructor),
        None => b,
    }
}

// The place of the constructor, if it has another name.
fn unless_named(name: &[u8], constructor: Option<Constructor<'_>>) -> Option<u32>
    ensures { result ≡ plain.unless_named name.now (option_map constructor_view constructor.entry) }
{
    match constructor {
        Some(constructor) if constructor.name != name => Some(constructor.at),
        _ => None,
    }
}

// The place of the first constructor with another name than the first's.
fn other_of_both(a: Heading<'_>, b: Heading<'_>) -> Option<u32>
    ensures { result ≡ plain.other_of_both (heading_view a.entry) (heading_view b.entry) }
{
    match a.constructor {
        None => b.other,
        Some(first) => first_of(
            a.other,
            first_of(unless_named(first.name, b.constructor), b.other),
        ),
    }
}

fn joined<'a>(a: Heading<'a>, b: Heading<'a>) -> Heading<'a>
    ensures { heading_view result ≡ plain.joined (heading_view a.entry) (heading_view b.entry) }
{
    Heading {
        is_static: a.is_static || b.is_static,
        is_final: a.is_final || b.is_final,
        declared: declared_of_both(a.declared, b.declared),
        name: b"",
        constructor: first_constructor(a.constructor, b.constructor),
        other: other_of_both(a, b),
        fault: first_of(a.fault, b.fault),
    }
}

fn all_joined<'a>(parts: NodeParts<Heading<'a>>) -> Heading<'a>
    ensures { heading_view result ≡ plain.all_joined (headings_view parts.entry) }
{
    let front = joined(parts.first, parts.second);
    joined(front, joined(parts.third, parts.fourth))
}

// The place that tells that a member has not the modifiers that it must have.
fn misplaced(heading: Heading<'_>) -> Option<u32>
    ensures { result ≡ plain.misplaced (heading_view heading.entry) }
{
    match heading.declared {
        Declared::Fields(at) => { if heading.is_static { Some(at) } else { None } }
        Declared::Constant(at) => {
            if heading.is_static && heading.is_final {
                None
            } else {
                Some(at)
            }
        }
        _ => None,
    }
}

fn without_modifiers<'a>(heading: Heading<'a>) -> Heading<'a>
    ensures { heading_view result ≡ plain.without_modifiers (heading_view heading.entry) }
{
    Heading {
        is_static: false,
        is_final: false,
        ..heading
    }
}

fn member<'a>(heading: Heading<'a>) -> Heading<'a>
    ensures { heading_view result ≡ plain.member (heading_view heading.entry) }
{
    Heading {
        declared: Declared::Nothing,
        fault: first_of(heading.fault, misplaced(heading)),
        ..without_modifiers(heading)
    }
}

// A class of this name.
fn class<'a>(name: &'a [u8], heading: Heading<'a>) -> Heading<'a>
    ensures { heading_view result ≡ plain.class name.now (heading_view heading.entry) }
{
    let misnamed = first_of(unless_named(name, heading.constructor), heading.other);
    Heading {
        constructor: None,
        other: None,
        fault: first_of(heading.fault, misnamed),
        ..without_modifiers(heading)
    }
}

// A declaration that begins with this name.
fn declaration<'a>(name: &'a [u8], heading: Heading<'a>) -> Heading<'a>
    ensures { heading_view result ≡ plain.declaration name.now (heading_view heading.entry) }
{
    match heading.declared {
        Declared::Constructor(at) => Heading {
            constructor: Some(Constructor { name, at }),
            ..heading
        },
        _ => heading,
    }
}

// What a node of this rule tells.
fn heading_of<'a>(rule: Rule, tokens: &[Lexeme<'a>], parts: NodeParts<Heading<'a>>) -> Heading<'a>
    ensures { heading_view result ≡ plain.told rule (map lexeme_view tokens.now) (headings_view parts.entry) }
{
    let all = all_joined(parts);
    let at = place_of(0, tokens);
    match rule {
        Rule::Static => Heading {
            is_static: true,
            ..all
        },
        Rule::Final => Heading {
            is_final: true,
            ..all
        },
        Rule::Fields => Heading {
            declared: Declared::Fields(at),
            ..all
        },
        Rule::Constant => Heading {
            declared: Declared::Constant(at),
            ..all
        },
        Rule::Constructor => Heading {
            declared: Declared::Constructor(at),
            ..all
        },
        Rule::Declaration => declaration(text_of(tokens), all),
        Rule::Member => member(all),
        Rule::Parameter => without_modifiers(all),
        Rule::Class => class(parts.second.name, all),
        Rule::Identifier => Heading {
            name: text_of(tokens),
            ..all
        },
        _ => all,
    }
}

/// The heading that it is.
pub(crate) fn heading_in<'a>(told: Told<'a>) -> Heading<'a>
    ensures { heading_view result ≡ told_view told.entry }
{
    match told {
        Told::Nothing => BARE,
        Told::Name(name) => Heading { name, ..BARE },
        Told::More(heading) => Box::into_inner(heading),
    }
}

fn headings_in<'a>(parts: NodeParts<Told<'a>>) -> NodeParts<Heading<'a>>
    ensures { headings_view result ≡ told_views parts.entry }
{
    NodeParts {
        first: heading_in(parts.first),
        second: heading_in(parts.second),
        third: heading_in(parts.third),
        fourth: heading_in(parts.fourth),
    }
}

// Whether it tells a name at most.
fn is_quiet(told: &Told<'_>) -> bool
    ensures { result ≡ true → told_view told.now ≡ named (told_view told.now).name }
{
    match told {
        Told::More(_) => false,
        _ => true,
    }
}

// Whether parts tell nothing together.
fn are_quiet(parts: &NodeParts<Told<'_>>) -> bool
    ensures { result ≡ true → plain.all_joined (told_views parts.now) ≡ bare }
{
    if !is_quiet(&parts.first) {
        return false;
    }
    if !is_quiet(&parts.second) {
        return false;
    }
    if !is_quiet(&parts.third) {
        return false;
    }
    is_quiet(&parts.fourth)
}

/// Whether a node of this rule tells what its parts tell together.
pub(crate) fn tells_parts(rule: Rule) -> bool
    ensures { result ≡ true → (ts : List PlainLexeme) (parts : NodeParts PlainHeading) → plain.told rule ts parts ≡ plain.all_joined parts }
{
    match rule {
        Rule::Static
        | Rule::Final
        | Rule::Fields
        | Rule::Constant
        | Rule::Constructor
        | Rule::Declaration
        | Rule::Member
        | Rule::Parameter
        | Rule::Class
        | Rule::Identifier => false,
        _ => true,
    }
}

// What a node tells where its parts tell nothing together and it is none that tells more than a name.
fn told_quietly<'a>(
    rule: Rule,
    tokens: &[Lexeme<'a>],
    parts: &NodeParts<Told<'a>>,
) -> Option<Told<'a>>
    ensures { IfSome result (λ t. told_view t ≡ plain.told rule (map lexeme_view tokens.now) (told_views parts.now)) }
{
    if !are_quiet(parts) {
        return None;
    }
    if tells_parts(rule) {
        return Some(Told::Nothing);
    }
    match rule {
        Rule::Identifier => Some(Told::Name(text_of(tokens))),
        _ => None,
    }
}

fn boxed<'a>(alloc: Global, heading: Heading<'a>) -> Result<Told<'a>, NoMemory>
    ensures { IfOk result (λ t. told_view t ≡ heading_view heading.entry) }
{
    let heading = Box::new(alloc, heading)?;
    Ok(Told::More(heading))
}

/// What a node of this rule tells.
pub(crate) fn told_by<'a>(
    alloc: Global,
    rule: Rule,
    tokens: &[Lexeme<'a>],
    parts: NodeParts<Told<'a>>,
) -> Result<Told<'a>, NoMemory>
    ensures { IfOk result (λ t. told_view t ≡ plain.told rule (map lexeme_view tokens.now) (told_views parts.entry)) }
{
    match told_quietly(rule, tokens, &parts) {
        Some(told) => Ok(told),
        None => boxed(alloc, heading_of(rule, tokens, headings_in(parts))),
    }
}
