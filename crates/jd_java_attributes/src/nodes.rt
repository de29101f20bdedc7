//! The attributes of a whole file: its form and what it tells of members, each by a fold of its own.

ghost use Rattle.std.specs.Prelude.{◌≡◌, ◌∷◌, IfOk, IfSome, OnOk, drop, length, map, take};
ghost use Rattle.jd_grammar.specs.Counted.{IsKept, IsQuiet, shown};
ghost use Rattle.jd_grammar.specs.Nodes.{IsRead, IsReadAs, Rooted};
ghost use Rattle.jd_java_tokens.specs.Lexemes.{lexeme_view};
ghost use Rattle.jd_java_attributes.specs.Folding.{IsFormAt, IsToldAt, form_at};
ghost use Rattle.jd_java_attributes.specs.Headings.{heading_view};
ghost use Rattle.jd_java_attributes.specs.Judging as plain;
ghost use Rattle.jd_java_attributes.specs.Judging.{attributes_of, attributes_view, names_of};
ghost use Rattle.jd_java_attributes.specs.declared.form.TheConstants.{EMPTY as NOTHING};
ghost use Rattle.jd_java_attributes.specs.declared.heading.Told.TheVariants as tells;

use crate::form::{EMPTY, Form, first_of};
use crate::heading::{Heading, Told, heading_in, told_by};
use crate::rows::{names_of, row};
use crate::rules::{form_alone, form_by};
use crate::short::{kept_form_parts, quiet_form_parts, quiet_told_parts};
use jd_base::NoMemory;
use jd_grammar::{Blank, NodeParts, Nodes, Piles, value_of};
use jd_java_tokens::Lexeme;
use std::alloc::Global;

/// The attributes of a node.
#[derive(Clone, Copy)]
pub struct Attributes<'a> {
    /// How high it is, and what may be done with it.
    pub form: Form,
    /// What it tells of a class's members.
    pub heading: Heading<'a>,
}

impl Attributes<'_> {
    /// The place of the first token with which no file goes on, if there is one.
    pub fn fault(self) -> Option<u32>
        ensures { result ≡ plain.fault_of (attributes_view self.entry) }
    {
        first_of(self.form.fault, self.heading.fault)
    }
}

const NO_FORMS: NodeParts<Form> = NodeParts {
    first: EMPTY,
    second: EMPTY,
    third: EMPTY,
    fourth: EMPTY,
};

const NOTHING_TOLD: NodeParts<Told<'static>> = NodeParts {
    first: Told::Nothing,
    second: Told::Nothing,
    third: Told::Nothing,
    fourth: Told::Nothing,
};

impl Blank for Form {
    ghost nothing = { NOTHING };

    fn nothing() -> Form {
        EMPTY
    }
}

impl<'a> Blank for Told<'a> {
    ghost nothing = { tells.Nothing };

    fn nothing() -> Told<'a> {
        Told::Nothing
    }
}

// The form of a node, whose parts are taken off the stack.
fn formed(production: u16, tokens: &[Lexeme<'_>], piles: &mut Piles<Form>) -> Form
    ensures value { result ≡ form_at production (map lexeme_view tokens.now) (take (names_of production) (shown NOTHING piles.old)) }
    ensures rest { shown NOTHING piles.new ≡ drop (names_of production) (shown NOTHING piles.old) }
{
    let row = row(production);
    if row.1 == 0 {
        return form_alone(row, tokens, EMPTY);
    }
    match piles.take_alone(row.1) {
        Some(first) => form_alone(row, tokens, first),
        None => {
            let parts = piles.take_parts(names_of(production), NO_FORMS);
            form_by(row, tokens, parts)
        }
    }
}

/// The nodes of Java's files, which stand for their forms.
#[derive(Clone, Copy)]
pub struct FormNodes;

impl<'a> Nodes<Lexeme<'a>, Form> for FormNodes {
    ghost count = { λ _. names_of };

    ghost stands = { λ _. IsFormAt };

    fn quiet_parts(&self, production: u16) -> Option<u8>
        ensures { IfSome result (λ n. IsQuiet names_of IsFormAt NOTHING production n) }
    {
        quiet_form_parts(production)
    }

    fn kept_parts(&self, production: u16, first: &Form) -> Option<u8>
        ensures { IfSome result (λ n. IsKept names_of IsFormAt NOTHING production n first.now) }
    {
        kept_form_parts(production, *first)
    }

    fn reduce(
        &self,
        _alloc: Global,
        production: u16,
        tokens: &[Lexeme<'a>],
        piles: &mut Piles<Form>,
    ) -> Result<(), NoMemory> {
        let form = formed(production, tokens, piles);
        piles.add(form)
    }
}

// Puts on top what a node tells; nothing is counted.
fn add_told<'a>(piles: &mut Piles<Told<'a>>, told: Told<'a>) -> Result<(), NoMemory>
    ensures { OnOk result (shown tells.Nothing piles.new ≡ told.entry ∷ shown tells.Nothing piles.old) }
{
    match told {
        Told::Nothing => piles.add_nothing(),
        other => piles.add(other),
    }
}

/// The nodes of Java's files, which stand for what they tell of members.
#[derive(Clone, Copy)]
pub struct HeadingNodes;

impl<'a> Nodes<Lexeme<'a>, Told<'a>> for HeadingNodes {
    ghost count = { λ _. names_of };

    ghost stands = { λ _. IsToldAt };

    fn quiet_parts(&self, production: u16) -> Option<u8>
        ensures { IfSome result (λ n. IsQuiet names_of IsToldAt tells.Nothing production n) }
    {
        quiet_told_parts(production)
    }

    fn kept_parts(&self, _production: u16, _first: &Told<'a>) -> Option<u8>
        ensures { IfSome result (λ n. IsKept names_of IsToldAt tells.Nothing _production n _first.now) }
    {
        None
    }

    fn reduce(
        &self,
        alloc: Global,
        production: u16,
        tokens: &[Lexeme<'a>],
        piles: &mut Piles<Told<'a>>,
    ) -> Result<(), NoMemory> {
        let parts = piles.take_parts(names_of(production), NOTHING_TOLD);
        let row = row(production);
        let told = told_by(alloc, row.2, tokens, parts)?;
        add_told(piles, told)
    }
}

// The form of the file with this preorder.
fn form_of_all(alloc: Global, order: &[u16], lexemes: &[Lexeme<'_>]) -> Result<Form, NoMemory>
    requires read { IsRead names_of order.now (length lexemes.now) }
    ensures { (tree : Rooted) → IsReadAs tree names_of order.now (length lexemes.now) → IfOk result (λ f. (attributes_of tree.forest (map lexeme_view lexemes.now)).form ≡ f) }
{
    value_of(alloc, &FormNodes, order, lexemes)
}

// What the file with this preorder tells of members.
fn heading_of_all<'a>(
    alloc: Global,
    order: &[u16],
    lexemes: &[Lexeme<'a>],
) -> Result<Heading<'a>, NoMemory>
    requires read { IsRead names_of order.now (length lexemes.now) }
    ensures { (tree : Rooted) → IsReadAs tree names_of order.now (length lexemes.now) → IfOk result (λ h. (attributes_of tree.forest (map lexeme_view lexemes.now)).heading ≡ heading_view h) }
{
    let told = value_of(alloc, &HeadingNodes, order, lexemes)?;
    Ok(heading_in(told))
}

/// The attributes of the file with this preorder.
pub fn judge<'a>(
    alloc: Global,
    order: &[u16],
    lexemes: &[Lexeme<'a>],
) -> Result<Attributes<'a>, NoMemory>
    requires read { IsRead names_of order.now (length lexemes.now) }
    ensures { (tree : Rooted) → IsReadAs tree names_of order.now (length lexemes.now) → IfOk result (λ a. attributes_of tree.forest (map lexeme_view lexemes.now) ≡ attributes_view a) }
{
    let form = form_of_all(alloc, order, lexemes)?;
    let heading = heading_of_all(alloc, order, lexemes)?;
    Ok(Attributes { form, heading })
}
