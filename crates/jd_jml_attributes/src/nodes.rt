//! The attributes of the JML at a whole place.

ghost use Rattle.std.specs.Prelude.{◌≡◌, IfOk, IfSome, length, map};
ghost use Rattle.jd_grammar.specs.Counted.{IsKept, IsQuiet};
ghost use Rattle.jd_grammar.specs.Nodes.{IsRead, IsReadAs, Rooted};
ghost use Rattle.jd_jml_tokens.specs.Lexemes.{lexeme_view};
ghost use Rattle.jd_jml_attributes.specs.Forms.{form_view};
ghost use Rattle.jd_jml_attributes.specs.Judging as plain;
ghost use Rattle.jd_jml_attributes.specs.Judging.{names_of};
ghost use Rattle.jd_jml_attributes.specs.Short.{IsFormAt, no_form};

use crate::form::{EMPTY, Form};
use crate::rows::{names_of, row};
use crate::rules::form_of;
use crate::short::{kept_parts, quiet_parts};
use jd_base::NoMemory;
use jd_grammar::{Blank, NodeParts, Nodes, Piles, value_of};
use jd_jml_tokens::Lexeme;
use std::alloc::Global;

const NOTHING: NodeParts<Form<'static>> = NodeParts {
    first: EMPTY,
    second: EMPTY,
    third: EMPTY,
    fourth: EMPTY,
};

/// The nodes of JML, which stand for their attributes.
#[derive(Clone, Copy)]
pub struct JmlNodes;

impl<'a> Blank for Form<'a> {
    ghost nothing = { no_form };

    fn nothing() -> Form<'a> {
        EMPTY
    }
}

impl<'a> Nodes<Lexeme<'a>, Form<'a>> for JmlNodes {
    ghost count = { λ _. names_of };

    ghost stands = { λ _. IsFormAt };

    fn quiet_parts(&self, production: u16) -> Option<u8>
        ensures { IfSome result (λ n. IsQuiet names_of IsFormAt no_form production n) }
    {
        quiet_parts(production)
    }

    fn kept_parts(&self, production: u16, first: &Form<'a>) -> Option<u8>
        ensures { IfSome result (λ n. IsKept names_of IsFormAt no_form production n first.now) }
    {
        kept_parts(production, first)
    }

    fn reduce(
        &self,
        _alloc: Global,
        production: u16,
        tokens: &[Lexeme<'a>],
        piles: &mut Piles<Form<'a>>,
    ) -> Result<(), NoMemory> {
        let (_, rule) = row(production);
        let parts = piles.take_parts(names_of(production), NOTHING);
        piles.add(form_of(rule, tokens, parts))
    }
}

/// The attributes of the JML with this preorder.
pub fn judge<'a>(alloc: Global, order: &[u16], lexemes: &[Lexeme<'a>]) -> Result<Form<'a>, NoMemory>
    requires read { IsRead names_of order.now (length lexemes.now) }
    ensures { (tree : Rooted) → IsReadAs tree names_of order.now (length lexemes.now) → IfOk result (λ f. plain.form_of tree.forest (map lexeme_view lexemes.now) ≡ form_view f) }
{
    value_of(alloc, &JmlNodes, order, lexemes)
}
