//! Members, behind their modifiers and beside each other.

ghost use Rattle.std.specs.Prelude.{◌≡◌, ◌∷◌, [], map};
ghost use Rattle.jd_java_tokens.specs.Lexemes.{lexeme_view};
ghost use Rattle.jd_syntax.specs.JavaTypes.{identifier_view, written_view};
ghost use Rattle.jd_syntax.specs.SpecTrees.{spec_block_view};
ghost use Rattle.jd_syntax.specs.JavaTrees.{FieldMember, field_view, member_view, result_view};
ghost use Rattle.jd_java_values.specs.Parts as part;
ghost use Rattle.jd_java_values.specs.Views.{Gives, backwards, declared_view, in_order, parts_view, value_view};
ghost use Rattle.jd_java_members.specs.Meaning as plain;
ghost use Rattle.jd_java_members.specs.declared.action.Action.TheVariants as actions;

use crate::blocks::{body_of, with_first};
use jd_base::NoMemory;
use jd_grammar::NodeParts;
use jd_java_tokens::{Lexeme, place_of};
use jd_java_values::{
    Declared, Value, appended, body, discard, in_order, modifiers, put_first, taken,
};
use jd_syntax::{
    ConstantDecl, FieldDecl, Identifier, JavaType, Member, MethodDecl, ResultType, SpecBlock,
    WrittenType,
};
use std::alloc::Global;

// The type of what is given; something else where nothing is.
fn given_type(gives: ResultType) -> WrittenType
    ensures { written_view result ≡ plain.given_type (result_view gives) }
{
    match gives {
        ResultType::Gives(written) => written,
        other => {
            discard(other);
            WrittenType {
                at: 0,
                written: JavaType::Int,
            }
        }
    }
}

// Whether a member is static with or without that modifier; a constructor is not.
fn stays_static(is_static: bool, gives: &ResultType) -> bool
    ensures { result ≡ plain.is_static is_static (result_view gives.now) }
{
    match gives {
        ResultType::Constructor => false,
        _ => is_static,
    }
}

// A field's declaration, with one more field before the others.
fn field_of(field: FieldDecl, name: Identifier) -> Result<Member, NoMemory>
    ensures { let f = field_view field in Gives member_view result (FieldMember (record f { names = identifier_view name ∷ f.names })) }
{
    let mut field = field;
    match put_first(&mut field.names, name) {
        Ok(()) => Ok(Member::Field(field)),
        Err(error) => {
            discard(field);
            Err(error)
        }
    }
}

// A member that begins at that place, with these modifiers; their JML is in order.
fn member_of(
    at: u32,
    modifiers: (bool, Vec<SpecBlock>),
    gives: ResultType,
    name: Identifier,
    declared: Declared,
) -> Result<Member, NoMemory>
    ensures { Gives member_view result (plain.member_of at modifiers.0 (in_order spec_block_view modifiers.1) (result_view gives) (identifier_view name) (declared_view declared)) }
{
    let (is_static, specs) = modifiers;
    match declared {
        Declared::FieldNames(names) => {
            field_of(
                FieldDecl {
                    at,
                    specs,
                    ty: given_type(gives),
                    names,
                },
                name,
            )
        }
        Declared::Constant(value) => {
            discard(gives);
            Ok(Member::Constant(ConstantDecl {
                at,
                specs,
                name,
                value,
            }))
        }
        Declared::Routine(parameters, body) => {
            let is_static = stays_static(is_static, &gives);
            Ok(Member::Method(MethodDecl {
                at,
                specs,
                is_static,
                result: gives,
                name,
                parameters,
                body,
            }))
        }
    }
}

// A member that begins at that place, with these modifiers, if it is one.
fn member_at(
    alloc: Global,
    at: u32,
    modifiers: (bool, Vec<SpecBlock>),
    value: Value,
) -> Result<Value, NoMemory>
    ensures { Gives value_view result (plain.member_at at modifiers.0 (in_order spec_block_view modifiers.1) (value_view value)) }
{
    match value {
        Value::Declaration(gives, name, declared) => {
            with_first(
                Vec::new(alloc),
                member_of(at, modifiers, gives, name, declared),
                None,
            )
        }
        other => {
            discard(modifiers);
            discard(other);
            Ok(Value::Body(Vec::new(alloc), None))
        }
    }
}

// Whether `static` is among the modifiers, and the JML at them, in order.
#[tactic(auto, using(jd_lists::proofs::Backwards::map_reverse))]
fn modifiers_in_order(alloc: Global, value: &mut Value) -> (bool, Vec<SpecBlock>)
    ensures modifiers { result.0 ≡ part.static_of (value_view value.old) }
    ensures blocks { in_order spec_block_view result.1 ≡ part.blocks_of (value_view value.old) }
{
    let (is_static, blocks) = modifiers(alloc, taken(value));
    (is_static, in_order(blocks))
}

/// A member that begins at that place, behind its modifiers.
pub fn member(
    alloc: Global,
    tokens: &[Lexeme<'_>],
    parts: &mut NodeParts<Value>,
) -> Result<Value, NoMemory>
    ensures { Gives value_view result (plain.meaning actions.Member (map lexeme_view tokens.now) (parts_view parts.old)) }
{
    let modifiers = modifiers_in_order(alloc, &mut parts.first);
    member_at(
        alloc,
        place_of(0, tokens),
        modifiers,
        taken(&mut parts.second),
    )
}

// The members alone.
fn members(alloc: Global, value: &mut Value) -> Vec<Member>
    ensures { backwards member_view result ≡ part.members_of (value_view value.old) }
{
    let (members, end) = body(alloc, taken(value));
    discard(end);
    members
}

/// Members before others.
#[tactic(auto, using(jd_lists::proofs::Backwards::reversed_append))]
pub fn members_before(alloc: Global, parts: &mut NodeParts<Value>) -> Result<Value, NoMemory>
    ensures { Gives value_view result (plain.meaning actions.Members [] (parts_view parts.old)) }
{
    let before = members(alloc, &mut parts.first);
    let (behind, end) = body(alloc, taken(&mut parts.second));
    body_of(appended(behind, before), end)
}
