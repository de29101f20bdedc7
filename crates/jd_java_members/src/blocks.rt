//! JML at modifiers, before members and before the brace that closes a class.

ghost use Rattle.std.specs.Prelude.{◌≡◌, ◌∷◌, List, map, option_map};
ghost use Rattle.jd_java_tokens.specs.Lexemes.{lexeme_view};
ghost use Rattle.jd_syntax.specs.SpecTrees.{spec_block_view};
ghost use Rattle.jd_syntax.specs.JavaTrees.{JavaMember, FieldMember, ConstantMember, MethodMember, field_view, constant_view, method_view, member_view};
ghost use Rattle.jd_java_values.specs.Values.{Body};
ghost use Rattle.jd_java_values.specs.Views.{Gives, backwards, parts_view, value_view};
ghost use Rattle.jd_java_members.specs.Meaning as plain;
ghost use Rattle.jd_java_members.specs.declared.action.Action.TheVariants as actions;

use jd_base::{NoMemory, both};
use jd_grammar::NodeParts;
use jd_java_tokens::{Lexeme, run_of};
use jd_java_values::{Value, body, discard, ended, last_apart, put_first, taken};
use jd_syntax::{ConstantDecl, FieldDecl, Member, MethodDecl, SpecBlock, SpecPlace};
use std::alloc::Global;

/// The JML that the first token is, at a place; its clauses are read later.
pub fn block_at(alloc: Global, place: SpecPlace, tokens: &[Lexeme<'_>]) -> SpecBlock
    ensures { spec_block_view result ≡ plain.block_at place (map lexeme_view tokens.now) }
{
    let (from, to) = run_of(tokens);
    SpecBlock {
        place,
        from,
        to,
        clauses: Vec::new(alloc),
    }
}

// A field's declaration behind JML.
fn annotated_field(block: SpecBlock, field: FieldDecl) -> Result<Member, NoMemory>
    ensures { let f = field_view field in Gives member_view result (FieldMember (record f { specs = spec_block_view block ∷ f.specs })) }
{
    let mut field = field;
    match put_first(&mut field.specs, block) {
        Ok(()) => Ok(Member::Field(field)),
        Err(error) => {
            discard(field);
            Err(error)
        }
    }
}

// A constant's declaration behind JML.
fn annotated_constant(block: SpecBlock, constant: ConstantDecl) -> Result<Member, NoMemory>
    ensures { let c = constant_view constant in Gives member_view result (ConstantMember (record c { specs = spec_block_view block ∷ c.specs })) }
{
    let mut constant = constant;
    match put_first(&mut constant.specs, block) {
        Ok(()) => Ok(Member::Constant(constant)),
        Err(error) => {
            discard(constant);
            Err(error)
        }
    }
}

// A method's declaration behind JML.
fn annotated_method(block: SpecBlock, method: MethodDecl) -> Result<Member, NoMemory>
    ensures { let m = method_view method in Gives member_view result (MethodMember (record m { specs = spec_block_view block ∷ m.specs })) }
{
    let mut method = method;
    match put_first(&mut method.specs, block) {
        Ok(()) => Ok(Member::Method(method)),
        Err(error) => {
            discard(method);
            Err(error)
        }
    }
}

// A member behind the JML that the first token is.
fn annotated(alloc: Global, tokens: &[Lexeme<'_>], member: Member) -> Result<Member, NoMemory>
    ensures { Gives member_view result (plain.annotated (map lexeme_view tokens.now) (member_view member)) }
{
    match member {
        Member::Field(field) => annotated_field(block_at(alloc, SpecPlace::Field, tokens), field),
        Member::Constant(constant) => annotated_constant(
            block_at(alloc, SpecPlace::Field, tokens),
            constant,
        ),
        Member::Method(method) => annotated_method(
            block_at(alloc, SpecPlace::Method, tokens),
            method,
        ),
    }
}

/// Members, and the JML before the closing brace.
pub fn body_of(
    members: Result<Vec<Member>, NoMemory>,
    end: Option<SpecBlock>,
) -> Result<Value, NoMemory>
    ensures { (x : List JavaMember) → Gives (backwards member_view) members x → Gives value_view result (Body x (option_map spec_block_view end)) }
{
    let (members, end) = both(members, Ok(end))?;
    Ok(Value::Body(members, end))
}

/// Members behind one that comes first, if it has been made, and the JML before the closing brace.
#[tactic(auto, using(jd_lists::proofs::Backwards::last_first))]
pub fn with_first(
    members: Vec<Member>,
    member: Result<Member, NoMemory>,
    end: Option<SpecBlock>,
) -> Result<Value, NoMemory>
    ensures { (x : JavaMember) → Gives member_view member x → Gives value_view result (Body (x ∷ backwards member_view members) (option_map spec_block_view end)) }
{
    body_of(ended(members, member), end)
}

// JML before the first of these members, or before the closing brace where there is none.
#[tactic(auto, using(jd_lists::proofs::Backwards::last_first))]
fn annotated_body(
    alloc: Global,
    tokens: &[Lexeme<'_>],
    members: Vec<Member>,
    end: Option<SpecBlock>,
) -> Result<Value, NoMemory>
    ensures { Gives value_view result (plain.annotated_body (map lexeme_view tokens.now) (backwards member_view members) (option_map spec_block_view end)) }
{
    let (members, last) = last_apart(members);
    match last {
        Some(member) => with_first(members, annotated(alloc, tokens, member), end),
        None => {
            discard(end);
            Ok(Value::Body(members, Some(block_at(alloc, SpecPlace::ClassEnd, tokens))))
        }
    }
}

/// JML before members or the closing brace.
pub fn body_behind(
    alloc: Global,
    tokens: &[Lexeme<'_>],
    parts: &mut NodeParts<Value>,
) -> Result<Value, NoMemory>
    ensures { Gives value_view result (plain.meaning actions.SpecsBefore (map lexeme_view tokens.now) (parts_view parts.old)) }
{
    let (members, end) = body(alloc, taken(&mut parts.first));
    annotated_body(alloc, tokens, members, end)
}
