//! The clauses of the JML of classes and their members put in.

ghost use Rattle.std.specs.Prelude.{◌≡◌, map};
ghost use Rattle.std.specs.List.{flat_map};
ghost use Rattle.jd_lex.specs.View.{tokens_view};
ghost use Rattle.jd_syntax.specs.JavaTrees.{MethodMember, class_view, member_view, method_view, parameter_view};
ghost use Rattle.jd_jmlparse.specs.Filled.{bare_class, bare_member, bare_parameter, class_blocks, member_blocks, parameter_blocks};
ghost use Rattle.jd_jmlparse.specs.Filling.{Goes};

use super::blocks::{fill_blocks, fill_optional};
use super::refused::Cause;
use super::statements::fill_stmts;
use jd_lex::Token;
use jd_syntax::{ClassDecl, Member, MethodDecl, Parameter};
use std::alloc::Global;

// Puts the clauses of the JML of a parameter in.
fn fill_parameter(
    alloc: Global,
    parameter: &mut Parameter,
    tokens: &[Token],
    first: Option<Cause>,
) -> Option<Cause>
    ensures same { bare_parameter (parameter_view parameter.new) ≡ bare_parameter (parameter_view parameter.old) }
    ensures goes { Goes (tokens_view tokens.now) first (parameter_blocks (parameter_view parameter.new)) result }
{
    fill_blocks(alloc, &mut parameter.specs, tokens, first)
}

// Puts the clauses of the JML of parameters in.
#[tactic(auto, using(crate::proofs::Going::going))]
fn fill_parameters(
    alloc: Global,
    parameters: &mut [Parameter],
    tokens: &[Token],
    first: Option<Cause>,
) -> Option<Cause>
    ensures same { map bare_parameter (map parameter_view parameters.new) ≡ map bare_parameter (map parameter_view parameters.old) }
    ensures goes { Goes (tokens_view tokens.now) first (flat_map parameter_blocks (map parameter_view parameters.new)) result }
{
    let mut first = first;
    for i in 0..parameters.len() {
        first = fill_parameter(alloc, &mut parameters[i], tokens, first);
    }
    first
}

// Puts the clauses of the JML of a method or a constructor in.
fn fill_method(
    alloc: Global,
    method: &mut MethodDecl,
    tokens: &[Token],
    first: Option<Cause>,
) -> Option<Cause>
    ensures same { bare_member (MethodMember (method_view method.new)) ≡ bare_member (MethodMember (method_view method.old)) }
    ensures goes { Goes (tokens_view tokens.now) first (member_blocks (MethodMember (method_view method.new))) result }
{
    let first = fill_blocks(alloc, &mut method.specs, tokens, first);
    let first = fill_parameters(alloc, &mut method.parameters, tokens, first);
    fill_stmts(alloc, &mut method.body, tokens, first)
}

// Puts the clauses of the JML of a member in.
fn fill_member(
    alloc: Global,
    member: &mut Member,
    tokens: &[Token],
    first: Option<Cause>,
) -> Option<Cause>
    ensures same { bare_member (member_view member.new) ≡ bare_member (member_view member.old) }
    ensures goes { Goes (tokens_view tokens.now) first (member_blocks (member_view member.new)) result }
{
    match member {
        Member::Field(field) => fill_blocks(alloc, &mut field.specs, tokens, first),
        Member::Constant(constant) => fill_blocks(alloc, &mut constant.specs, tokens, first),
        Member::Method(method) => fill_method(alloc, method, tokens, first),
    }
}

// Puts the clauses of the JML of members in.
#[tactic(auto, using(crate::proofs::Going::going))]
fn fill_members(
    alloc: Global,
    members: &mut [Member],
    tokens: &[Token],
    first: Option<Cause>,
) -> Option<Cause>
    ensures same { map bare_member (map member_view members.new) ≡ map bare_member (map member_view members.old) }
    ensures goes { Goes (tokens_view tokens.now) first (flat_map member_blocks (map member_view members.new)) result }
{
    let mut first = first;
    for i in 0..members.len() {
        first = fill_member(alloc, &mut members[i], tokens, first);
    }
    first
}

// Puts the clauses of the JML of a class in.
fn fill_class(
    alloc: Global,
    class: &mut ClassDecl,
    tokens: &[Token],
    first: Option<Cause>,
) -> Option<Cause>
    ensures same { bare_class (class_view class.new) ≡ bare_class (class_view class.old) }
    ensures goes { Goes (tokens_view tokens.now) first (class_blocks (class_view class.new)) result }
{
    let first = fill_members(alloc, &mut class.members, tokens, first);
    fill_optional(alloc, &mut class.end, tokens, first)
}

// Puts the clauses of the JML of classes in.
#[tactic(auto, using(crate::proofs::Going::going))]
pub(super) fn fill_classes(
    alloc: Global,
    classes: &mut [ClassDecl],
    tokens: &[Token],
    first: Option<Cause>,
) -> Option<Cause>
    ensures same { map bare_class (map class_view classes.new) ≡ map bare_class (map class_view classes.old) }
    ensures goes { Goes (tokens_view tokens.now) first (flat_map class_blocks (map class_view classes.new)) result }
{
    let mut first = first;
    for i in 0..classes.len() {
        first = fill_class(alloc, &mut classes[i], tokens, first);
    }
    first
}
