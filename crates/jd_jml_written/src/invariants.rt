//! The invariants of a class.

ghost use Rattle.std.specs.Prelude.{◌≡◌, ◌++◌, IfOk, OnOk, flat_map, map};
ghost use Rattle.jd_jml_copies.specs.NotNull as compared;
ghost use Rattle.jd_jml_written.specs.Marked as marked;
ghost use Rattle.jd_specifications.specs.WrittenCases.{all_clauses};
ghost use Rattle.jd_syntax.specs.JavaTrees.{class_view, field_view, member_view};
ghost use Rattle.jd_syntax.specs.JavaTypes.{identifier_view, type_view};
ghost use Rattle.jd_syntax.specs.SpecTrees.{spec_block_view, spec_view};

use crate::marks::{Mark, has_mark};
use crate::said::{Wanted, add_block, add_expressions};
use jd_base::NoMemory;
use jd_jml_copies::not_null;
use jd_lists::put;
use jd_syntax::{ClassDecl, FieldDecl, Identifier, JavaType, Member, SpecBlock, SpecExpr};
use std::alloc::Global;

fn holds_reference(t: &JavaType) -> bool
    ensures { result ≡ marked.holds_reference (type_view t.now) }
{
    match t {
        JavaType::Int | JavaType::Boolean => false,
        JavaType::IntArray | JavaType::Named(_) => true,
    }
}

// Adds those that are written at places.
#[tactic(auto, using(jd_syntax::proofs::Lists::rest))]
fn add_blocks(alloc: Global, made: &mut Vec<SpecExpr>, bs: &[SpecBlock]) -> Result<(), NoMemory>
    ensures { OnOk result (map spec_view made.new.items ≡ map spec_view made.old.items ++ marked.written_invariants (all_clauses (map spec_block_view bs.now))) }
{
    for b in bs {
        add_expressions(alloc, Wanted::Invariants, made, &b.clauses)?;
    }
    Ok(())
}

// Adds that fields are not null.
#[tactic(auto, using(jd_syntax::proofs::Lists::rest))]
fn add_not_null(alloc: Global, made: &mut Vec<SpecExpr>, xs: &[Identifier]) -> Result<(), NoMemory>
    ensures { OnOk result (map spec_view made.new.items ≡ map spec_view made.old.items ++ map compared.not_null (map identifier_view xs.now)) }
{
    for x in xs {
        put(made, not_null(alloc, x)?)?;
    }
    Ok(())
}

// Adds what a field's type says.
fn add_field(alloc: Global, made: &mut Vec<SpecExpr>, f: &FieldDecl) -> Result<(), NoMemory>
    ensures { OnOk result (map spec_view made.new.items ≡ map spec_view made.old.items ++ marked.field_invariants (field_view f.now)) }
{
    if !holds_reference(&f.ty.written) {
        return Ok(());
    }
    if has_mark(Mark::Nullable, &f.specs) {
        return Ok(());
    }
    add_not_null(alloc, made, &f.names)
}

fn add_member(alloc: Global, made: &mut Vec<SpecExpr>, m: &Member) -> Result<(), NoMemory>
    ensures { OnOk result (map spec_view made.new.items ≡ map spec_view made.old.items ++ marked.member_invariants (member_view m.now)) }
{
    match m {
        Member::Field(f) => {
            add_blocks(alloc, made, &f.specs)?;
            add_field(alloc, made, f)
        }
        Member::Constant(c) => add_blocks(alloc, made, &c.specs),
        Member::Method(m) => add_blocks(alloc, made, &m.specs),
    }
}

// Adds those that stand at members.
#[tactic(auto, using(jd_syntax::proofs::Lists::rest))]
fn add_members(alloc: Global, made: &mut Vec<SpecExpr>, ms: &[Member]) -> Result<(), NoMemory>
    ensures { OnOk result (map spec_view made.new.items ≡ map spec_view made.old.items ++ flat_map marked.member_invariants (map member_view ms.now)) }
{
    for m in ms {
        add_member(alloc, made, m)?;
    }
    Ok(())
}

/// The invariants that a class declares itself, in the order of the text (JML Reference Manual, 8.2).
///
/// # Errors
///
/// `NoMemory`.
pub fn class_invariants(alloc: Global, c: &ClassDecl) -> Result<Vec<SpecExpr>, NoMemory>
    ensures { IfOk result (λ v. map spec_view v.items ≡ marked.class_invariants (class_view c.now)) }
{
    let mut made = Vec::new(alloc);
    add_members(alloc, &mut made, &c.members)?;
    add_block(alloc, Wanted::Invariants, &mut made, &c.end)?;
    Ok(made)
}
