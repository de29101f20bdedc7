//! Which token of the JML of a class's members is refused first.

ghost use Rattle.std.specs.Prelude.{◌≡◌, [], false, IfErr, None, Ok, OnOk, map, option_map};
ghost use Rattle.std.specs.Option.{option_copied};
ghost use Rattle.jd_jml_judging.specs.Contexts.{around_view, said, sofar_view};
ghost use Rattle.jd_jml_judging.specs.Visible.{locals_of};
ghost use Rattle.jd_jml_members.specs.Judged.{IsStop, kept};
ghost use Rattle.jd_specifications.specs.Clauses as plain_clauses;
ghost use Rattle.jd_specifications.specs.Refused as plain;
ghost use Rattle.jd_syntax.specs.JavaTrees.{member_view, method_view, result_view};
ghost use Rattle.jd_syntax.specs.SpecTrees.{spec_block_view};

use crate::entering::{Method, enter_parameters};
use crate::statements::stmts;
use crate::stop::Stop;
use jd_bodies::{Place, ValueType};
use jd_jml_judging::{Around, MethodNames, Sofar, at_first, clauses};
use jd_judging::type_by;
use jd_naming::Declares;
use jd_specifications::SpecFault;
use jd_syntax::{Member, MethodDecl, ResultType, SpecBlock};
use std::alloc::Global;

// The clauses of a place.
fn block<D: Declares>(a: &Around<'_, D>, sofar: Sofar, b: &SpecBlock) -> Result<Sofar, SpecFault>
    ensures { said result ≡ plain_clauses.clauses (D.declarations a.now.declared.now) (around_view a.now) (sofar_view sofar) (spec_block_view b.now).clauses }
{
    let around = Around {
        declared: &*a.declared,
        names: &*a.names,
        place: a.place,
        result: a.result,
    };
    clauses(&around, sofar, &b.clauses)
}

// The clauses of places, one behind the other.
fn blocks<D: Declares>(a: &Around<'_, D>, s: Sofar, bs: &[SpecBlock]) -> Result<Sofar, SpecFault>
    ensures { said result ≡ plain.blocks (D.declarations a.now.declared.now) (around_view a.now) (sofar_view s) (map spec_block_view bs.now) }
{
    let mut sofar = s;
    for b in bs {
        sofar = block(a, sofar, b)?;
    }
    Ok(sofar)
}

// What a method gives.
fn gives<D: Declares>(d: &D, given: &ResultType) -> Option<ValueType>
    ensures { result ≡ plain.gives (D.declarations d.now) (result_view given.now) }
{
    match given {
        ResultType::Gives(w) => Some(type_by(d, &w.written)),
        ResultType::Void => None,
        ResultType::Constructor => None,
    }
}

// The contract before a method, whose parameters are in scope.
fn contract<D: Declares>(
    d: &D,
    names: &MethodNames,
    place: Place,
    m: &MethodDecl,
) -> Result<Sofar, SpecFault>
    ensures { said result ≡ plain.blocks (D.declarations d.now) (record { place = place; result = plain.gives (D.declarations d.now) (method_view m.now).result; locals = locals_of names.now }) plain_clauses.at_first (method_view m.now).specs }
{
    let around = Around {
        declared: &*d,
        names: &*names,
        place,
        result: gives(d, &m.result),
    };
    blocks(&around, at_first(), &m.specs)
}

// A method or constructor: its contract, then the loops in its body.
fn method<D: Declares>(
    alloc: Global,
    d: &D,
    names: &mut MethodNames,
    class: u32,
    m: &MethodDecl,
) -> Result<(), Stop>
    ensures ok { OnOk result (plain.method (D.declarations d.now) class (method_view m.now) ≡ Ok (locals_of names.new)) }
    ensures err { IfErr result (IsStop (plain.method (D.declarations d.now) class (method_view m.now))) }
{
    names.clear();
    enter_parameters(alloc, d, names, &m.parameters)?;
    let place = Place {
        class,
        is_static: m.is_static,
    };
    contract(d, names, place, m)?;
    let inside = Method {
        alloc,
        declared: &*d,
        place,
    };
    stmts(&inside, names, &m.body)
}

// The invariants at places, where nothing is in scope.
fn invariants<D: Declares>(
    d: &D,
    names: &MethodNames,
    class: u32,
    bs: &[SpecBlock],
) -> Result<(), SpecFault>
    requires { locals_of names.now ≡ [] }
    ensures { kept [] result ≡ plain.invariants (D.declarations d.now) class (map spec_block_view bs.now) }
{
    let around = Around {
        declared: &*d,
        names: &*names,
        place: Place {
            class,
            is_static: false,
        },
        result: None,
    };
    blocks(&around, at_first(), bs)?;
    Ok(())
}

// The same before the brace that closes a class.
fn last_invariants<D: Declares>(
    d: &D,
    names: &MethodNames,
    class: u32,
    end: Option<&SpecBlock>,
) -> Result<(), SpecFault>
    requires { locals_of names.now ≡ [] }
    ensures { kept [] result ≡ plain.members (D.declarations d.now) class [] (option_map spec_block_view (option_copied end.entry)) }
{
    match end {
        None => Ok(()),
        Some(b) => {
            let around = Around {
                declared: &*d,
                names: &*names,
                place: Place {
                    class,
                    is_static: false,
                },
                result: None,
            };
            clauses(&around, at_first(), &b.clauses)?;
            Ok(())
        }
    }
}

// A member.
fn member<D: Declares>(
    alloc: Global,
    d: &D,
    names: &mut MethodNames,
    class: u32,
    m: &Member,
) -> Result<(), Stop>
    ensures ok { OnOk result (plain.member (D.declarations d.now) class (member_view m.now) ≡ Ok (locals_of names.new)) }
    ensures err { IfErr result (IsStop (plain.member (D.declarations d.now) class (member_view m.now))) }
{
    match m {
        Member::Field(f) => {
            names.clear();
            invariants(d, names, class, &f.specs)?;
            Ok(())
        }
        Member::Constant(c) => {
            names.clear();
            invariants(d, names, class, &c.specs)?;
            Ok(())
        }
        Member::Method(m) => method(alloc, d, names, class, m),
    }
}

/// Looks for the first refused token of the JML of a class's members and before the brace that closes it.
///
/// # Errors
///
/// The first refused token, and of one token the least cause (JML Reference Manual, 8, 9, 12); or `NoMemory`.
pub fn judge_members<D: Declares>(
    alloc: Global,
    d: &D,
    names: &mut MethodNames,
    class: u32,
    members: &[Member],
    end: Option<&SpecBlock>,
) -> Result<(), Stop>
    ensures ok { OnOk result (plain.members (D.declarations d.now) class (map member_view members.now) (option_map spec_block_view (option_copied end.entry)) ≡ Ok []) }
    ensures err { IfErr result (IsStop (plain.members (D.declarations d.now) class (map member_view members.now) (option_map spec_block_view (option_copied end.entry)))) }
{
    for m in members {
        member(alloc, d, names, class, m)?;
    }
    names.clear();
    last_invariants(d, names, class, end)?;
    Ok(())
}
