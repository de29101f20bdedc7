//! The parameters of a case, by the names of the body that runs.

ghost use Rattle.std.specs.Prelude.{◌≡◌, false, IfOk, map};
ghost use Rattle.std.specs.List.{slice_get};
ghost use Rattle.std.specs.Option.{unwrap_or};
ghost use Rattle.jd_bodies.specs.Declarations.{Declarations};
ghost use Rattle.jd_case_heads.specs.Parameters.{constant_names, own_constant, respelled_name, spelled_parameter};
ghost use Rattle.jd_case_rows.specs.Rows.{respelled};
ghost use Rattle.jd_jml_written.specs.Marked.{nullable_parameters};
ghost use Rattle.jd_row_makers.specs.Heads as rows;
ghost use Rattle.jd_row_makers.specs.Heads.{declared_view, type_view};
ghost use Rattle.jd_specifications.specs.WrittenCases as plain;
ghost use Rattle.jd_specifications.specs.WrittenCases.{model_type};
ghost use Rattle.jd_syntax.specs.JavaTrees.{parameter_view};
ghost use Rattle.jd_syntax.specs.JavaTypes.{written_view};
ghost use Rattle.jd_term.specs.TermViews.{const_view};

use jd_base::NoMemory;
use jd_bodies::ValueType;
use jd_jml_known::{kind_of, sort_of_value};
use jd_judging::type_by;
use jd_lists::put;
use jd_naming::Declares;
use jd_row_makers::{ContractType, DeclaredType, Parameter, parameter_constant};
use jd_syntax::{Parameter as JavaParameter, VarDecl, WrittenType};
use jd_term::ConstId;
use std::alloc::Global;

// The type as contracts have it.
fn contract_type(t: ValueType) -> ContractType
    ensures { (d : Declarations) → type_view result ≡ model_type d t }
{
    match t {
        ValueType::Int => ContractType::Int,
        ValueType::Boolean => ContractType::Boolean,
        ValueType::Null => ContractType::Reference(kind_of(t)),
        ValueType::IntArray => ContractType::Reference(kind_of(t)),
        ValueType::Class(_) => ContractType::Reference(kind_of(t)),
        ValueType::Missing => ContractType::Reference(kind_of(t)),
    }
}

/// A written type with its mark.
pub(crate) fn declared_type<D: Declares>(d: &D, w: &WrittenType, nullable: bool) -> DeclaredType
    ensures { declared_view result ≡ plain.declared_type (D.declarations d.now) (written_view w.now) nullable }
{
    DeclaredType {
        form: contract_type(type_by(d, &w.written)),
        nullable,
    }
}

// The constant of a parameter by its own name.
fn own_constant<D: Declares>(alloc: Global, d: &D, x: &JavaParameter) -> Result<ConstId, NoMemory>
    ensures { IfOk result (λ c. const_view c ≡ own_constant (D.declarations d.now) (parameter_view x.now)) }
{
    parameter_constant(
        alloc,
        &x.name.name,
        sort_of_value(type_by(d, &x.ty.written)),
    )
}

// The constant of the parameter at a position.
fn constant<D: Declares>(
    alloc: Global,
    d: &D,
    x: &JavaParameter,
    variables: &[VarDecl],
    position: usize,
) -> Result<ConstId, NoMemory>
    ensures { IfOk result (λ c. const_view c ≡ respelled_name (slice_get (constant_names variables.now) position) (plain.parameter (D.declarations d.now) (parameter_view x.now))) }
{
    if position < variables.len() {
        let v = &variables[position];
        parameter_constant(alloc, &v.name, v.sort)
    } else {
        own_constant(alloc, d, x)
    }
}

// Whether the parameter at a position is marked.
fn is_nullable(nullable: &[bool], position: usize) -> bool
    ensures { result ≡ unwrap_or (slice_get nullable.now position) false }
{
    if position < nullable.len() {
        nullable[position]
    } else {
        false
    }
}

// The parameter at a position.
fn parameter<D: Declares>(
    alloc: Global,
    d: &D,
    x: &JavaParameter,
    nullable: bool,
    variables: &[VarDecl],
    position: usize,
) -> Result<Parameter, NoMemory>
    ensures { IfOk result (λ q. rows.parameter_view q ≡ spelled_parameter (D.declarations d.now) (constant_names variables.now) position (parameter_view x.now) nullable) }
{
    let constant = constant(alloc, d, x, variables, position)?;
    Ok(Parameter {
        constant,
        declared: declared_type(d, &x.ty, nullable),
    })
}

/// The parameters of a method, of which some are marked, with the constants of the variables of the body that runs.
pub(crate) fn parameters<D: Declares>(
    alloc: Global,
    d: &D,
    xs: &[JavaParameter],
    nullable: &[bool],
    variables: &[VarDecl],
) -> Result<Vec<Parameter>, NoMemory>
    ensures { nullable.now ≡ nullable_parameters (map parameter_view xs.now) → IfOk result (λ v. map rows.parameter_view v.items ≡ respelled (constant_names variables.now) (map (plain.parameter (D.declarations d.now)) (map parameter_view xs.now))) }
{
    let mut made = Vec::new(alloc);
    for i in 0..xs.len() {
        let marked = is_nullable(nullable, i);
        put(
            &mut made,
            parameter(alloc, d, &xs[i], marked, variables, i)?,
        )?;
    }
    Ok(made)
}
