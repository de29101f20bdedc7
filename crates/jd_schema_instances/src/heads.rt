//! Instances of what is a variable or given.

ghost use Rattle.std.specs.Prelude.{◌≡◌, IfOk, Some, option_map};
ghost use Rattle.jd_code_makers.specs.Makers.{GivesName};
ghost use Rattle.jd_patterns.specs.Instances.{of_class, of_kind, of_modality, of_name, of_result, of_sort};
ghost use Rattle.jd_schema_instances.specs.Choosing.{instance_by, program_by};
ghost use Rattle.jd_patterns.specs.Patterns.{ClassOf};
ghost use Rattle.jd_schema_trees.specs.HeadViews.{class_pattern, machine_class, kind_pattern, modality_pattern, name_pattern, result_pattern, sort_pattern};
ghost use Rattle.jd_syntax.specs.CodeViews.{kind_view};
ghost use Rattle.jd_syntax.specs.Names.{Name, var_view};

use crate::bound::{PartKind, bound_to};
use crate::choice::Chosen;
use crate::parts::{as_class, as_kind, as_modality, as_name, as_result, as_sort};
use jd_base::{ClassId, NoMemory, Sort};
use jd_schema_trees::{MachineClass, SClass, SKind, SModality, SName, SResult, SSort};
use jd_syntax::{Kind, VarId};
use jd_term::Modality;
use std::alloc::Global;

/// The sort that the pattern means.
pub fn instance_sort(p: &SSort, by: &Chosen<'_, '_>) -> Sort
    ensures { result ≡ of_sort (program_by by.now) (instance_by by.now) (sort_pattern p.now) }
{
    match p {
        SSort::Variable(n) => as_sort(bound_to(by, PartKind::Sort, n)),
        SSort::Given(s) => *s,
    }
}

/// The class or `int[]` that the pattern means.
pub fn instance_kind(p: &SKind, by: &Chosen<'_, '_>) -> Kind
    ensures { kind_view result ≡ of_kind (program_by by.now) (instance_by by.now) (kind_pattern p.now) }
{
    match p {
        SKind::Variable(n) => as_kind(bound_to(by, PartKind::Kind, n)),
        SKind::Given(k) => *k,
    }
}

/// The modality that the pattern means.
pub fn instance_modality(p: &SModality, by: &Chosen<'_, '_>) -> Modality
    ensures { result ≡ of_modality (program_by by.now) (instance_by by.now) (modality_pattern p.now) }
{
    match p {
        SModality::Variable(n) => as_modality(bound_to(by, PartKind::Modality, n)),
        SModality::Given(m) => *m,
    }
}

/// The variable that the pattern means.
pub fn instance_name(alloc: Global, p: &SName, by: &Chosen<'_, '_>) -> Result<VarId, NoMemory>
    ensures { IfOk result (λ v. var_view v ≡ of_name (program_by by.now) (instance_by by.now) (name_pattern p.now)) }
{
    match p {
        SName::Variable(n) => as_name(alloc, bound_to(by, PartKind::Name, n)),
        SName::Given(x) => x.copy(alloc),
    }
}

// A variable that is there, if it has been made.
fn some(x: Result<VarId, NoMemory>) -> Result<Option<VarId>, NoMemory>
    ensures { (n : Name) → GivesName x n → IfOk result (λ r. option_map var_view r ≡ Some n) }
{
    Ok(Some(x?))
}

/// The variable that takes a frame's result, as the pattern means.
pub fn instance_result(
    alloc: Global,
    p: &SResult,
    by: &Chosen<'_, '_>,
) -> Result<Option<VarId>, NoMemory>
    ensures { IfOk result (λ r. option_map var_view r ≡ of_result (program_by by.now) (instance_by by.now) (result_pattern p.now)) }
{
    match p {
        SResult::NoResult => Ok(None),
        SResult::In(x) => some(instance_name(alloc, x, by)),
        SResult::Variable(n) => as_result(alloc, bound_to(by, PartKind::Result, n)),
    }
}

// The class of what the machine throws.
fn thrown(c: MachineClass, by: &Chosen<'_, '_>) -> ClassId
    ensures { result.0 ≡ of_class (program_by by.now) (instance_by by.now) (ClassOf (machine_class c)) }
{
    match c {
        MachineClass::NullPointer => by.machine.null_pointer,
        MachineClass::DivisionByZero => by.machine.division_by_zero,
        MachineClass::OutOfBounds => by.machine.out_of_bounds,
        MachineClass::BadCast => by.machine.bad_cast,
        MachineClass::NegativeSize => by.machine.negative_size,
    }
}

/// The class that the pattern means.
pub fn instance_class(p: &SClass, by: &Chosen<'_, '_>) -> ClassId
    ensures { result.0 ≡ of_class (program_by by.now) (instance_by by.now) (class_pattern p.now) }
{
    match p {
        SClass::Variable(n) => as_class(bound_to(by, PartKind::Class, n)),
        SClass::Of(c) => thrown(*c, by),
    }
}
