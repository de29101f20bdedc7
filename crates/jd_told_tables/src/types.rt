//! Types of fields, and the classes that declare them.

ghost use Rattle.std.specs.Prelude.{◌≡◌, option_map};
ghost use Rattle.std.specs.List.{slice_get};
ghost use Rattle.std.specs.Option.{option_and_then};
ghost use Rattle.jd_jinfos.specs.Views.{class_number, field_number};
ghost use Rattle.jd_model.specs.Programs.{field_sort, type_sort};
ghost use Rattle.jd_patterns.specs.Bindings.{TheKind};
ghost use Rattle.jd_sequent.specs.Obligations.{task_view};
ghost use Rattle.jd_syntax.specs.CodeViews.{kind_view};
ghost use Rattle.jd_syntax.specs.JavaTypes.{type_view};
ghost use Rattle.jd_taclet_matching.specs.OwnedParts.{owned_part};
ghost use Rattle.jd_taclet_stages.specs.Conditions.{reference_of};
ghost use Rattle.jd_task_classes.specs.Classes.{named_in};
ghost use Rattle.jd_task_classes.specs.Standing.{kind_named, type_in};
ghost use Rattle.jd_told_programs.specs.Told.{told_setting};
ghost use Rattle.jd_told_tables.specs.Types.{class_of_field, kind_declaring, type_meant};

use crate::classes::class_named;
use jd_base::{ClassId, FieldId, Sort};
use jd_sequent::Task;
use jd_syntax::{JavaType, Kind};
use jd_taclet_matching::OwnedPart;

/// The type of a field.
#[derive(Clone, Copy)]
pub enum FieldType {
    /// `int`
    Int,
    /// `boolean`
    Boolean,
    /// A class, or `int[]`.
    Reference(Kind),
}

// The class of the name; `int[]` where there is none.
fn kind_named(task: &Task<'_>, name: &[u8]) -> Kind
    ensures { kind_view result ≡ kind_named (named_in (task_view task.now).classes.tables name.now) }
{
    match class_named(task, name) {
        Some(class) => Kind::Class(class),
        None => Kind::IntArray,
    }
}

fn type_written(task: &Task<'_>, ty: &JavaType) -> FieldType
    ensures { type_meant result ≡ type_in (task_view task.now).classes.tables (type_view ty.now) }
{
    match ty {
        JavaType::Int => FieldType::Int,
        JavaType::Boolean => FieldType::Boolean,
        JavaType::IntArray => FieldType::Reference(Kind::IntArray),
        JavaType::Named(name) => FieldType::Reference(kind_named(task, name)),
    }
}

/// The type of the field; `int` of a number that no field has.
pub fn field_type(task: &Task<'_>, field: FieldId) -> FieldType
    ensures { type_meant result ≡ (told_setting (task_view task.now)).program.field_type field.0 }
{
    if (field.0 as usize) < task.classes.field_count() {
        type_written(task, &task.classes.field(field).ty)
    } else {
        FieldType::Int
    }
}

fn sort_of_type(ty: FieldType) -> Sort
    ensures { result ≡ type_sort (type_meant ty) }
{
    match ty {
        FieldType::Int => Sort::Int,
        FieldType::Boolean => Sort::Bool,
        FieldType::Reference(_) => Sort::Ref,
    }
}

/// The sort of the field.
pub fn field_sort(task: &Task<'_>, field: FieldId) -> Sort
    ensures { result ≡ field_sort (told_setting (task_view task.now)).program field.0 }
{
    sort_of_type(field_type(task, field))
}

// The class or `int[]` that the type is, as a part.
fn reference_part(ty: FieldType) -> Option<OwnedPart>
    ensures { option_map owned_part result ≡ option_map TheKind (reference_of (type_meant ty)) }
{
    match ty {
        FieldType::Int => None,
        FieldType::Boolean => None,
        FieldType::Reference(kind) => Some(OwnedPart::Kind(kind)),
    }
}

/// What the field refers to, as a part.
pub fn referred(task: &Task<'_>, field: Option<FieldId>) -> Option<OwnedPart>
    ensures { option_map owned_part result ≡ option_and_then (λ n. option_map TheKind (reference_of ((told_setting (task_view task.now)).program.field_type n))) (option_map field_number field) }
{
    match field {
        Some(field) => reference_part(field_type(task, field)),
        None => None,
    }
}

// The class that declares the field.
fn declaring(task: &Task<'_>, field: FieldId) -> Option<ClassId>
    ensures { option_map class_number result ≡ option_map class_of_field (slice_get (task_view task.now).classes.tables.fields field.0) }
{
    if (field.0 as usize) < task.classes.field_count() {
        Some(task.classes.field(field).class)
    } else {
        None
    }
}

// The same as a part.
fn declaring_part(task: &Task<'_>, field: FieldId) -> Option<OwnedPart>
    ensures { option_map owned_part result ≡ option_map TheKind (kind_declaring (task_view task.now) field.0) }
{
    match declaring(task, field) {
        Some(class) => Some(OwnedPart::Kind(Kind::Class(class))),
        None => None,
    }
}

/// The same of a field that may not be there.
pub fn declared(task: &Task<'_>, field: Option<FieldId>) -> Option<OwnedPart>
    ensures { option_map owned_part result ≡ option_map TheKind (option_and_then (kind_declaring (task_view task.now)) (option_map field_number field)) }
{
    match field {
        Some(field) => declaring_part(task, field),
        None => None,
    }
}
