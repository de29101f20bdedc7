//! The sorts of what names stand for.

ghost use Rattle.std.specs.Prelude.{◌≡◌, map};
ghost use Rattle.jd_syntax.specs.JavaTypes.{type_view};
ghost use Rattle.jd_tforms.specs.Naming.{at_number};
ghost use Rattle.jd_names.specs.Tables as plain;

use crate::names::Names;
use jd_base::{FieldId, MethodId, Sort};
use jd_syntax::JavaType;
use jd_tsorts::NameSorts;

// The sort of the values of the type.
fn sort_of(ty: &JavaType) -> Sort
    ensures { result ≡ plain.sort_of (type_view ty.now) }
{
    match ty {
        JavaType::Int => Sort::Int,
        JavaType::Boolean => Sort::Bool,
        JavaType::IntArray => Sort::Ref,
        JavaType::Named(_) => Sort::Ref,
    }
}

// The sort of the type of that number, from 0.
fn sort_at(types: &[JavaType], number: usize) -> Option<Sort>
    ensures { result ≡ at_number (map plain.sort_of (map type_view types.now)) number }
{
    if number < types.len() {
        Some(sort_of(&types[number]))
    } else {
        None
    }
}

impl NameSorts for Names<'_> {
    fn field_sort(&self, field: FieldId) -> Sort {
        if (field.0 as usize) < self.classes.field_count() {
            sort_of(&self.classes.field(field).ty)
        } else {
            Sort::Int
        }
    }

    fn result_sort(&self, method: MethodId) -> Option<Sort> {
        if (method.0 as usize) < self.classes.method_count() {
            match &self.classes.method(method).result {
                Some(ty) => Some(sort_of(ty)),
                None => None,
            }
        } else {
            None
        }
    }

    fn parameter_sort(&self, method: MethodId, number: usize) -> Option<Sort> {
        if (method.0 as usize) < self.classes.method_count() {
            sort_at(&self.classes.method(method).params, number)
        } else {
            None
        }
    }
}
