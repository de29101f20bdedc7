ghost use Rattle.std.specs.Prelude.{◌≡◌};
ghost use Rattle.jd_tgrammar.specs.Spelling.{routine};
ghost use Rattle.jd_tforms.specs.Naming.{at_number};
ghost use Rattle.jd_tforms.specs.Sorted as sorted;

use jd_base::{FieldId, MethodId, Sort};
use jd_twords::NameMeanings;

/// The sorts of what names stand for, by the numbers of fields, methods and constructors.
pub trait NameSorts: NameMeanings {
    /// The sort of the field's values.
    fn field_sort(&self, field: FieldId) -> Sort
        ensures { result ≡ sorted.field_sort (Self.table self.now) field.0 };

    /// The sort of the method's result; none where it has no result.
    fn result_sort(&self, method: MethodId) -> Option<Sort>
        ensures { result ≡ (routine (Self.table self.now) method.0).result };

    /// The sort of the method's parameter of that number, from 0; none where it has no such parameter.
    fn parameter_sort(&self, method: MethodId, number: usize) -> Option<Sort>
        ensures { result ≡ at_number (routine (Self.table self.now) method.0).parameters number };
}
