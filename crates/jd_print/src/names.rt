ghost use Rattle.std.specs.Prelude.{◌≡◌, get_or};
ghost use Rattle.jd_tgrammar.specs.NameTables.{NameTable};
ghost use Rattle.jd_tgrammar.specs.Spelling.{class_word, no_field, routine};

use jd_base::{ClassId, FieldId, MethodId};

/// What the text of terms and code calls classes, fields, methods and constructors. Where nothing has a number, its name is
/// empty, and its class is the first.
pub trait NameTexts {
    /// The names.
    ghost table: { Self → NameTable };

    /// The name of a class.
    fn class_name(&self, class: ClassId) -> &[u8]
        ensures { result.now ≡ class_word (table self.now) class.0 };

    /// The name of a field.
    fn field_name(&self, field: FieldId) -> &[u8]
        ensures { result.now ≡ (get_or (table self.now).fields field.0 (no_field (table self.now))).name };

    /// The class that declares a field.
    fn field_class(&self, field: FieldId) -> ClassId
        ensures { result.0 ≡ (get_or (table self.now).fields field.0 (no_field (table self.now))).class };

    /// The name of a method.
    fn routine_name(&self, method: MethodId) -> &[u8]
        ensures { result.now ≡ (routine (table self.now) method.0).name };

    /// The class that declares a method or constructor.
    fn routine_class(&self, method: MethodId) -> ClassId
        ensures { result.0 ≡ (routine (table self.now) method.0).class };
}
