//! What classes, fields and methods are called.

ghost use Rattle.jd_tparse.specs.Names.{table_of};

use crate::names::Names;
use jd_base::{ClassId, FieldId, MethodId};
use jd_print::NameTexts;

impl NameTexts for Names<'_> {
    ghost table = { table_of };

    fn class_name(&self, class: ClassId) -> &[u8] {
        if class.0 < self.classes.class_count() {
            &self.classes.class(class).name
        } else {
            &[]
        }
    }

    fn field_name(&self, field: FieldId) -> &[u8] {
        if (field.0 as usize) < self.classes.field_count() {
            &self.classes.field(field).name
        } else {
            &[]
        }
    }

    fn field_class(&self, field: FieldId) -> ClassId {
        if (field.0 as usize) < self.classes.field_count() {
            self.classes.field(field).class
        } else {
            ClassId(0)
        }
    }

    fn routine_name(&self, method: MethodId) -> &[u8] {
        if (method.0 as usize) < self.classes.method_count() {
            &self.classes.method(method).name
        } else {
            &[]
        }
    }

    fn routine_class(&self, method: MethodId) -> ClassId {
        if (method.0 as usize) < self.classes.method_count() {
            self.classes.method(method).class
        } else {
            ClassId(0)
        }
    }
}
