//! What names stand for.

ghost use Rattle.jd_tparse.specs.Names.{table_of};

use crate::names::Names;
use crate::parts::parted;
use crate::variables::declared_variable;
use jd_base::{ClassId, FieldId, MethodId, NoMemory};
use jd_syntax::VarId;
use jd_twords::{NameMeanings, is_name, variable_told};
use std::alloc::Global;

impl NameMeanings for Names<'_> {
    ghost table = { table_of };

    fn class_of(&self, word: &[u8]) -> Option<ClassId> {
        self.class_called(word)
    }

    fn field_of(&self, word: &[u8]) -> Option<FieldId> {
        if !is_name(word) {
            return None;
        }
        match self.field_named(word) {
            Some(field) => Some(FieldId(field)),
            None => None,
        }
    }

    fn method_of(&self, word: &[u8]) -> Option<(ClassId, MethodId)> {
        if !is_name(word) {
            return None;
        }
        match parted(word) {
            None => None,
            Some((class, name)) => match self.class_called(class) {
                Some(class) => self.method_seen(class, name),
                None => None,
            },
        }
    }

    fn static_of(&self, word: &[u8]) -> Option<MethodId> {
        if !is_name(word) {
            return None;
        }
        match self.static_named(word) {
            Some(method) => Some(MethodId(method)),
            None => None,
        }
    }

    fn constructor_of(&self, word: &[u8]) -> Option<MethodId> {
        self.constructor_called(word)
    }

    fn variable_of(&self, alloc: Global, word: &[u8]) -> Result<Option<VarId>, NoMemory> {
        if !is_name(word) {
            return Ok(None);
        }
        match variable_told(alloc, word)? {
            Some(variable) => Ok(Some(variable)),
            None => declared_variable(alloc, self.vars, word),
        }
    }
}
