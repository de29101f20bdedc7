//! Classes by their names, and their constructors.

ghost use Rattle.std.specs.Prelude.{◌≡◌, ◌<◌, IfSome, option_map};
ghost use Rattle.jd_jinfos.specs.Views.{class_number, method_number};
ghost use Rattle.jd_classes.specs.Tables.{class_count_of};
ghost use Rattle.jd_tforms.specs.Naming as plain;
ghost use Rattle.jd_tparse.specs.Names.{table_of};

use crate::names::Names;
use jd_base::{ClassId, MethodId};
use jd_twords::is_name;

impl Names<'_> {
    /// The class of that name.
    pub(crate) fn class_called(&self, word: &[u8]) -> Option<ClassId>
        ensures named { option_map class_number result ≡ plain.class_of (table_of self.now) word.now }
        ensures within { IfSome result (λ c. c.0 < class_count_of self.now.classes.now) }
    {
        if is_name(word) {
            self.classes.class_named(word)
        } else {
            None
        }
    }

    /// The constructor of the class of that name.
    pub(crate) fn constructor_called(&self, word: &[u8]) -> Option<MethodId>
        ensures { option_map method_number result ≡ plain.constructor_of (table_of self.now) word.now }
    {
        match self.class_called(word) {
            Some(class) => self.classes.class(class).constructor,
            None => None,
        }
    }
}
