//! Fields by their words.

ghost use Rattle.std.specs.Prelude.{◌≡◌, ◌<◌, ◌&&◌, nat_eq, All, List, map};
ghost use Rattle.std.specs.List.{find};
ghost use Rattle.jd_syntax.specs.JavaTrees.{JavaUnit};
ghost use Rattle.jd_jclasses.specs.Methods.{fields as fields_of};
ghost use Rattle.jd_jinfos.specs.Views.{field_number};
ghost use Rattle.jd_classes.specs.Tables.{AreTables, class_count_of, field_count_of};
ghost use Rattle.jd_tforms.specs.Naming.{number_where};
ghost use Rattle.jd_names.specs.Words.{names_field};
ghost use Rattle.jd_tparse.specs.Called.{field_called};

use crate::names::Names;
use crate::parts::{behind, least};
use jd_base::{ClassId, FieldId};

impl Names<'_> {
    // The number of the first of these fields that has the name.
    fn first_field(&self, own: &[FieldId], name: &[u8]) -> Option<u32>
        requires { All (λ f. f.0 < field_count_of self.now.classes.now) own.now }
        ensures { (units : List JavaUnit) → AreTables units self.now.classes.now
            → result ≡ find (field_called units name.now) (map field_number own.now) }
    {
        for field in own {
            if self.classes.field(*field).name.as_slice() == name {
                return Some(field.0);
            }
        }
        None
    }

    // The field of the class that the word names.
    fn field_in(&self, class: u32, word: &[u8]) -> Option<u32>
        requires { class < class_count_of self.now.classes.now }
        ensures { (units : List JavaUnit) → AreTables units self.now.classes.now
            → result ≡ number_where (λ d. nat_eq class d.class && names_field units word.now d) (fields_of units) }
    {
        let info = self.classes.class(ClassId(class));
        match behind(&info.name, word) {
            None => None,
            Some(name) => self.first_field(&info.fields, name),
        }
    }

    /// The number of the field that the word names.
    pub(crate) fn field_named(&self, word: &[u8]) -> Option<u32>
        ensures { (units : List JavaUnit) → AreTables units self.now.classes.now
            → result ≡ number_where (names_field units word.now) (fields_of units) }
    {
        let mut found = None;
        for class in 0..self.classes.class_count() {
            found = least(found, self.field_in(class, word));
        }
        found
    }
}
