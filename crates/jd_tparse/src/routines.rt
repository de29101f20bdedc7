//! Methods by their words.

ghost use Rattle.std.specs.Prelude.{◌≡◌, ◌<◌, ◌&&◌, true, nat_eq, All, List, map, option_map};
ghost use Rattle.std.specs.List.{find, list_all};
ghost use Rattle.jd_syntax.specs.JavaTrees.{JavaUnit};
ghost use Rattle.jd_syntax.specs.Names.{Name};
ghost use Rattle.jd_jclasses.specs.Methods.{routines as routines_of};
ghost use Rattle.jd_jinfos.specs.Views.{method_number};
ghost use Rattle.jd_classes.specs.Tables.{AreTables, class_count_of, method_count_of};
ghost use Rattle.jd_tforms.specs.Naming.{number_where, seen_method};
ghost use Rattle.jd_tforms.specs.Shapes.{is_name_byte};
ghost use Rattle.jd_names.specs.Tables.{name_table, program_tables};
ghost use Rattle.jd_names.specs.Words.{names_static};
ghost use Rattle.jd_tparse.specs.Called.{static_called};

use crate::names::Names;
use crate::parts::{behind, least};
use jd_base::{ClassId, MethodId};
use jd_jclasses::one_method;
use std::str::from_utf8;

impl Names<'_> {
    // The number of the first of these methods that is static and has the name.
    fn first_static(&self, own: &[MethodId], name: &[u8]) -> Option<u32>
        requires { All (λ m. m.0 < method_count_of self.now.classes.now) own.now }
        ensures { (units : List JavaUnit) → AreTables units self.now.classes.now
            → result ≡ find (static_called units name.now) (map method_number own.now) }
    {
        for method in own {
            let info = self.classes.method(*method);
            if info.is_static && info.name.as_slice() == name {
                return Some(method.0);
            }
        }
        None
    }

    // The static method of the class that the word names.
    fn static_in(&self, class: u32, word: &[u8]) -> Option<u32>
        requires { class < class_count_of self.now.classes.now }
        ensures { (units : List JavaUnit) → AreTables units self.now.classes.now
            → result ≡ number_where (λ d. nat_eq class d.class && names_static units word.now d) (routines_of units) }
    {
        let info = self.classes.class(ClassId(class));
        match behind(&info.name, word) {
            None => None,
            Some(name) => self.first_static(&info.methods, name),
        }
    }

    /// The number of the static method that the word names.
    pub(crate) fn static_named(&self, word: &[u8]) -> Option<u32>
        ensures { (units : List JavaUnit) → AreTables units self.now.classes.now
            → result ≡ number_where (names_static units word.now) (routines_of units) }
    {
        let mut found = None;
        for class in 0..self.classes.class_count() {
            found = least(found, self.static_in(class, word));
        }
        found
    }

    /// The method of the name that the class sees, where it is not static.
    pub(crate) fn method_seen(&self, class: ClassId, name: &[u8]) -> Option<(ClassId, MethodId)>
        requires class { class.0 < class_count_of self.now.classes.now }
        requires name { list_all is_name_byte name.now ≡ true }
        ensures { (units : List JavaUnit) → AreTables units self.now.classes.now → (variables : List Name)
            → option_map (λ p. (p.0.0, p.1.0)) result ≡ seen_method (name_table (program_tables units) variables) name.now class.0 }
    {
        one_method();
        match from_utf8(name) {
            Err(_) => None,
            Ok(text) => match self.classes.lookup(class, text) {
                None => None,
                Some(method) => {
                    if self.classes.method(method).is_static {
                        None
                    } else {
                        Some((class, method))
                    }
                }
            },
        }
    }
}
