//! Which families a call reaches.

ghost use Rattle.std.specs.Prelude.{◌≡◌, Some};
ghost use Rattle.jd_jclasses.specs.Classes.{class_in};
ghost use Rattle.jd_jgraph.specs.Callees.{class_above, constructor_of, list_at, lookup};
ghost use Rattle.jd_jnumbers.specs.Texts.{number_in};

use jd_jheads::Heads;
use jd_jnumbers::Numbers;
use jd_jseen::Seen;

// What calls are looked up in.
#[derive(Clone, Copy)]
pub(crate) struct Callees<'a> {
    pub(crate) heads: &'a Heads,
    // The names of the members.
    pub(crate) names: &'a Numbers,
    pub(crate) seen: &'a Seen,
    // The family of each method and constructor.
    pub(crate) families: &'a [u32],
    // For each number of a name the families of the methods of this name.
    pub(crate) by_name: &'a [Vec<u32>],
}

impl Callees<'_> {
    // The families of the methods of this name.
    pub(crate) fn methods_named(&self, name: &[u8]) -> &[u32]
        ensures { result.now ≡ list_at (lookup self.now).named (number_in (lookup self.now).names name.now) }
    {
        let Some(number) = self.names.number_of(name) else {
            return &[];
        };
        match self.by_name.get(number as usize) {
            Some(families) => families,
            None => &[],
        }
    }

    // The family of the constructor that runs for a class.
    fn constructor(&self, class: u32) -> Option<u32>
        ensures { result ≡ constructor_of (lookup self.now) (Some class) }
    {
        match self.seen.constructor(class) {
            Some(routine) => self.families.get(routine as usize).copied(),
            None => None,
        }
    }

    // The same for the class of this name, if there is one.
    pub(crate) fn constructor_named(&self, name: &[u8]) -> Option<u32>
        ensures { result ≡ constructor_of (lookup self.now) (class_in (lookup self.now).classes name.now) }
    {
        match self.heads.class_named(name) {
            Some(class) => self.constructor(class),
            None => None,
        }
    }

    // The same for the class above a class, if there is one.
    pub(crate) fn constructor_above(&self, class: u32) -> Option<u32>
        ensures { result ≡ constructor_of (lookup self.now) (class_above (lookup self.now) class) }
    {
        match self.heads.parents.get(class as usize) {
            Some(Some(parent)) => self.constructor(*parent),
            _ => None,
        }
    }
}
