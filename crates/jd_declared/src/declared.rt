ghost use Rattle.jd_declared.specs.Told.{told};

use crate::named::Named;
use jd_bodies::{ValueType, Variable};
use jd_naming::{Declares, Signature};

/// A method or constructor: the class that declares it, what it takes and what it gives.
#[derive(Drop)]
pub struct Routine {
    // The number of the class.
    pub(crate) class: u32,
    // Whether it is static.
    pub(crate) is_static: bool,
    // The types of its parameters.
    pub(crate) parameters: Vec<ValueType>,
    // The type of its result; none where it has none.
    pub(crate) result: Option<ValueType>,
}

/// What a program declares, by its classes' numbers and by hashed names.
#[derive(Drop)]
pub struct Declared {
    // The classes' numbers by their names.
    pub(crate) classes: Named<u32>,
    // What each class extends, and how many classes stand above it.
    pub(crate) parents: Vec<Option<u32>>,
    pub(crate) depths: Vec<u32>,
    // What each class declares itself.
    pub(crate) variables: Vec<Named<Variable>>,
    pub(crate) methods: Vec<Named<u32>>,
    pub(crate) constructors: Vec<Option<u32>>,
    // The methods and constructors of all.
    pub(crate) routines: Vec<Routine>,
}

impl Declares for Declared {
    ghost declarations = { told };

    fn class_named(&self, name: &[u8]) -> Option<u32> {
        self.classes.value(name)
    }

    fn parent(&self, class: u32) -> Option<u32> {
        self.extended(class)
    }

    fn is_subclass(&self, below: u32, above: u32) -> bool {
        self.stands_below(below, above)
    }

    fn joined(&self, one: u32, other: u32) -> u32 {
        self.meeting(one, other)
    }

    fn variable(&self, class: u32, name: &[u8]) -> Option<Variable> {
        self.nearest_variable(class, name)
    }

    fn method(&self, class: u32, name: &[u8]) -> Option<u32> {
        self.nearest_method(class, name)
    }

    fn constructor(&self, class: u32) -> Option<u32> {
        self.nearest_constructor(class)
    }

    fn signature(&self, routine: u32) -> Signature<'_> {
        match self.routines.get(routine as usize) {
            Some(r) => Signature {
                class: r.class,
                is_static: r.is_static,
                parameters: &r.parameters,
                result: r.result,
            },
            None => Signature {
                class: 0,
                is_static: false,
                parameters: &[],
                result: None,
            },
        }
    }
}
